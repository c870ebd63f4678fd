//! Attempts of atomic forms.
ghost use Rattle.std.specs.Prelude.{◌≡◌, ◌≢◌, ◌↔◌, ℕ, [], IfOk, IsTrue, Some};
ghost use Rattle.fort_core.specs.declared.form.Mode.{Mode};
ghost use Rattle.fort_core.specs.declared.term.Term.{Term};
ghost use Rattle.fort_core.specs.declared.value.Value.{Value};
ghost use Rattle.fort_machine.specs.Acts as acts;
ghost use Rattle.fort_machine.specs.Attempts.{Ended, Form, Sleeps};
ghost use Rattle.fort_machine.specs.Effects.{printed};
ghost use Rattle.fort_machine.specs.Ends.{throw_of};
ghost use Rattle.fort_machine.specs.Marked.{In};
ghost use Rattle.fort_machine.specs.Steps.{Acts};
ghost use Rattle.fort_machine.specs.Written.{WrittenProgram};
ghost use Rattle.fort_store_effects.specs.Levels.{levels_of, seen};
ghost use Rattle.fort_frames_moves.specs.Turns.{IsMade, ready_term};
ghost use Rattle.fort_walk_course.specs.Courses.{HasCome, around};
ghost use Rattle.fort_walk_course.specs.Calls.{KeepsForm, MayAbort, MayStep, MayTryThis};
ghost use Rattle.fort_step_acting.specs.Only.{OnlyDoes};
ghost use Rattle.fort_walk_turns.specs.Grows.{GrowsFrom, Onward};
ghost use Rattle.fort_walk_turns.specs.Idles.{Follows, IsAtPlace, IsAtThread, Rests};
ghost use Rattle.fort_walk_turns.specs.declared.next.Next.TheVariants as nexts;

use crate::next::{Next, Walking, closed, left};
use crate::sweep::Sweep;
use crate::threads::turns;
use crate::walked::Walked;
use fort_base::{List, Loc, Memory, Shared};
use fort_core::{Mode, Program, Term, Value};
use fort_frames::{At, Place, State};
use fort_frames_moves::Ready;
use fort_walk_course::{Execution, Going, Standing, Tried, single};
use std::alloc::Global;

/// An atomic form is tried, or it sleeps, or its turn is over.
#[inline(never)]
pub fn at_atomic(
    alloc: Global,
    program: &Program,
    course: Execution,
    sweep: Sweep,
    place: Place,
    form: Shared<Term>,
) -> Result<Next, Memory>
    requires written { WrittenProgram program.now }
    requires form { IsAtPlace program.now course sweep place form }
    requires atomic { (m : Mode) × (body : Term) × Form form m body }
    ensures follows { IfOk result (Follows program.now course.fuel) }
    ensures grows { IfOk result (Onward course) }
{
    if sweep.is_over(&place) {
        return Ok(left(program, course, sweep.passed(), place, form));
    }
    if rests(&course, sweep, form.get()) {
        return Ok(left(program, course, sweep.passed(), place, form));
    }
    match form.get() {
        Term::Atomic(mode, body) => {
            let tried = to_try(&form, *mode, body)?;
            begin(alloc, program, course, sweep, place, tried)
        }
        Term::Asleep(_, body) => {
            let tried = to_try(&form, Mode::Atomic, body)?;
            begin(alloc, program, course, sweep, place, tried)
        }
        _ => unreachable!(),
    }
}

// The form as it is tried.
fn to_try(form: &Shared<Term>, mode: Mode, body: &Shared<Term>) -> Result<Tried, Memory>
    ensures form { IfOk result (λ tried. tried.form ≡ form.now) }
    ensures mode { IfOk result (λ tried. tried.mode ≡ mode) }
    ensures body { IfOk result (λ tried. tried.body ≡ body.now) }
{
    Ok(Tried {
        form: form.share()?,
        mode,
        body: body.share()?,
    })
}

// Whether a form sleeps, and isn't tried.
fn rests(course: &Execution, sweep: Sweep, form: &Term) -> bool
    ensures { Rests result sweep.wakes (Sleeps (seen (levels_of course.now.layers)) form.now) }
{
    if sweep.wakes {
        return false;
    }
    sleeps(course, form)
}

// Whether each location that a sleeping form watches has its value.
fn sleeps(course: &Execution, form: &Term) -> bool
    ensures { IsTrue result ↔ Sleeps (seen (levels_of course.now.layers)) form.now }
{
    match form {
        Term::Asleep(marks, _) => unchanged(course, marks),
        _ => false,
    }
}

fn unchanged(course: &Execution, marks: &List<(Loc, Value)>) -> bool
    ensures { IsTrue result
        ↔ ((l : ℕ) (v : Value) → In l v marks.now → seen (levels_of course.now.layers) l ≡ Some v) }
{
    for mark in marks.as_slice() {
        if !has(course, mark.0, &mark.1) {
            return false;
        }
    }
    true
}

// Whether a location has this value.
fn has(course: &Execution, loc: Loc, value: &Value) -> bool
    ensures { IsTrue result ↔ (seen (levels_of course.now.layers) loc.0 ≡ Some value.now) }
{
    match course.look(loc) {
        None => false,
        Some(found) => found.same(value),
    }
}

// The attempt's machine begins at the body, or the fuel is out.
fn begin(
    alloc: Global,
    program: &Program,
    course: Execution,
    sweep: Sweep,
    place: Place,
    tried: Tried,
) -> Result<Next, Memory>
    requires written { WrittenProgram program.now }
    requires may { MayTryThis program.now course place tried.form tried.mode tried.body }
    ensures follows { IfOk result (Follows program.now course.fuel) }
    ensures grows { IfOk result (Onward course) }
{
    if !course.affords(1) {
        let ran = course.end_at_attempt(alloc, program, &place, tried.mode, &tried.body)?;
        return Ok(Next::Ends(Walked::Ran(ran)));
    }
    let going = course.enter(alloc, program, place, tried, sweep.turn())?;
    let sweep = Sweep::new(false);
    Ok(Next::Goes(Walking { going, sweep }))
}

/// The innermost attempt is left, since none of its threads goes on: it is undone, and the sweep of
/// the machine round it goes on behind its form. Where that sleeps it was tried since nobody is
/// awake there, and so are the other sleepers.
///
/// # Errors
///
/// `Memory` where memory is wanting.
#[inline(never)]
pub fn leave(alloc: Global, program: &Program, course: Execution) -> Result<Walking, Memory>
    requires kept { KeepsForm (around course) }
    requires come { (r : Ended) × HasCome program.now course r }
    ensures follows { IfOk result
        (λ walking. Follows program.now course.fuel (nexts.Goes walking)) }
    ensures grows { IfOk result (λ walking. GrowsFrom course walking.going.course) }
{
    let Standing {
        course,
        place,
        form,
        turn,
    } = course.leave(alloc, program)?;
    let wakes = sleeps(&course, form.get());
    let at = At::Left(form);
    let state = State { place, at };
    Ok(Walking {
        going: Going { course, state },
        sweep: Sweep::left(turn, wakes),
    })
}

/// A step of `abort()`: it ends an attempt's machine, and is a throw in the root's.
#[inline(never)]
pub fn abort(
    alloc: Global,
    program: &Program,
    course: Execution,
    sweep: Sweep,
    place: Place,
    ready: Ready,
) -> Result<Next, Memory>
    requires thread { IsAtThread program.now course sweep place (ready_term ready) }
    requires made { IsMade ready }
    requires acts { Acts program.now (ready_term ready) acts.ends }
    requires only { OnlyDoes program.now (ready_term ready) acts.ends }
    ensures follows { IfOk result (Follows program.now course.fuel) }
    ensures grows { IfOk result (Onward course) }
{
    match course.turn() {
        Some(taken) => abort_attempt(alloc, program, course, place, taken),
        None => abort_root(alloc, program, course, sweep, place, ready),
    }
}

fn abort_attempt(
    alloc: Global,
    program: &Program,
    course: Execution,
    place: Place,
    taken: u32,
) -> Result<Next, Memory>
    requires inside { course.outer ≢ [] }
    requires may { MayAbort program.now course place }
    ensures follows { IfOk result (Follows program.now course.fuel) }
    ensures grows { IfOk result (Onward course) }
{
    if !course.affords(1) {
        let ran = course.end_at_abort(alloc, program, &place)?;
        return Ok(Next::Ends(Walked::Ran(ran)));
    }
    match course.abort(alloc, program, &place)? {
        None => Ok(Next::Ends(Walked::Stuck)),
        Some(going) => Ok(closed(program, going, taken)),
    }
}

fn abort_root(
    alloc: Global,
    program: &Program,
    course: Execution,
    sweep: Sweep,
    place: Place,
    ready: Ready,
) -> Result<Next, Memory>
    requires thread { IsAtThread program.now course sweep place (ready_term ready) }
    requires made { IsMade ready }
    requires acts { Acts program.now (ready_term ready) acts.ends }
    requires only { OnlyDoes program.now (ready_term ready) acts.ends }
    requires outside { course.outer ≡ [] }
    ensures follows { IfOk result (Follows program.now course.fuel) }
    ensures grows { IfOk result (Onward course) }
{
    match single(program, program.built_in.abort_outside) {
        None => Ok(left(
            program,
            course,
            sweep.met_stuck(),
            place,
            ready.term(alloc)?,
        )),
        Some(value) => throws(alloc, program, course, sweep, place, value),
    }
}

// The throw of a value is taken as a step.
fn throws(
    alloc: Global,
    program: &Program,
    course: Execution,
    sweep: Sweep,
    place: Place,
    value: Value,
) -> Result<Next, Memory>
    requires may { (next : Term) → next ≡ throw_of value
        → MayStep program.now course place 0 next (printed [] 1) }
    ensures follows { IfOk result (Follows program.now course.fuel) }
    ensures grows { IfOk result (Onward course) }
{
    let thrown = Shared::new(alloc, Term::Value(value))?;
    let next = Shared::new(alloc, Term::Throw(thrown))?;
    let text = List::new(alloc);
    turns(alloc, program, course, sweep, place, next, text, 1)
}
