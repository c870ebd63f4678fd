//! The end of a machine's term, or of a sweep through it.
ghost use Rattle.std.specs.Prelude.{◌≡◌, ◌↔◌, ◌&&◌, ◌||◌, false, IfOk, IsTrue};
ghost use Rattle.fort_machine.specs.Acts.{unit};
ghost use Rattle.fort_machine.specs.Attempts.{goes};
ghost use Rattle.fort_machine.specs.Ends.{throw_of};
ghost use Rattle.fort_frames.specs.declared.state.At.TheVariants as a_place;
ghost use Rattle.fort_walk_course.specs.Courses.{HasCome, around};
ghost use Rattle.fort_walk_course.specs.Calls.{KeepsForm};
ghost use Rattle.fort_walk_turns.specs.Grows.{Onward};
ghost use Rattle.fort_walk_turns.specs.Idles.{Follows, IsAtEndOf};

use crate::pace::Pace;
use fort_base::{Memory, Shared};
use fort_core::{Program, Term, Value};
use fort_frames::{At, Place, State};
use fort_walk_course::{Execution, Going};
use fort_walk_turns::{Next, Sweep, Walked, Walking, closed, leave};
use std::alloc::Global;

/// The whole term of the innermost machine is finished, or each thread of it was passed.
///
/// # Errors
///
/// `Memory` where memory is wanting.
#[inline(never)]
pub fn at_end(
    alloc: Global,
    program: &Program,
    course: Execution,
    sweep: Sweep,
    at: At,
    pace: Pace,
) -> Result<(Next, Pace), Memory>
    requires { IsAtEndOf program.now course sweep at }
    ensures follows { IfOk result (λ both. Follows program.now course.fuel both.0) }
    ensures grows { IfOk result (λ both. Onward course both.0) }
{
    match at {
        At::Value(value) => Ok((at_value(alloc, program, course, value)?, pace)),
        At::Throw(value) => Ok((at_throw(alloc, program, course, value)?, pace)),
        At::Left(term) => again(alloc, program, course, sweep, term, pace),
        At::Form(term) => Ok((goes_in(alloc, program, course, term), pace)),
    }
}

#[inline(never)]
fn at_value(
    alloc: Global,
    program: &Program,
    course: Execution,
    value: Value,
) -> Result<Next, Memory>
    requires { HasCome program.now course (goes (Term.Value value)) }
    ensures follows { IfOk result (Follows program.now course.fuel) }
    ensures grows { IfOk result (Onward course) }
{
    match course.turn() {
        Some(taken) => {
            let going = course.complete(alloc, program, value)?;
            Ok(closed(program, going, taken))
        }
        None => {
            if is_unit(&value) {
                Ok(Next::Ends(Walked::Ran(course.end_completed(program))))
            } else {
                Ok(Next::Ends(Walked::Stuck))
            }
        }
    }
}

#[inline(never)]
fn at_throw(
    alloc: Global,
    program: &Program,
    course: Execution,
    thrown: Value,
) -> Result<Next, Memory>
    requires { HasCome program.now course (goes (throw_of thrown)) }
    ensures follows { IfOk result (Follows program.now course.fuel) }
    ensures grows { IfOk result (Onward course) }
{
    match course.turn() {
        Some(taken) => {
            let going = course.fail(alloc, program, thrown)?;
            Ok(closed(program, going, taken))
        }
        None => Ok(Next::Ends(Walked::Ran(course.end_uncaught(program, thrown)))),
    }
}

fn is_unit(value: &Value) -> bool
    ensures { IsTrue result ↔ (value.now ≡ unit) }
{
    match value {
        Value::Tuple(parts) => parts.get().is_empty(),
        _ => false,
    }
}

// At a whole term that is still to be gone into: its threads have their turns from the left end on.
fn goes_in(alloc: Global, program: &Program, course: Execution, term: Shared<Term>) -> Next
    requires { HasCome program.now course (goes term) }
    ensures follows { Follows program.now course.fuel result }
    ensures grows { Onward course result }
{
    let _program = program;
    let place = Place::root(alloc);
    let at = At::Form(term);
    let state = State { place, at };
    Next::Goes(Walking {
        going: Going { course, state },
        sweep: Sweep::new(false),
    })
}

// Each thread was passed: nobody goes on; or an attempt is left whose threads all sleep; or there
// is another sweep.
#[inline(never)]
fn again(
    alloc: Global,
    program: &Program,
    course: Execution,
    sweep: Sweep,
    term: Shared<Term>,
    pace: Pace,
) -> Result<(Next, Pace), Memory>
    requires { IsAtEndOf program.now course sweep (a_place.Left term) }
    ensures follows { IfOk result (λ both. Follows program.now course.fuel both.0) }
    ensures grows { IfOk result (λ both. Onward course both.0) }
{
    if all_passed(sweep) {
        return Ok((Next::Ends(Walked::Stuck), pace));
    }
    if is_left(&course, sweep, pace) {
        let spent = course.spent();
        let walking = leave(alloc, program, course)?;
        let cost = spent.saturating_sub(walking.going.course.spent());
        return Ok((Next::Goes(walking), pace.left(cost)));
    }
    let in_vain = sweep.met_none() && !sweep.idle;
    let pace = pace.swept(in_vain, course.turn().is_some());
    Ok((next_sweep(alloc, program, course, sweep, term), pace))
}

// Whether the innermost machine is an attempt's that is left now.
fn is_left(course: &Execution, sweep: Sweep, pace: Pace) -> bool
    ensures { IsTrue result → KeepsForm (around course.now) }
{
    if !sweep.met_none() || !pace.leaves(course.spent()) {
        return false;
    }
    course.keeps_form()
}

// From the left end of the term, where picks were taken since its last sweep; with the sleepers,
// where all sleep.
fn next_sweep(
    alloc: Global,
    program: &Program,
    course: Execution,
    sweep: Sweep,
    term: Shared<Term>,
) -> Next
    requires ends { IsAtEndOf program.now course sweep (a_place.Left term) }
    requires more { (sweep.idle && (sweep.stuck || sweep.wakes)) ≡ false }
    ensures follows { Follows program.now course.fuel result }
    ensures grows { Onward course result }
{
    let _program = program;
    let place = Place::root(alloc);
    let at = At::Form(term);
    let state = State { place, at };
    Next::Goes(Walking {
        going: Going { course, state },
        sweep: Sweep::new(sweep.idle),
    })
}

// Whether no pick was taken in a sweep, though a thread was met that is awake, or sleepers were
// tried.
fn all_passed(sweep: Sweep) -> bool
    ensures { result ≡ (sweep.idle && (sweep.stuck || sweep.wakes)) }
{
    sweep.idle && (sweep.stuck || sweep.wakes)
}
