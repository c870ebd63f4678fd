//! The first atomic form of a part that doesn't sleep.
ghost use Rattle.std.specs.Prelude.{◌≡◌, ◌↔◌, IfOk, IsTrue, Some};
ghost use Rattle.fort_machine.specs.Attempts.{Ready as IsReady};
ghost use Rattle.fort_machine.specs.Written.{WrittenProgram};
ghost use Rattle.fort_store_effects.specs.Levels.{levels_of, seen};
ghost use Rattle.fort_frames.specs.Frames.{frames, rebuilt, Reaches};
ghost use Rattle.fort_frames.specs.States.{term_at};
ghost use Rattle.fort_frames_moves.specs.Sweeps.{IsLeftAt, Swept};
ghost use Rattle.fort_hall_books.specs.Legs.{AllThere};
ghost use Rattle.fort_hall_forms.specs.Forms.{HasFirstForm, IsPartOfRun, Sleepers};
ghost use Rattle.fort_hall_forms.specs.Sought.{Follows, HasSleepless, IsSought, whole};

use crate::form::AtForm;
use fort_base::{List, Loc, Memory, Shared};
use fort_core::{Mode, Program, Term, Value};
use fort_frames::{At, Place, State};
use fort_frames_moves::{Stop, moved};
use fort_step_subst::group;
use fort_store_effects::Layers;
use std::alloc::Global;

/// What comes next in a search: another turn, or the answer.
#[derive(Drop)]
pub(crate) enum Sought {
    Goes(State),
    Ends(Option<AtForm>),
}

/// An atomic form that doesn't sleep.
#[derive(Drop)]
pub(crate) struct Sleepless {
    pub mode: Mode,
    pub body: Shared<Term>,
    pub watched: Option<List<(Loc, Value)>>,
}

/// The first atomic form of a part, from left to right, that doesn't sleep on the store that layers
/// show. `None` where each atomic form in it sleeps, or is passed over, or where there is none.
/// Other threads of the part don't matter. The chapter "Atomic" of docs/MACHINE.md.
///
/// # Errors
///
/// `Memory` where memory is wanting.
pub fn first_form(
    alloc: Global,
    program: &Program,
    part: Shared<Term>,
    view: &Layers,
) -> Result<Option<AtForm>, Memory>
    requires written { WrittenProgram program.now }
    requires part { IsPartOfRun program.now part }
    ensures { IfOk result (HasFirstForm part (seen (levels_of view.now))) }
{
    let mut state = at_whole(alloc, view, part);
    for _turn in 0..u64::MAX {
        match turned(alloc, program, view, state)? {
            Sought::Goes(next) => state = next,
            Sought::Ends(found) => return Ok(found),
        }
    }
    Err(Memory)
}

// At the whole part, which is to be gone into.
fn at_whole(alloc: Global, view: &Layers, part: Shared<Term>) -> State
    ensures sought { IsSought (seen (levels_of view.now)) result }
    ensures same { whole result ≡ part }
{
    let _view = view;
    State {
        place: Place::root(alloc),
        at: At::Form(part),
    }
}

// One turn.
fn turned(alloc: Global, program: &Program, view: &Layers, state: State) -> Result<Sought, Memory>
    requires written { WrittenProgram program.now }
    requires part { IsPartOfRun program.now (whole state) }
    requires sought { IsSought (seen (levels_of view.now)) state }
    ensures { IfOk result (Follows (seen (levels_of view.now)) (whole state)) }
{
    match moved(alloc, 0, state)? {
        Stop::Steps(place, ready) => {
            let form = ready.term(alloc)?;
            at_thread(alloc, program, view, place, form)
        }
        Stop::Tries(place, form) => at_thread(alloc, program, view, place, form),
        Stop::Groups(place, parts) => {
            let form = Shared::new(alloc, group(alloc, parts)?)?;
            let at = At::Form(form);
            Ok(Sought::Goes(State { place, at }))
        }
        Stop::Odd(_place, _form) => unreachable!(),
        Stop::Ends(at) => Ok(out_of(alloc, view, at)),
    }
}

// Out of the whole part.
fn out_of(alloc: Global, view: &Layers, at: At) -> Sought
    requires { Sleepers (seen (levels_of view.now)) (λ met. IsLeftAt met at) }
    ensures { Follows (seen (levels_of view.now)) (term_at at) result }
{
    match at {
        At::Form(form) => Sought::Goes(at_whole(alloc, view, form)),
        _ => Sought::Ends(None),
    }
}

// At a thread: an atomic form that doesn't sleep, or one to be gone past.
fn at_thread(
    alloc: Global,
    program: &Program,
    view: &Layers,
    place: Place,
    form: Shared<Term>,
) -> Result<Sought, Memory>
    requires written { WrittenProgram program.now }
    requires part { IsPartOfRun program.now (rebuilt 0 (frames place.stack) form) }
    requires thread { IsReady form }
    requires reached { Reaches 0 (frames place.stack) form }
    requires left { Sleepers (seen (levels_of view.now)) (λ met. Swept met (frames place.stack)) }
    ensures { IfOk result
        (Follows (seen (levels_of view.now)) (rebuilt 0 (frames place.stack) form)) }
{
    let _program = program;
    match awake_form(alloc, view, form.get())? {
        None => {
            let at = At::Left(form);
            Ok(Sought::Goes(State { place, at }))
        }
        Some(found) => {
            let Sleepless {
                mode,
                body,
                watched,
            } = found;
            Ok(Sought::Ends(Some(AtForm {
                place,
                form,
                mode,
                body,
                watched,
            })))
        }
    }
}

// The atomic form that a term is, if it is one that doesn't sleep.
fn awake_form(alloc: Global, view: &Layers, form: &Term) -> Result<Option<Sleepless>, Memory>
    ensures { IfOk result (HasSleepless form.now (seen (levels_of view.now))) }
{
    match form {
        Term::Atomic(mode, body) => {
            let body = body.share()?;
            Ok(Some(Sleepless {
                mode: *mode,
                body,
                watched: None,
            }))
        }
        Term::Asleep(marks, body) => {
            if are_there(view, marks) {
                return Ok(None);
            }
            let body = body.share()?;
            let watched = copied(alloc, marks)?;
            Ok(Some(Sleepless {
                mode: Mode::Atomic,
                body,
                watched: Some(watched),
            }))
        }
        _ => Ok(None),
    }
}

// Whether each of some marks has its value.
fn are_there(view: &Layers, marks: &List<(Loc, Value)>) -> bool
    ensures { IsTrue result ↔ AllThere (seen (levels_of view.now)) marks.now }
{
    for mark in marks.as_slice() {
        if !has(view, mark.0, &mark.1) {
            return false;
        }
    }
    true
}

// Whether a location has this value.
fn has(view: &Layers, loc: Loc, value: &Value) -> bool
    ensures { IsTrue result ↔ (seen (levels_of view.now) loc.0 ≡ Some value.now) }
{
    match view.look(loc) {
        None => false,
        Some(found) => found.same(value),
    }
}

// Marks, with one owner more for each value.
fn copied(alloc: Global, marks: &List<(Loc, Value)>) -> Result<List<(Loc, Value)>, Memory>
    ensures { IfOk result (λ copy. copy ≡ marks.now) }
{
    let mut copy = List::new(alloc);
    for mark in marks.as_slice() {
        copy.push((mark.0, mark.1.share()?))?;
    }
    Ok(copy)
}
