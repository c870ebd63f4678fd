//! A leg of a part, one thread after the other.
ghost use Rattle.std.specs.Prelude.{◌≡◌, IfOk};
ghost use Rattle.fort_core.specs.declared.term.Term.{Term as a_term};
ghost use Rattle.fort_machine.specs.Ends.{group as group_of};
ghost use Rattle.fort_machine.specs.Written.{WrittenProgram};
ghost use Rattle.fort_machine.specs.Attempts.{Ready as IsReady};
ghost use Rattle.fort_disp.specs.Rows.{MayPick};
ghost use Rattle.fort_store_effects.specs.Levels.{levels_of, seen};
ghost use Rattle.fort_frames.specs.States.{term_at};
ghost use Rattle.fort_frames_moves.specs.Turns.{IsMade, ready_term};
ghost use Rattle.fort_walk_legs.specs.Legs.{IsInReach};
ghost use Rattle.fort_walk_stretch.specs.Goes.{Goes};
ghost use Rattle.fort_walk_stretch.specs.Stretches.{Follows, IsOn, IsWhole};

use crate::leg::{Leg, Room};
use crate::steps::{take, wants_room};
use crate::stretch::{Stretch, Turned};
use fort_base::{Memory, Shared};
use fort_core::{Program, Term};
use fort_disp::Tables;
use fort_frames::{At, Place, State};
use fort_frames_moves::{Ready, Stop, moved};
use fort_step_acting::acting_by;
use fort_step_subst::group;
use fort_store_effects::Layers;
use std::alloc::Global;

/// A leg of a part over layers that stay as they are, in a machine, an attempt's (`inner`) or the
/// root's: its threads go on from left to right, each as far as it can without an attempt, until
/// the room is used up, or one comes to an atomic form that hasn't slept. It may have no step.
/// Declarations of calls are found by the program's tables. The chapter "Legs".
///
/// The layers may show any locations, with whatever numbers. New ones get the numbers of the room
/// in their order; where one of these is that of a location that is there, it is as if there were
/// no room for the step. It takes a look for each new location.
///
/// # Errors
///
/// `Memory` where memory is wanting.
pub fn leaf(
    alloc: Global,
    tables: &Tables,
    view: &Layers,
    inner: bool,
    part: Shared<Term>,
    room: Room,
) -> Result<Leg, Memory>
    requires written { WrittenProgram tables.now.program.now }
    requires tables { MayPick tables.now }
    requires reach { IsInReach tables.now.program.now inner (seen (levels_of view.now)) part }
    ensures { IfOk result
        (Goes tables.now.program.now inner (seen (levels_of view.now)) part room) }
{
    let mut stretch = Stretch::new(alloc, part.share()?, room.from);
    let mut state = State::of(alloc, part);
    for _turn in 0..u64::MAX {
        match turned(alloc, tables, view, inner, room, stretch, state)? {
            Turned::Goes(next, at) => {
                stretch = next;
                state = at;
            }
            Turned::Ends(leg) => return Ok(leg),
        }
    }
    Err(Memory)
}

// One turn.
fn turned(
    alloc: Global,
    tables: &Tables,
    view: &Layers,
    inner: bool,
    room: Room,
    stretch: Stretch,
    state: State,
) -> Result<Turned, Memory>
    requires written { WrittenProgram tables.now.program.now }
    requires tables { MayPick tables.now }
    requires on { IsOn tables.now.program.now inner (seen (levels_of view.now)) room stretch
        state.place (term_at state.«at») }
    ensures { IfOk result
        (Follows tables.now.program.now inner (seen (levels_of view.now)) stretch.first room) }
{
    let program = tables.program;
    match moved(alloc, stretch.clock, state)? {
        Stop::Steps(place, ready) => {
            at_thread(alloc, tables, view, inner, room, stretch, place, ready)
        }
        Stop::Groups(place, parts) => {
            let form = Shared::new(alloc, group(alloc, parts)?)?;
            let at = At::Form(form);
            Ok(Turned::Goes(stretch, State { place, at }))
        }
        Stop::Tries(place, form) => Ok(left_out(program, view, inner, room, stretch, place, form)),
        Stop::Odd(place, form) => Ok(left_out(program, view, inner, room, stretch, place, form)),
        Stop::Ends(at) => ended(alloc, program, view, inner, room, stretch, at),
    }
}

// A thread takes its step, or it is passed.
fn at_thread(
    alloc: Global,
    tables: &Tables,
    view: &Layers,
    inner: bool,
    room: Room,
    stretch: Stretch,
    place: Place,
    ready: Ready,
) -> Result<Turned, Memory>
    requires written { WrittenProgram tables.now.program.now }
    requires tables { MayPick tables.now }
    requires on { IsOn tables.now.program.now inner (seen (levels_of view.now)) room stretch place
        (ready_term ready) }
    requires thread { IsReady (ready_term ready) }
    requires made { IsMade ready }
    ensures { IfOk result
        (Follows tables.now.program.now inner (seen (levels_of view.now)) stretch.first room) }
{
    let program = tables.program;
    if stretch.full {
        let form = ready.term(alloc)?;
        return Ok(passed(program, view, inner, room, stretch, place, form));
    }
    let deal = acting_by(alloc, tables, &ready)?;
    if wants_room(&deal, &stretch, view, room) {
        let mut stretch = stretch;
        stretch.full = true;
        let form = ready.term(alloc)?;
        return Ok(passed(program, view, inner, room, stretch, place, form));
    }
    take(
        alloc, program, view, inner, room, stretch, place, ready, deal,
    )
}

/// Past a thread that can't go on beside the run. Behind an atomic form that hasn't slept no thread
/// takes a step: else all threads behind it would be begun before its attempt.
pub(crate) fn left_out(
    program: &Program,
    view: &Layers,
    inner: bool,
    room: Room,
    stretch: Stretch,
    place: Place,
    form: Shared<Term>,
) -> Turned
    requires { IsOn program.now inner (seen (levels_of view.now)) room stretch place form }
    ensures { Follows program.now inner (seen (levels_of view.now)) stretch.first room result }
{
    let mut stretch = stretch;
    stretch.left_out = true;
    stretch.full = is_full(stretch.full, form.get());
    passed(program, view, inner, room, stretch, place, form)
}

// Whether no further step is taken behind a form that was left out.
fn is_full(full: bool, form: &Term) -> bool {
    match form {
        Term::Atomic(_, _) => true,
        _ => full,
    }
}

/// Past a thread that takes no step here.
pub(crate) fn passed(
    program: &Program,
    view: &Layers,
    inner: bool,
    room: Room,
    stretch: Stretch,
    place: Place,
    form: Shared<Term>,
) -> Turned
    requires { IsOn program.now inner (seen (levels_of view.now)) room stretch place form }
    ensures { Follows program.now inner (seen (levels_of view.now)) stretch.first room result }
{
    let _program = program;
    let _view = view;
    let _inner = inner;
    let _room = room;
    let at = At::Left(form);
    Turned::Goes(stretch, State { place, at })
}

// Out of the whole part.
fn ended(
    alloc: Global,
    program: &Program,
    view: &Layers,
    inner: bool,
    room: Room,
    stretch: Stretch,
    at: At,
) -> Result<Turned, Memory>
    requires { IsWhole program.now inner (seen (levels_of view.now)) room stretch (term_at at) }
    ensures { IfOk result
        (Follows program.now inner (seen (levels_of view.now)) stretch.first room) }
{
    let _program = program;
    let _view = view;
    let _inner = inner;
    let _room = room;
    let term = whole(alloc, at)?;
    let Stretch {
        done,
        picks,
        first: _first,
        clock: _,
        fresh,
        full: _,
        left_out,
    } = stretch;
    Ok(Turned::Ends(Leg {
        done,
        picks,
        term,
        fresh,
        left_out,
    }))
}

// The whole term.
fn whole(alloc: Global, at: At) -> Result<Shared<Term>, Memory>
    ensures { IfOk result (λ term. term ≡ term_at at) }
{
    match at {
        At::Value(value) => Shared::new(alloc, Term::Value(value)),
        At::Throw(thrown) => {
            let value = Shared::new(alloc, Term::Value(thrown))?;
            Shared::new(alloc, Term::Throw(value))
        }
        At::Form(term) => Ok(term),
        At::Left(term) => Ok(term),
    }
}
