//! The thread of a path.
ghost use Rattle.std.specs.Prelude.{◌≡◌, ◌≢◌, ◌≤◌, ℕ, take, length, IfOk};
ghost use Rattle.fort_machine.specs.Attempts as attempts;
ghost use Rattle.fort_machine.specs.Ends.{group as group_of};
ghost use Rattle.fort_frames.specs.Frames.{Reaches, frames, rebuilt};
ghost use Rattle.fort_frames.specs.States.{term_at};
ghost use Rattle.fort_frames_moves.specs.Turns.{IsGathered, IsStep, IsTry, ready_term};
ghost use Rattle.fort_plain.specs.Paths.{IsFound, IsSought, MarksStandIn, whole};

use crate::aside::aside;
use fort_base::{List, Memory, Shared};
use fort_core::{Path, Term};
use fort_frames::{At, Place, State};
use fort_frames_moves::{Ready, Stop, moved};
use fort_step_subst::group;
use std::alloc::Global;

/// What has a path.
#[derive(Drop)]
pub enum Found {
    /// A thread: a form that has its step, or none.
    Steps(Place, Ready),
    /// The thread of an atomic form, before an attempt or asleep after one.
    Tries(Place, Shared<Term>),
    /// No thread that may go on.
    Nothing,
}

/// On the way to what has a path.
#[derive(Drop)]
pub enum Seek {
    Moves(State),
    Stops(Found),
}

/// Finds the thread of a path in the term that a state stands for: it goes on to the next thread,
/// and from there into the part that the path names where theirs differ. So it takes constant time
/// where the thread is the next one.
///
/// # Errors
///
/// `Memory` where memory is wanting.
pub fn find(alloc: Global, clock: u64, state: State, path: &Path) -> Result<Found, Memory>
    requires reached { Reaches clock (frames state.place.stack) (term_at state.«at») }
    requires marks { MarksStandIn (whole clock state) }
    ensures { IfOk result (IsFound clock (whole clock state) path.now) }
{
    let mut state = state;
    for _turn in 0..u64::MAX {
        match one_thread(alloc, clock, state, path)? {
            Seek::Moves(next) => state = next,
            Seek::Stops(found) => return Ok(found),
        }
    }
    Err(Memory)
}

// One thread on.
fn one_thread(alloc: Global, clock: u64, state: State, path: &Path) -> Result<Seek, Memory>
    requires reached { Reaches clock (frames state.place.stack) (term_at state.«at») }
    requires marks { MarksStandIn (whole clock state) }
    ensures { IfOk result (IsSought clock (whole clock state) path.now) }
{
    match moved(alloc, clock, state)? {
        Stop::Steps(place, ready) => at_step(alloc, clock, place, ready, path),
        Stop::Tries(place, form) => at_form(alloc, clock, place, form, path),
        Stop::Groups(place, parts) => at_group(alloc, clock, place, parts),
        Stop::Odd(_place, _form) => unreachable!(),
        Stop::Ends(at) => Ok(ends(alloc, at)),
    }
}

// At a form that has its step, or none.
fn at_step(
    alloc: Global,
    clock: u64,
    place: Place,
    ready: Ready,
    path: &Path,
) -> Result<Seek, Memory>
    requires { IsStep clock (rebuilt clock (frames place.stack) (ready_term ready)) place ready }
    ensures { IfOk result
        (IsSought clock (rebuilt clock (frames place.stack) (ready_term ready)) path.now) }
{
    if place.path.same(path) {
        return Ok(Seek::Stops(Found::Steps(place, ready)));
    }
    let form = ready.term(alloc)?;
    elsewhere(alloc, clock, place, form, path)
}

// At an atomic form.
fn at_form(
    alloc: Global,
    clock: u64,
    place: Place,
    form: Shared<Term>,
    path: &Path,
) -> Result<Seek, Memory>
    requires { IsTry clock (rebuilt clock (frames place.stack) form) place form }
    ensures { IfOk result (IsSought clock (rebuilt clock (frames place.stack) form) path.now) }
{
    if place.path.same(path) {
        return Ok(Seek::Stops(Found::Tries(place, form)));
    }
    elsewhere(alloc, clock, place, form, path)
}

// At a tuple, before it is known whether it is a value.
fn at_group(
    alloc: Global,
    clock: u64,
    place: Place,
    parts: List<Shared<Term>>,
) -> Result<Seek, Memory>
    requires { IsGathered clock (rebuilt clock (frames place.stack) (group_of parts)) place parts }
    ensures { IfOk result (λ seek. (path : Path)
        → IsSought clock (rebuilt clock (frames place.stack) (group_of parts)) path seek) }
{
    let _clock = clock;
    let form = Shared::new(alloc, group(alloc, parts)?)?;
    let at = At::Form(form);
    Ok(Seek::Moves(State { place, at }))
}

// Out of the whole term: it is finished, or its other threads are to the left.
#[tactic(auto, using(crate::proofs::Finding::left_again, crate::proofs::Finding::form_again))]
fn ends(alloc: Global, at: At) -> Seek
    ensures { (clock : ℕ) (path : Path) → IsSought clock (term_at «at») path result }
{
    match at {
        At::Value(_value) => Seek::Stops(Found::Nothing),
        At::Throw(_value) => Seek::Stops(Found::Nothing),
        At::Left(term) => Seek::Moves(State::of(alloc, term)),
        At::Form(term) => Seek::Moves(State::of(alloc, term)),
    }
}

// From a thread to another one.
#[tactic(auto, using(crate::proofs::Paths::none_below, crate::proofs::Paths::none_above))]
fn elsewhere(
    alloc: Global,
    clock: u64,
    place: Place,
    form: Shared<Term>,
    path: &Path,
) -> Result<Seek, Memory>
    requires reached { Reaches clock (frames place.stack) form }
    requires ready { attempts.Ready form }
    requires other { place.path ≢ path.now }
    ensures { IfOk result (IsSought clock (rebuilt clock (frames place.stack) form) path.now) }
{
    let keep = in_common(&place.path, path);
    let own = place.path.0.len();
    let asked = path.0.len();
    if keep == own {
        return Ok(Seek::Stops(Found::Nothing));
    }
    if keep == asked {
        return Ok(Seek::Stops(Found::Nothing));
    }
    aside(alloc, clock, place, form, keep, path)
}

// How many first numbers two paths have in common.
fn in_common(one: &Path, other: &Path) -> usize
    ensures first { result ≤ length one.now.0 }
    ensures second { result ≤ length other.now.0 }
    ensures same { take result one.now.0 ≡ take result other.now.0 }
{
    let ones = one.0.as_slice();
    let others = other.0.as_slice();
    for keep in 0..ones.len() {
        if keep >= others.len() || ones[keep] != others[keep] {
            return keep;
        }
    }
    ones.len()
}
