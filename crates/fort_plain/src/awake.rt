//! Whether all threads of a machine sleep.
ghost use Rattle.std.specs.Prelude.{◌≡◌, ◌↔◌, ℕ, IfOk, IsTrue, MatchOption, Some, []};
ghost use Rattle.fort_machine.specs.Attempts.{Sleeps};
ghost use Rattle.fort_machine.specs.Marked.{In};
ghost use Rattle.fort_machine.specs.Ends.{open_yet, standing};
ghost use Rattle.fort_frames.specs.Frames.{Reaches, frames, rebuilt};
ghost use Rattle.fort_store_effects.specs.Levels.{levels_of, seen};
ghost use Rattle.fort_frames.specs.States.{term_at};
ghost use Rattle.fort_plain.specs.Paths.{AllSleep, IsNoForm, MarksStandIn};

use crate::aside::{Out, leave_frame, node_form};
use fort_base::{List, Loc, Memory, Shared};
use fort_core::{Term, Value};
use fort_frames::{At, Place, Stack, State};
use fort_frames_moves::{Stop, moved};
use fort_step_subst::group;
use fort_walk_course::Execution;
use std::alloc::Global;

/// Whether each thread sleeps of the term that has an open form at a place.
///
/// # Errors
///
/// `Memory` where memory is wanting.
pub fn all_sleep(
    alloc: Global,
    course: &Execution,
    place: &Place,
    form: &Shared<Term>,
) -> Result<bool, Memory>
    requires is_open { standing form.now ≡ open_yet }
    requires reached { Reaches course.now.clock (frames place.now.stack) form.now }
    requires marks { MarksStandIn (rebuilt course.now.clock (frames place.now.stack) form.now) }
    ensures { IfOk result
        (AllSleep (seen (levels_of course.now.layers))
        (rebuilt course.now.clock (frames place.now.stack) form.now)) }
{
    let term = whole_term(alloc, course.clock(), place.share(alloc)?, form.share()?)?;
    sweep(alloc, course, term)
}

// The whole term round an open form.
fn whole_term(
    alloc: Global,
    clock: u64,
    place: Place,
    form: Shared<Term>,
) -> Result<Shared<Term>, Memory>
    requires is_open { standing form ≡ open_yet }
    requires reached { Reaches clock (frames place.stack) form }
    ensures { IfOk result (λ term. term ≡ rebuilt clock (frames place.stack) form) }
{
    let mut place = place;
    let mut part = form;
    'frames: loop {
        if is_root(&place) {
            return Ok(part);
        }
        match leave_frame(alloc, clock, place, part)? {
            Out::Form(below, form) => {
                place = below;
                part = form;
            }
            Out::Node(below, head, parts) => {
                part = node_form(alloc, head, parts)?;
                place = below;
            }
        }
    }
}

fn is_root(place: &Place) -> bool
    ensures { IsTrue result ↔ (frames place.now.stack ≡ []) }
{
    match &place.stack {
        Stack::Empty => true,
        Stack::Over(_) => false,
    }
}

// From the left end of a term through its threads, as long as they sleep.
fn sweep(alloc: Global, course: &Execution, term: Shared<Term>) -> Result<bool, Memory>
    requires { MarksStandIn term }
    ensures { IfOk result (AllSleep (seen (levels_of course.now.layers)) term) }
{
    let place = Place::root(alloc);
    let at = At::Form(term);
    let mut state = State { place, at };
    for _turn in 0..u64::MAX {
        match moved(alloc, course.clock(), state)? {
            Stop::Steps(_place, _ready) => return Ok(false),
            Stop::Tries(place, form) => {
                if !sleeps(course, form.get()) {
                    return Ok(false);
                }
                let at = At::Left(form);
                state = State { place, at };
            }
            Stop::Groups(place, parts) => {
                let form = Shared::new(alloc, group(alloc, parts)?)?;
                let at = At::Form(form);
                state = State { place, at };
            }
            Stop::Odd(_place, _form) => unreachable!(),
            Stop::Ends(at) => match form_left(at) {
                None => return Ok(true),
                Some(form) => {
                    let place = Place::root(alloc);
                    let at = At::Form(form);
                    state = State { place, at };
                }
            },
        }
    }
    Err(Memory)
}

// A form that is to be gone into, if one stands there.
fn form_left(at: At) -> Option<Shared<Term>>
    ensures { MatchOption result (IsNoForm «at») (λ form. term_at «at» ≡ form) }
{
    match at {
        At::Form(form) => Some(form),
        _ => None,
    }
}

/// Whether a form sleeps: each location that it watches has its value.
pub fn sleeps(course: &Execution, form: &Term) -> bool
    ensures { IsTrue result ↔ Sleeps (seen (levels_of course.now.layers)) form.now }
{
    match form {
        Term::Asleep(marks, _) => unchanged(course, marks),
        _ => false,
    }
}

fn unchanged(course: &Execution, marks: &List<(Loc, Value)>) -> bool
    ensures { IsTrue result
        ↔ ((l : ℕ) (v : Value) → In l v marks.now → seen (levels_of course.now.layers) l ≡ Some v) }
{
    for mark in marks.as_slice() {
        if !has(course, mark.0, &mark.1) {
            return false;
        }
    }
    true
}

// Whether a location has this value.
fn has(course: &Execution, loc: Loc, value: &Value) -> bool
    ensures { IsTrue result ↔ (seen (levels_of course.now.layers) loc.0 ≡ Some value.now) }
{
    match course.look(loc) {
        None => false,
        Some(found) => found.same(value),
    }
}
