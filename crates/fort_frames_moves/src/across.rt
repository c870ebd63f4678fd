//! Across the parts of a parallel form.
ghost use Rattle.std.specs.Prelude.{◌≡◌, ◌<◌, ◌∷◌, [], false, Some, IfOk, IsTrue, length, slice_get};
ghost use Rattle.std.specs.List.{list_any};
ghost use Rattle.fort_machine.specs.Ends.{has_stepped, is_thrown as thrown_term, open_yet};
ghost use Rattle.fort_machine.specs.Ends.{standing};
ghost use Rattle.fort_frames.specs.Heads.{are_two, form_of, suits};
ghost use Rattle.fort_frames.specs.Frames.{Reaches, frames, rebuilt};
ghost use Rattle.fort_frames_moves.specs.Turns.{AllOver, IsFound, IsFoundAt, IsNext, IsTurn, raw_form};
ghost use Rattle.fort_frames_moves.specs.Sweeps.{AreMet, Keeps, Swept};

use crate::stand::{Stand, standing_of};
use crate::turn::{Ready, Stop, Turn};
use fort_base::{List, Memory, Shared};
use fort_core::Term;
use fort_frames::{At, Frame, Head, Node, Place, State};
use std::alloc::Global;

/// A part of a parallel form that may go on: its number, the part without its mark, and whether it
/// has one.
#[derive(Drop)]
pub struct Next {
    pub at: usize,
    pub part: Shared<Term>,
    pub stepped: bool,
}

/// Goes on to the next part of a parallel form from a number on that may go on, or else to the
/// form itself.
#[tactic(auto, using(crate::proofs::Kept::across_kept))]
pub fn across(
    alloc: Global,
    clock: u64,
    place: Place,
    head: Head,
    parts: List<Shared<Term>>,
    from: usize,
) -> Result<Turn, Memory>
    requires suits { IsTrue (suits head parts) }
    requires reached { Reaches clock (frames place.stack) (form_of head parts) }
    ensures turns { IfOk result
        (IsTurn clock (rebuilt clock (frames place.stack) (form_of head parts))) }
    ensures sweeps { IfOk result (Keeps (λ met. AreMet met parts from
        × Swept met (frames place.stack))) }
{
    match next_part(&parts, from)? {
        Some(next) => enter_part(alloc, clock, place, head, parts, next),
        None => gather(alloc, clock, place, head, parts),
    }
}

// The next part that may go on, from a number on.
#[tactic(auto, using(crate::proofs::Parts::over_next, crate::proofs::Parts::none_over, crate::proofs::Parts::found_at, crate::proofs::Parts::over_end))]
pub fn next_part(parts: &List<Shared<Term>>, from: usize) -> Result<Option<Next>, Memory>
    ensures { IfOk result (IsFound parts.now from) }
{
    for at in from..parts.len() {
        match part_at(parts, at)? {
            Some(next) => return Ok(Some(next)),
            None => {}
        }
    }
    Ok(None)
}

/// The part of a number, if it may go on.
///
/// # Errors
///
/// `Memory` where memory is wanting.
#[tactic(auto, using(crate::proofs::Parts::nothing_there, crate::proofs::Parts::over_value, crate::proofs::Parts::over_throw))]
pub fn part_at(parts: &List<Shared<Term>>, at: usize) -> Result<Option<Next>, Memory>
    ensures { IfOk result (IsFoundAt parts.now at) }
{
    match parts.get(at) {
        None => Ok(None),
        Some(part) => match standing_of(part.get()) {
            Stand::Value => Ok(None),
            Stand::Throw => Ok(None),
            Stand::Open => open_at(parts, at, part),
        },
    }
}

// An open part.
fn open_at(
    parts: &List<Shared<Term>>,
    at: usize,
    part: &Shared<Term>,
) -> Result<Option<Next>, Memory>
    requires own { slice_get parts.now at ≡ Some part.now }
    requires is_open { standing part.now ≡ open_yet }
    ensures { IfOk result (IsFoundAt parts.now at) }
{
    match part.get() {
        Term::Stepped(inner) => marked_at(parts, at, part, inner),
        _ => unmarked_at(parts, at, part),
    }
}

// An open part without a mark: where a part beside it is a throw it is passed over.
#[tactic(auto, using(crate::proofs::Parts::unmarked_next, crate::proofs::Parts::over_passed))]
fn unmarked_at(
    parts: &List<Shared<Term>>,
    at: usize,
    part: &Shared<Term>,
) -> Result<Option<Next>, Memory>
    requires own { slice_get parts.now at ≡ Some part.now }
    requires is_open { standing part.now ≡ open_yet }
    requires unmarked { has_stepped part.now ≡ false }
    ensures { IfOk result (IsFoundAt parts.now at) }
{
    if any_thrown(parts) {
        return Ok(None);
    }
    Ok(Some(Next {
        at,
        part: part.share()?,
        stepped: false,
    }))
}

// A part with its mark; what is inside a mark is open, or the mark stands at an odd place.
#[tactic(auto, using(crate::proofs::Parts::marked_next, crate::proofs::Parts::mark_alone_next))]
fn marked_at(
    parts: &List<Shared<Term>>,
    at: usize,
    part: &Shared<Term>,
    inner: &Shared<Term>,
) -> Result<Option<Next>, Memory>
    requires own { slice_get parts.now at ≡ Some part.now }
    requires marked { part.now ≡ Term.Stepped inner.now }
    ensures { IfOk result (IsFoundAt parts.now at) }
{
    let _parts = parts;
    match standing_of(inner.get()) {
        Stand::Open => Ok(Some(Next {
            at,
            part: inner.share()?,
            stepped: true,
        })),
        _ => Ok(Some(Next {
            at,
            part: part.share()?,
            stepped: false,
        })),
    }
}

// Whether a part is a throw.
fn any_thrown(parts: &List<Shared<Term>>) -> bool
    ensures { result ≡ list_any thrown_term parts.now }
{
    for part in parts.as_slice() {
        if is_thrown(part.get()) {
            return true;
        }
    }
    false
}

#[tactic(auto, using(crate::proofs::Parts::value_not_thrown, crate::proofs::Parts::throw_thrown, crate::proofs::Parts::open_not_thrown))]
fn is_thrown(term: &Term) -> bool
    ensures { result ≡ thrown_term term.now }
{
    match standing_of(term) {
        Stand::Throw => true,
        Stand::Value => false,
        Stand::Open => false,
    }
}

/// Goes into a part of a parallel form that may go on.
///
/// # Errors
///
/// `Memory` where memory is wanting.
#[tactic(auto, using(crate::proofs::Parts::entered, crate::proofs::Kept::entered_kept))]
pub fn enter_part(
    alloc: Global,
    clock: u64,
    place: Place,
    head: Head,
    parts: List<Shared<Term>>,
    next: Next,
) -> Result<Turn, Memory>
    requires suits { IsTrue (suits head parts) }
    requires next { IsNext parts next }
    requires reached { Reaches clock (frames place.stack) (form_of head parts) }
    ensures turns { IfOk result
        (IsTurn clock (rebuilt clock (frames place.stack) (form_of head parts))) }
    ensures sweeps { IfOk result (Keeps (λ met. AreMet met parts next.«at»
        × Swept met (frames place.stack))) }
{
    let Next { at, part, stepped } = next;
    let node = Node {
        head,
        parts,
        at,
        stepped,
        since: clock,
    };
    Ok(Turn::Moves(State {
        place: place.enter(alloc, Frame::Node(node))?,
        at: At::Form(part),
    }))
}

/// Goes into an open part of a tuple.
#[tactic(auto, using(crate::proofs::Parts::open_group))]
pub fn enter_open_group(
    alloc: Global,
    clock: u64,
    place: Place,
    parts: List<Shared<Term>>,
    next: Next,
) -> Result<Turn, Memory>
    requires next { IsNext parts next }
    requires reached { Reaches clock (frames place.stack) (Term.Group parts) }
    ensures turns { IfOk result
        (IsTurn clock (rebuilt clock (frames place.stack) (Term.Group parts))) }
    ensures sweeps { IfOk result (Keeps (λ met. AreMet met parts next.«at»
        × Swept met (frames place.stack))) }
{
    enter_part(alloc, clock, place, Head::Group, parts, next)
}

// A parallel form no further part of which may go on: it is left where one before may, else it has
// its step.
fn gather(
    alloc: Global,
    clock: u64,
    place: Place,
    head: Head,
    parts: List<Shared<Term>>,
) -> Result<Turn, Memory>
    requires suits { IsTrue (suits head parts) }
    requires reached { Reaches clock (frames place.stack) (form_of head parts) }
    ensures turns { IfOk result
        (IsTurn clock (rebuilt clock (frames place.stack) (form_of head parts))) }
    ensures sweeps { IfOk result (Keeps (λ met. AreMet met parts (length parts)
        × Swept met (frames place.stack))) }
{
    match next_part(&parts, 0)? {
        Some(next) => left_again(alloc, clock, place, head, parts, next),
        None => Ok(step_of_node(clock, place, head, parts)),
    }
}

// A parallel form whose parts are all finished or passed over.
#[tactic(auto, using(crate::proofs::Enters::node_thread, crate::proofs::Enters::gathered, crate::proofs::Kept::kept_here))]
fn step_of_node(clock: u64, place: Place, head: Head, parts: List<Shared<Term>>) -> Turn
    requires suits { IsTrue (suits head parts) }
    requires over { AllOver parts }
    requires reached { Reaches clock (frames place.stack) (form_of head parts) }
    ensures turns { IsTurn clock (rebuilt clock (frames place.stack) (form_of head parts)) result }
    ensures sweeps { Keeps (λ met. Swept met (frames place.stack)) result }
{
    let _clock = clock;
    match head {
        Head::Group => Turn::Stops(Stop::Groups(place, parts)),
        other => Turn::Stops(Stop::Steps(place, Ready::Node(other, parts))),
    }
}

// A parallel form is left, one part of which may go on.
#[tactic(auto, using(crate::proofs::Parts::left_form, crate::proofs::Kept::left_kept))]
fn left_again(
    alloc: Global,
    clock: u64,
    place: Place,
    head: Head,
    parts: List<Shared<Term>>,
    next: Next,
) -> Result<Turn, Memory>
    requires suits { IsTrue (suits head parts) }
    requires next { IsNext parts next }
    requires reached { Reaches clock (frames place.stack) (form_of head parts) }
    ensures turns { IfOk result
        (IsTurn clock (rebuilt clock (frames place.stack) (form_of head parts))) }
    ensures sweeps { IfOk result (Keeps (λ met. AreMet met parts (length parts)
        × Swept met (frames place.stack))) }
{
    let _clock = clock;
    let _next = next;
    let form = Shared::new(alloc, open_form(head, parts)?)?;
    Ok(Turn::Moves(State {
        place,
        at: At::Left(form),
    }))
}

// A parallel form as a term; a tuple stays a form.
#[tactic(auto, using(crate::proofs::Parts::raw_two))]
pub fn open_form(head: Head, parts: List<Shared<Term>>) -> Result<Term, Memory>
    requires { IsTrue (suits head parts) }
    ensures { IfOk result (λ form. form ≡ raw_form head parts) }
{
    match head {
        Head::Group => Ok(Term::Group(parts)),
        Head::Call(set) => Ok(Term::Call(set, parts)),
        Head::Also => Ok(Term::Also(parts)),
        Head::Apply => {
            let (function, argument) = two(&parts)?;
            Ok(Term::Apply(function, argument))
        }
        Head::ForHalves => {
            let (first, second) = two(&parts)?;
            Ok(Term::ForHalves(first, second))
        }
        Head::ReduceHalves(set) => {
            let (first, second) = two(&parts)?;
            Ok(Term::ReduceHalves(set, first, second))
        }
    }
}

// Both of two parts.
#[tactic(auto, using(crate::proofs::Parts::two_parts))]
fn two(parts: &List<Shared<Term>>) -> Result<(Shared<Term>, Shared<Term>), Memory>
    requires { IsTrue (are_two parts.now) }
    ensures { IfOk result (λ both. parts.now ≡ both.0 ∷ both.1 ∷ []) }
{
    let first = share_at(parts, 0)?;
    let second = share_at(parts, 1)?;
    Ok((first, second))
}

// The part of a number, which is there.
fn share_at(parts: &List<Shared<Term>>, at: usize) -> Result<Shared<Term>, Memory>
    requires { at < length parts.now }
    ensures { IfOk result (λ part. slice_get parts.now at ≡ Some part) }
{
    match parts.get(at) {
        None => unreachable!(),
        Some(part) => part.share(),
    }
}
