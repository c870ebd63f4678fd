//! Forms on the way to a part, taken apart and put together again.
ghost use Rattle.std.specs.Prelude.{◌≡◌, ◌<◌, [], ◌∷◌, false, length, slice_get, IfNone, IfOk, IfSome, IsTrue, Ok, Some};
ghost use Rattle.fort_machine.specs.Ends.{has_stepped, is_still, stepped};
ghost use Rattle.fort_frames.specs.Heads.{are_two, form_of, suits};
ghost use Rattle.fort_hall_parts.specs.Parts.{GoesNowhere, HasNoPlain, IsNoNode, IsNode, IsOnward, IsPlain, LeadsNowhere};

use crate::order::in_order;
use fort_base::{List, Memory, Shared};
use fort_core::Term;
use fort_frames::{Frame, Head};
use fort_frames_moves::{Next, Stand, part_at, standing_of};
use fort_step_subst::group;
use std::alloc::Global;

/// A parallel form taken apart.
#[derive(Drop)]
pub(crate) struct ParallelForm {
    pub head: Head,
    pub parts: List<Shared<Term>>,
}

/// A form that goes from left to right, taken apart at its next part.
#[derive(Drop)]
pub(crate) struct InOrder {
    pub frame: Frame,
    pub part: Shared<Term>,
}

/// Where a way goes on.
#[derive(Drop)]
pub(crate) enum Onward {
    /// Through a form that goes from left to right, in the same thread.
    Through(InOrder),
    /// Into a part of a parallel form.
    Into(ParallelForm, Next),
}

/// Where a way from a term goes on whose first number is this: one form down. None where no way to
/// a part that may go on begins so.
///
/// # Errors
///
/// `Memory` where memory is wanting.
pub(crate) fn step_down(alloc: Global, term: &Term, number: u32) -> Result<Option<Onward>, Memory>
    ensures onward { IfOk result (λ found. IfSome found (IsOnward term.now number)) }
    ensures none { IfOk result (λ found. IfNone found (LeadsNowhere term.now number)) }
{
    match in_order(alloc, term)? {
        Some(form) => Ok(Some(Onward::Through(form))),
        None => into_part(alloc, term, number),
    }
}

// Into the part of a number, of a term that doesn't go from left to right.
#[tactic(auto, using(crate::proofs::Ways::no_node_nowhere, crate::proofs::Ways::no_plain_nowhere))]
fn into_part(alloc: Global, term: &Term, number: u32) -> Result<Option<Onward>, Memory>
    requires { GoesNowhere term.now }
    ensures onward { IfOk result (λ found. IfSome found (IsOnward term.now number)) }
    ensures none { IfOk result (λ found. IfNone found (LeadsNowhere term.now number)) }
{
    let Some(node) = parallel(alloc, term)? else {
        return Ok(None);
    };
    match plain_at(&node.parts, number as usize)? {
        None => Ok(None),
        Some(next) => Ok(Some(Onward::Into(node, next))),
    }
}

/// The parallel form that a term is, if it is one.
///
/// # Errors
///
/// `Memory` where memory is wanting.
#[tactic(auto, using(crate::proofs::Forms::other_no_node))]
pub(crate) fn parallel(alloc: Global, term: &Term) -> Result<Option<ParallelForm>, Memory>
    ensures node { IfOk result (λ found. IfSome found (IsNode term.now)) }
    ensures none { IfOk result (λ found. IfNone found (IsNoNode term.now)) }
{
    match term {
        Term::Group(parts) => some_node(Head::Group, parts.share(alloc)?),
        Term::Call(set, arguments) => some_node(Head::Call(*set), arguments.share(alloc)?),
        Term::Also(blocks) => some_node(Head::Also, blocks.share(alloc)?),
        Term::Apply(function, argument) => {
            some_node(Head::Apply, both(alloc, function, argument)?)
        }
        Term::ForHalves(first, second) => some_node(Head::ForHalves, both(alloc, first, second)?),
        Term::ReduceHalves(set, first, second) => {
            some_node(Head::ReduceHalves(*set), both(alloc, first, second)?)
        }
        _ => Ok(None),
    }
}

fn some_node(head: Head, parts: List<Shared<Term>>) -> Result<Option<ParallelForm>, Memory>
    ensures { result ≡ Ok (Some (record { head = head; parts = parts })) }
{
    Ok(Some(ParallelForm { head, parts }))
}

fn both(
    alloc: Global,
    first: &Shared<Term>,
    second: &Shared<Term>,
) -> Result<List<Shared<Term>>, Memory>
    ensures { IfOk result (λ parts. parts ≡ first.now ∷ second.now ∷ []) }
{
    let mut parts = List::new(alloc);
    parts.push(first.share()?)?;
    parts.push(second.share()?)?;
    Ok(parts)
}

/// The part of a number, without its mark, if it may go on and is no mark itself.
///
/// # Errors
///
/// `Memory` where memory is wanting.
#[tactic(auto, using(crate::proofs::Plain::no_part))]
pub(crate) fn plain_at(parts: &List<Shared<Term>>, at: usize) -> Result<Option<Next>, Memory>
    ensures plain { IfOk result
        (λ found. IfSome found (λ next. IsPlain parts.now next × (next.«at» ≡ at))) }
    ensures none { IfOk result (λ found. IfNone found (HasNoPlain parts.now at)) }
{
    match parts.get(at) {
        None => Ok(None),
        Some(part) => match part.get() {
            Term::Stepped(inner) => marked_at(parts, at, part, inner),
            _ => unmarked_at(parts, at, part),
        },
    }
}

// A part without a mark: where a part beside it is a throw it is passed over.
#[tactic(auto, using(crate::proofs::Plain::unmarked_plain, crate::proofs::Plain::over_not_plain))]
fn unmarked_at(
    parts: &List<Shared<Term>>,
    at: usize,
    part: &Shared<Term>,
) -> Result<Option<Next>, Memory>
    requires own { slice_get parts.now at ≡ Some part.now }
    requires unmarked { has_stepped part.now ≡ false }
    ensures plain { IfOk result
        (λ found. IfSome found (λ next. IsPlain parts.now next × (next.«at» ≡ at))) }
    ensures none { IfOk result (λ found. IfNone found (HasNoPlain parts.now at)) }
{
    let _part = part;
    part_at(parts, at)
}

// A part with its mark.
#[tactic(auto, using(crate::proofs::Plain::marked_plain, crate::proofs::Plain::marked_not_plain))]
fn marked_at(
    parts: &List<Shared<Term>>,
    at: usize,
    part: &Shared<Term>,
    inner: &Shared<Term>,
) -> Result<Option<Next>, Memory>
    requires own { slice_get parts.now at ≡ Some part.now }
    requires marked { part.now ≡ Term.Stepped inner.now }
    ensures plain { IfOk result
        (λ found. IfSome found (λ next. IsPlain parts.now next × (next.«at» ≡ at))) }
    ensures none { IfOk result (λ found. IfNone found (HasNoPlain parts.now at)) }
{
    let _parts = parts;
    let _part = part;
    if may_go(inner.get()) {
        let part = inner.share()?;
        return Ok(Some(Next {
            at,
            part,
            stepped: true,
        }));
    }
    Ok(None)
}

/// Whether a part is open, and no mark.
#[tactic(auto, using(crate::proofs::Forms::still_value, crate::proofs::Forms::still_throw, crate::proofs::Forms::still_by_mark))]
pub(crate) fn may_go(term: &Term) -> bool
    ensures { result ≡ is_still term.now }
{
    match standing_of(term) {
        Stand::Value => false,
        Stand::Throw => false,
        Stand::Open => !is_mark(term),
    }
}

fn is_mark(term: &Term) -> bool
    ensures { result ≡ has_stepped term.now }
{
    match term {
        Term::Stepped(_) => true,
        _ => false,
    }
}

/// A parallel form with its parts.
///
/// # Errors
///
/// `Memory` where memory is wanting.
pub(crate) fn node_form(
    alloc: Global,
    head: Head,
    parts: List<Shared<Term>>,
) -> Result<Shared<Term>, Memory>
    requires { IsTrue (suits head parts) }
    ensures { IfOk result (λ form. form ≡ form_of head parts) }
{
    match head {
        Head::Group => Shared::new(alloc, group(alloc, parts)?),
        Head::Call(set) => Shared::new(alloc, Term::Call(set, parts)),
        Head::Also => Shared::new(alloc, Term::Also(parts)),
        Head::Apply => {
            let (function, argument) = two(&parts)?;
            Shared::new(alloc, Term::Apply(function, argument))
        }
        Head::ForHalves => {
            let (first, second) = two(&parts)?;
            Shared::new(alloc, Term::ForHalves(first, second))
        }
        Head::ReduceHalves(set) => {
            let (first, second) = two(&parts)?;
            Shared::new(alloc, Term::ReduceHalves(set, first, second))
        }
    }
}

// Both of two parts.
#[tactic(auto, using(fort_frames_moves::proofs::Parts::two_parts))]
fn two(parts: &List<Shared<Term>>) -> Result<(Shared<Term>, Shared<Term>), Memory>
    requires { IsTrue (are_two parts.now) }
    ensures { IfOk result (λ both. parts.now ≡ both.0 ∷ both.1 ∷ []) }
{
    let first = share_at(parts, 0)?;
    let second = share_at(parts, 1)?;
    Ok((first, second))
}

fn share_at(parts: &List<Shared<Term>>, at: usize) -> Result<Shared<Term>, Memory>
    requires { at < length parts.now }
    ensures { IfOk result (λ part. slice_get parts.now at ≡ Some part) }
{
    match parts.get(at) {
        None => unreachable!(),
        Some(part) => part.share(),
    }
}

/// A part in which a step was taken: open it is marked, finished it stands by itself.
///
/// # Errors
///
/// `Memory` where memory is wanting.
pub(crate) fn marked(alloc: Global, part: Shared<Term>) -> Result<Shared<Term>, Memory>
    ensures { IfOk result (λ made. made ≡ stepped part) }
{
    match standing_of(part.get()) {
        Stand::Open => Shared::new(alloc, Term::Stepped(part)),
        Stand::Value => Ok(part),
        Stand::Throw => Ok(part),
    }
}
