//! A task's part in the term of its book.
ghost use Rattle.std.specs.Prelude.{◌≡◌, ◌<◌, ◌≤◌, ◌∷◌, length, IfNone, IfOk, IfSome};
ghost use Rattle.fort_machine.specs.Ends.{open_yet, standing};
ghost use Rattle.fort_machine.specs.Frames.{on};
ghost use Rattle.fort_frames.specs.Frames.{frame_of};
ghost use Rattle.fort_frames_moves.specs.Turns.{raw_form};
ghost use Rattle.fort_hall_law_books.specs.Puts.{IsPut};
ghost use Rattle.fort_hall_parts.specs.Parts.{IsGoing, IsNode, IsNotAt, IsPlain};

use crate::node::{InOrder, Onward, ParallelForm, marked, node_form, step_down};
use fort_base::{Memory, Shared};
use fort_core::Term;
use fort_frames_moves::Next;
use std::alloc::Global;

/// The term with what a part at a path has become in the part's place, after a step in it: each
/// part on the way has its mark. The path leads as that of `part_at` does.
///
/// `None` where another part stands there, where the part is passed over since one beside it, or
/// beside a part on the way, is a throw, where it is a mark, and where the way to it has more
/// frames than `depth`, as in `part_at`.
///
/// # Errors
///
/// `Memory` where memory is wanting.
#[cycle(put)]
#[tactic(auto, using(crate::proofs::Puts::put_here, crate::proofs::Puts::put_same, crate::proofs::Finds::not_here, crate::proofs::Finds::not_below, crate::proofs::Finds::not_onward, crate::proofs::Finds::not_same))]
pub fn put_in(
    alloc: Global,
    whole: &Shared<Term>,
    path: &[u32],
    part: &Shared<Term>,
    next: Shared<Term>,
    depth: u32,
) -> Result<Option<Shared<Term>>, Memory>
    requires { standing part.now ≡ open_yet }
    ensures put { IfOk result
        (λ found. IfSome found (IsPut whole.now path.now part.now next)) }
    ensures none { IfOk result
        (λ found. IfNone found (IsNotAt whole.now path.now part.now depth)) }
{
    let Some((number, rest)) = path.split_first() else {
        if whole.get().same(part.get()) {
            return Ok(Some(next));
        }
        return Ok(None);
    };
    if depth == 0 {
        return Ok(None);
    }
    match step_down(alloc, whole.get(), *number)? {
        None => Ok(None),
        Some(Onward::Through(form)) => put_through(alloc, form, path, part, next, depth),
        Some(Onward::Into(node, found)) => put_into(alloc, node, found, rest, part, next, depth),
    }
}

// The same of a form that goes from left to right.
#[cycle(put)]
#[tactic(auto, using(crate::proofs::Puts::put_order, crate::proofs::Finds::not_through_by))]
fn put_through(
    alloc: Global,
    form: InOrder,
    path: &[u32],
    part: &Shared<Term>,
    next: Shared<Term>,
    depth: u32,
) -> Result<Option<Shared<Term>>, Memory>
    requires open { standing part.now ≡ open_yet }
    requires deep { 1 ≤ depth }
    requires numbered { 0 < length path.now }
    requires form { IsGoing (on (frame_of form.frame) form.part) form }
    ensures put { IfOk result (λ found. IfSome found
        (IsPut (on (frame_of form.frame) form.part) path.now part.now next)) }
    ensures none { IfOk result (λ found. IfNone found
        (IsNotAt (on (frame_of form.frame) form.part) path.now part.now depth)) }
{
    let InOrder { frame, part: first } = form;
    match put_in(alloc, &first, path, part, next, depth - 1)? {
        None => Ok(None),
        Some(inside) => Ok(Some(frame.around(alloc, inside)?)),
    }
}

// The same of a parallel form, in a part of it, with the path behind the part's number.
#[cycle(put)]
#[tactic(auto, using(crate::proofs::Puts::put_node, crate::proofs::Finds::not_into))]
fn put_into(
    alloc: Global,
    node: ParallelForm,
    found: Next,
    rest: &[u32],
    part: &Shared<Term>,
    next: Shared<Term>,
    depth: u32,
) -> Result<Option<Shared<Term>>, Memory>
    requires open { standing part.now ≡ open_yet }
    requires deep { 1 ≤ depth }
    requires node { IsNode (raw_form node.head node.parts) node }
    requires found { IsPlain node.parts found }
    ensures put { IfOk result (λ all. IfSome all
        (IsPut (raw_form node.head node.parts) (found.«at» ∷ rest.now) part.now next)) }
    ensures none { IfOk result (λ all. IfNone all
        (IsNotAt (raw_form node.head node.parts) (found.«at» ∷ rest.now) part.now depth)) }
{
    let ParallelForm { head, mut parts } = node;
    match put_in(alloc, &found.part, rest, part, next, depth - 1)? {
        None => Ok(None),
        Some(inside) => {
            let made = marked(alloc, inside)?;
            parts.set(found.at, made);
            Ok(Some(node_form(alloc, head, parts)?))
        }
    }
}
