//! Out of a part, and into another one beside it.
ghost use Rattle.std.specs.Prelude.{◌≡◌, ◌≢◌, ◌<◌, [], ◌∷◌, ℕ, length, slice_get, slice_set, true, IfOk, Some};
ghost use Rattle.fort_machine.specs.Ends.{open_yet, standing};
ghost use Rattle.fort_machine.specs.Frames.{on, plug};
ghost use Rattle.fort_frames.specs.Frames.{IsInOrder, Reaches, frame_of, frames, is_trodden, mark_if, rebuilt};
ghost use Rattle.fort_frames.specs.Heads.{form_of, suits};
ghost use Rattle.fort_frames.specs.States.{Stands};
ghost use Rattle.fort_frames_moves.specs.Turns.{IsNext};
ghost use Rattle.fort_plain.specs.Paths.{IsBeside, IsInside, IsOpenAt, IsOut, IsOutOf, IsSought, place_out};

use crate::find::{Found, Seek};
use fort_base::{List, Memory, Shared};
use fort_core::{Path, Term};
use fort_frames::{At, Frame, Head, Node, Place, State};
use fort_frames_moves::{Next, Ready, part_at};
use std::alloc::Global;

/// Out of one frame.
#[derive(Drop)]
pub enum Out {
    /// To a form that goes from left to right.
    Form(Place, Shared<Term>),
    /// To a parallel form, by its head and its parts.
    Node(Place, Head, List<Shared<Term>>),
}

/// From an open part of a term out to the parallel form inside so many numbers, and into the part
/// of it that a path names, if that may go on.
///
/// # Errors
///
/// `Memory` where memory is wanting.
#[tactic(auto, using(crate::proofs::Outside::beside_found))]
pub fn aside(
    alloc: Global,
    clock: u64,
    place: Place,
    part: Shared<Term>,
    keep: usize,
    path: &Path,
) -> Result<Seek, Memory>
    requires inside { IsInside clock (rebuilt clock (frames place.stack) part) keep path.now place
        part }
    requires longer { keep < length path.now.0 }
    ensures { IfOk result (IsSought clock (rebuilt clock (frames place.stack) part) path.now) }
{
    let mut place = place;
    let mut part = part;
    'frames: loop {
        match leave_frame(alloc, clock, place, part)? {
            Out::Form(below, form) => {
                place = below;
                part = form;
            }
            Out::Node(below, head, parts) => {
                if below.path.0.len() == keep {
                    return into_other(alloc, clock, below, head, parts, keep, path);
                }
                part = node_form(alloc, head, parts)?;
                place = below;
            }
        }
    }
}

/// Out of the innermost frame, with the open part back in its place.
pub fn leave_frame(
    alloc: Global,
    clock: u64,
    place: Place,
    part: Shared<Term>,
) -> Result<Out, Memory>
    requires some { frames place.stack ≢ [] }
    requires is_open { standing part ≡ open_yet }
    requires reached { Reaches clock (frames place.stack) part }
    ensures inside { IfOk result (λ r. (t : _) (keep : ℕ) (path : _)
        → IsInside clock t keep path place part → IsOut clock t keep path r) }
    ensures whole { IfOk result (λ r. (t : _) → IsOpenAt clock t place part → IsOutOf clock t r) }
    ensures shorter { IfOk result (λ r. length (frames (place_out r).stack)
        < length (frames place.stack)) }
{
    match place.leave(alloc)? {
        None => unreachable!(),
        Some((frame, below)) => out_of(alloc, clock, below, frame, part),
    }
}

fn out_of(
    alloc: Global,
    clock: u64,
    below: Place,
    frame: Frame,
    part: Shared<Term>,
) -> Result<Out, Memory>
    requires is_open { standing part ≡ open_yet }
    requires reached { Reaches clock (frame ∷ frames below.stack) part }
    ensures inside { IfOk result (λ r. (t : _) (keep : ℕ) (path : _) (place : Place)
        → frames place.stack ≡ frame ∷ frames below.stack
        → IsInside clock t keep path place part → IsOut clock t keep path r) }
    ensures whole { IfOk result (λ r. (t : _) (place : Place)
        → frames place.stack ≡ frame ∷ frames below.stack → IsOpenAt clock t place part
        → IsOutOf clock t r) }
    ensures below { IfOk result (λ r. place_out r ≡ below) }
{
    match frame {
        Frame::Node(node) => {
            let (head, parts) = put_back(alloc, clock, node, part)?;
            Ok(Out::Node(below, head, parts))
        }
        other => out_in_order(alloc, clock, below, other, part),
    }
}

fn out_in_order(
    alloc: Global,
    clock: u64,
    below: Place,
    frame: Frame,
    part: Shared<Term>,
) -> Result<Out, Memory>
    requires { IsInOrder frame }
    ensures inside { IfOk result (λ r. (t : _) (keep : ℕ) (path : _) (place : Place)
        → frames place.stack ≡ frame ∷ frames below.stack
        → IsInside clock t keep path place part → IsOut clock t keep path r) }
    ensures whole { IfOk result (λ r. (t : _) (place : Place)
        → frames place.stack ≡ frame ∷ frames below.stack → IsOpenAt clock t place part
        → IsOutOf clock t r) }
    ensures below { IfOk result (λ r. place_out r ≡ below) }
{
    let _clock = clock;
    let form = frame.around(alloc, part)?;
    Ok(Out::Form(below, form))
}

// A node's parts, with an open part back in its place.
#[tactic(auto, using(crate::proofs::Outside::marked_part, crate::proofs::Outside::bare_part))]
fn put_back(
    alloc: Global,
    clock: u64,
    node: Node,
    part: Shared<Term>,
) -> Result<(Head, List<Shared<Term>>), Memory>
    requires is_open { standing part ≡ open_yet }
    ensures head { IfOk result (λ both. both.0 ≡ node.head) }
    ensures parts { IfOk result (λ both. both.1
        ≡ slice_set node.parts node.«at» (plug (mark_if (is_trodden clock node)) part)) }
{
    let Node {
        head,
        mut parts,
        at,
        stepped,
        since,
    } = node;
    if stepped || since < clock {
        parts.set(at, Shared::new(alloc, Term::Stepped(part))?);
    } else {
        parts.set(at, part);
    }
    Ok((head, parts))
}

/// A parallel form with an open part, as a term.
pub fn node_form(
    alloc: Global,
    head: Head,
    parts: List<Shared<Term>>,
) -> Result<Shared<Term>, Memory>
    requires suits { suits head parts ≡ true }
    requires is_open { standing (form_of head parts) ≡ open_yet }
    ensures { IfOk result (λ form. form ≡ form_of head parts) }
{
    match head {
        Head::Group => Shared::new(alloc, Term::Group(parts)),
        other => Ready::Node(other, parts).term(alloc),
    }
}

// Into the part of a parallel form that a path names, if it may go on.
fn into_other(
    alloc: Global,
    clock: u64,
    below: Place,
    head: Head,
    parts: List<Shared<Term>>,
    keep: usize,
    path: &Path,
) -> Result<Seek, Memory>
    requires suits { suits head parts ≡ true }
    requires beside { IsBeside clock (rebuilt clock (frames below.stack) (form_of head parts)) keep
        path.now below (form_of head parts) }
    requires here { keep ≡ length below.path.0 }
    requires longer { keep < length path.now.0 }
    ensures { IfOk result
        (IsSought clock (rebuilt clock (frames below.stack) (form_of head parts)) path.now) }
{
    match path.0.get(keep) {
        None => unreachable!(),
        Some(number) => into_part(alloc, clock, below, head, parts, keep, path, *number),
    }
}

// Into its part of a number, if that may go on.
fn into_part(
    alloc: Global,
    clock: u64,
    below: Place,
    head: Head,
    parts: List<Shared<Term>>,
    keep: usize,
    path: &Path,
    number: u32,
) -> Result<Seek, Memory>
    requires suits { suits head parts ≡ true }
    requires beside { IsBeside clock (rebuilt clock (frames below.stack) (form_of head parts)) keep
        path.now below (form_of head parts) }
    requires here { keep ≡ length below.path.0 }
    requires number { slice_get path.now.0 keep ≡ Some number }
    ensures { IfOk result
        (IsSought clock (rebuilt clock (frames below.stack) (form_of head parts)) path.now) }
{
    let _keep = keep;
    let _path = path;
    match part_at(&parts, number as usize)? {
        None => Ok(Seek::Stops(Found::Nothing)),
        Some(next) => Ok(Seek::Moves(into_next(alloc, clock, below, head, parts, next)?)),
    }
}

// Into a part that may go on.
fn into_next(
    alloc: Global,
    clock: u64,
    below: Place,
    head: Head,
    parts: List<Shared<Term>>,
    next: Next,
) -> Result<State, Memory>
    requires suits { suits head parts ≡ true }
    requires next { IsNext parts next }
    requires reached { Reaches clock (frames below.stack) (form_of head parts) }
    ensures { IfOk result
        (Stands clock (rebuilt clock (frames below.stack) (form_of head parts))) }
{
    let Next { at, part, stepped } = next;
    let node = Node {
        head,
        parts,
        at,
        stepped,
        since: clock,
    };
    let place = below.enter(alloc, Frame::Node(node))?;
    let at = At::Form(part);
    Ok(State { place, at })
}
