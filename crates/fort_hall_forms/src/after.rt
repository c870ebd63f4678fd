//! What a part has become once an attempt of a form in it has ended.
ghost use Rattle.std.specs.Prelude.{◌≡◌, ◌||◌, nat_lt, IfOk, IsTrue};
ghost use Rattle.fort_machine.specs.Ends.{stepped};
ghost use Rattle.fort_machine.specs.Frames.{plug, trodden};
ghost use Rattle.fort_frames.specs.Frames.{frames, frames_of, mark_if, rebuilt, Reaches};
ghost use Rattle.fort_frames.specs.Heads.{form_of, suits};
ghost use Rattle.fort_hall_forms.specs.Forms.{way};

use crate::form::AtForm;
use fort_base::{List, Memory, Shared};
use fort_core::Term;
use fort_frames::{Frame, Head, Node, Place, Stack};
use fort_frames_moves::{Ready, Stand, standing_of};
use fort_step_subst::group;
use std::alloc::Global;

/// The part with what its form has become in the form's place, and a mark on each part of a
/// parallel form on the way there. It takes time for each frame round the form, and for each part
/// of the parallel forms among them.
///
/// # Errors
///
/// `Memory` where memory is wanting.
pub fn after_form(alloc: Global, at: AtForm, becomes: Shared<Term>) -> Result<Shared<Term>, Memory>
    requires { Reaches 0 (frames at.place.stack) at.form }
    ensures { IfOk result (λ part. part ≡ plug (trodden (way at)) becomes) }
{
    let AtForm {
        place,
        form: _form,
        mode: _,
        body: _body,
        watched: _watched,
    } = at;
    let Place { stack, path: _path } = place;
    around(alloc, stack, becomes)
}

// The frames of a stack round a part in which a step was taken, put on from the inside.
fn around(alloc: Global, stack: Stack, part: Shared<Term>) -> Result<Shared<Term>, Memory>
    ensures { IfOk result (λ all. all ≡ rebuilt 1 (frames stack) part) }
{
    let mut all = part;
    let mut rest = stack;
    while let Some((frame, outer)) = rest.pop(alloc)? {
        all = on_frame(alloc, frame, all)?;
        rest = outer;
    }
    Ok(all)
}

// One frame round a part.
fn on_frame(alloc: Global, frame: Frame, part: Shared<Term>) -> Result<Shared<Term>, Memory>
    ensures { IfOk result (λ all. all ≡ plug (frames_of 1 frame) part) }
{
    match frame {
        Frame::Node(node) => on_node(alloc, node, part),
        other => other.around(alloc, part),
    }
}

// A parallel form with a part in its place, which has its mark.
#[tactic(auto, using(fort_frames_moves::proofs::Parts::put_part, fort_frames_moves::proofs::Parts::suits_back))]
fn on_node(alloc: Global, node: Node, part: Shared<Term>) -> Result<Shared<Term>, Memory>
    ensures { IfOk result (λ all. all ≡ plug (frames_of 1 (Frame.Node node)) part) }
{
    let has_mark = is_marked(node.stepped, node.since);
    let part = if_marked(alloc, has_mark, part)?;
    let Node {
        head,
        mut parts,
        at,
        stepped: _,
        since: _,
    } = node;
    parts.set(at, part);
    node_form(alloc, head, parts)
}

// Whether a part has its mark at a clock that shows 1.
fn is_marked(stepped: bool, since: u64) -> bool
    ensures { result ≡ (stepped || nat_lt since 1) }
{
    if stepped { true } else { since < 1 }
}

// A part with its mark, where it has one.
fn if_marked(alloc: Global, marked: bool, part: Shared<Term>) -> Result<Shared<Term>, Memory>
    ensures { IfOk result (λ made. made ≡ plug (mark_if marked) part) }
{
    if marked {
        with_mark(alloc, part)
    } else {
        Ok(part)
    }
}

// A part in which a step was taken: open it is marked, finished it stands by itself.
#[tactic(auto, using(fort_frames_moves::proofs::Parts::marked_open, fort_frames_moves::proofs::Parts::marked_value, fort_frames_moves::proofs::Parts::marked_throw))]
fn with_mark(alloc: Global, part: Shared<Term>) -> Result<Shared<Term>, Memory>
    ensures { IfOk result (λ made. made ≡ stepped part) }
{
    match standing_of(part.get()) {
        Stand::Open => Shared::new(alloc, Term::Stepped(part)),
        Stand::Value => Ok(part),
        Stand::Throw => Ok(part),
    }
}

// A parallel form with its parts.
fn node_form(alloc: Global, head: Head, parts: List<Shared<Term>>) -> Result<Shared<Term>, Memory>
    requires { IsTrue (suits head parts) }
    ensures { IfOk result (λ form. form ≡ form_of head parts) }
{
    match head {
        Head::Group => Shared::new(alloc, group(alloc, parts)?),
        other => Ready::Node(other, parts).term(alloc),
    }
}
