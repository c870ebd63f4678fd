//! Out of a part.
ghost use Rattle.std.specs.Prelude.{◌≡◌, ◌+◌, ◌∷◌, ◌++◌, ◌||◌, ◌⊎◌, nat_lt, IfOk, length};
ghost use Rattle.std.specs.Prelude.{slice_get};
ghost use Rattle.fort_machine.specs.Ends.{Finished, open_yet, standing, stepped, throw_of};
ghost use Rattle.fort_machine.specs.Frames.{on, plug};
ghost use Rattle.fort_frames.specs.Heads.{form_of};
ghost use Rattle.fort_frames.specs.Frames.{IsInOrder, Reaches, frame_of, frames, frames_of};
ghost use Rattle.fort_frames.specs.Frames.{rebuilt, mark_if};
ghost use Rattle.fort_frames_moves.specs.Turns.{IsLast, IsTurn};
ghost use Rattle.fort_frames_moves.specs.Sweeps.{IsLeft, Keeps, Swept, SweptAt};

use crate::across::across;
use crate::enter::into;
use crate::stand::{Stand, standing_of};
use crate::turn::{Ready, Stop, Turn};
use fort_base::{List, Memory, SetId, Shared};
use fort_core::{Term, Value};
use fort_frames::{At, Frame, Node, Place, State};
use std::alloc::Global;

/// Goes out of a part that came to a value, or out of the whole term.
#[tactic(auto, using(crate::proofs::Kept::kept_out))]
#[inline(never)]
pub fn leave(alloc: Global, clock: u64, place: Place, value: Value) -> Result<Turn, Memory>
    requires { Reaches clock (frames place.stack) (Term.Value value) }
    ensures turns { IfOk result
        (IsTurn clock (rebuilt clock (frames place.stack) (Term.Value value))) }
    ensures sweeps { IfOk result (Keeps (λ met. Swept met (frames place.stack))) }
{
    match place.leave(alloc)? {
        None => Ok(Turn::Stops(Stop::Ends(At::Value(value)))),
        Some((frame, below)) => leave_frame(alloc, clock, below, frame, value),
    }
}

#[tactic(auto, using(crate::proofs::Kept::kept_out))]
fn leave_frame(
    alloc: Global,
    clock: u64,
    below: Place,
    frame: Frame,
    value: Value,
) -> Result<Turn, Memory>
    requires { Reaches clock (frames below.stack)
        (plug (frames_of clock frame) (Term.Value value)) }
    ensures turns { IfOk result
        (IsTurn clock
        (rebuilt clock (frames below.stack)
        (plug (frames_of clock frame) (Term.Value value)))) }
    ensures sweeps { IfOk result (Keeps (λ met. SweptAt met frame
        × Swept met (frames below.stack))) }
{
    match frame {
        Frame::Node(node) => {
            let part = Shared::new(alloc, Term::Value(value))?;
            back(alloc, clock, below, node, part)
        }
        Frame::Throw => Ok(Turn::Moves(State {
            place: below,
            at: At::Throw(value),
        })),
        Frame::Operand(set, values, operands) => {
            next_operand(alloc, clock, below, set, values, operands, value)
        }
        Frame::FillSize(ty, part) => {
            into(alloc, clock, below, Frame::FillValue(ty, value), &part)
        }
        Frame::FieldTarget(field, part) => {
            into(alloc, clock, below, Frame::FieldValue(value, field), &part)
        }
        Frame::Element(part) => into(alloc, clock, below, Frame::Index(value), &part),
        Frame::ElementTarget(index, part) => {
            into(
                alloc,
                clock,
                below,
                Frame::ElementIndex(value, part),
                &index,
            )
        }
        Frame::ElementIndex(array, part) => {
            into(
                alloc,
                clock,
                below,
                Frame::ElementValue(array, value),
                &part,
            )
        }
        other => step_of_value(clock, below, other, value),
    }
}

// A form whose last part came to a value has its step.
#[tactic(auto, using(crate::proofs::Enters::value_ready, crate::proofs::Kept::steps_below))]
#[inline(never)]
fn step_of_value(clock: u64, below: Place, frame: Frame, value: Value) -> Result<Turn, Memory>
    requires in_order { IsInOrder frame }
    requires last { IsLast frame }
    requires reached { Reaches clock (frames below.stack)
        (plug (frames_of clock frame) (Term.Value value)) }
    ensures turns { IfOk result
        (IsTurn clock
        (rebuilt clock (frames below.stack)
        (plug (frames_of clock frame) (Term.Value value)))) }
    ensures sweeps { IfOk result (Keeps (λ met. SweptAt met frame
        × Swept met (frames below.stack))) }
{
    let _clock = clock;
    Ok(Turn::Stops(Stop::Steps(below, Ready::Value(frame, value))))
}

// One operand more is a value.
#[tactic(auto, using(crate::proofs::Enters::operands_end_thread, crate::proofs::Enters::operand_next, crate::proofs::Kept::kept_here))]
#[inline(never)]
fn next_operand(
    alloc: Global,
    clock: u64,
    below: Place,
    set: SetId,
    values: List<Value>,
    operands: List<Shared<Term>>,
    value: Value,
) -> Result<Turn, Memory>
    requires reached { Reaches clock (frames below.stack)
        (on (frame_of (Frame.Operand set values operands)) (Term.Value value)) }
    ensures turns { IfOk result
        (IsTurn clock
        (rebuilt clock (frames below.stack)
        (on (frame_of (Frame.Operand set values operands)) (Term.Value value)))) }
    ensures sweeps { IfOk result (Keeps (λ met. Swept met (frames below.stack))) }
{
    match share_at(&operands, values.len() + 1)? {
        None => {
            let mut values = values;
            values.push(value)?;
            Ok(Turn::Stops(Stop::Steps(below, Ready::Operands(set, values))))
        }
        Some(next) => {
            let mut values = values;
            values.push(value)?;
            into(
                alloc,
                clock,
                below,
                Frame::Operand(set, values, operands),
                &next,
            )
        }
    }
}

// The part of a number, where there is one.
fn share_at(parts: &List<Shared<Term>>, at: usize) -> Result<Option<Shared<Term>>, Memory>
    ensures { IfOk result (λ found. found ≡ slice_get parts.now at) }
{
    match parts.get(at) {
        None => Ok(None),
        Some(part) => Ok(Some(part.share()?)),
    }
}

/// Goes out of a part that came to a throw, or out of the whole term. A form that goes from left
/// to right has its step then.
#[tactic(auto, using(crate::proofs::Kept::kept_out))]
#[inline(never)]
pub fn fall(alloc: Global, clock: u64, place: Place, thrown: Value) -> Result<Turn, Memory>
    requires { Reaches clock (frames place.stack) (throw_of thrown) }
    ensures turns { IfOk result
        (IsTurn clock (rebuilt clock (frames place.stack) (throw_of thrown))) }
    ensures sweeps { IfOk result (Keeps (λ met. Swept met (frames place.stack))) }
{
    match place.leave(alloc)? {
        None => Ok(Turn::Stops(Stop::Ends(At::Throw(thrown)))),
        Some((frame, below)) => fall_frame(alloc, clock, below, frame, thrown),
    }
}

#[tactic(auto, using(crate::proofs::Kept::kept_out))]
fn fall_frame(
    alloc: Global,
    clock: u64,
    below: Place,
    frame: Frame,
    thrown: Value,
) -> Result<Turn, Memory>
    requires { Reaches clock (frames below.stack) (plug (frames_of clock frame) (throw_of thrown)) }
    ensures turns { IfOk result
        (IsTurn clock
        (rebuilt clock (frames below.stack) (plug (frames_of clock frame) (throw_of thrown)))) }
    ensures sweeps { IfOk result (Keeps (λ met. SweptAt met frame
        × Swept met (frames below.stack))) }
{
    match frame {
        Frame::Node(node) => {
            let value = Shared::new(alloc, Term::Value(thrown))?;
            let part = Shared::new(alloc, Term::Throw(value))?;
            back(alloc, clock, below, node, part)
        }
        other => step_of_throw(clock, below, other, thrown),
    }
}

// A form whose next part came to a throw has its step.
#[tactic(auto, using(crate::proofs::Enters::throw_ready, crate::proofs::Kept::steps_below))]
fn step_of_throw(clock: u64, below: Place, frame: Frame, thrown: Value) -> Result<Turn, Memory>
    requires in_order { IsInOrder frame }
    requires reached { Reaches clock (frames below.stack)
        (plug (frames_of clock frame) (throw_of thrown)) }
    ensures turns { IfOk result
        (IsTurn clock
        (rebuilt clock (frames below.stack) (plug (frames_of clock frame) (throw_of thrown)))) }
    ensures sweeps { IfOk result (Keeps (λ met. SweptAt met frame
        × Swept met (frames below.stack))) }
{
    let _clock = clock;
    Ok(Turn::Stops(Stop::Steps(below, Ready::Throw(frame, thrown))))
}

// A part back in its place, with its mark where it is open and has one, and on to the next part.
#[tactic(auto, using(crate::proofs::Parts::put_part, crate::proofs::Parts::reaches_back, crate::proofs::Parts::suits_back, crate::proofs::Kept::back_kept))]
#[inline(never)]
fn back(
    alloc: Global,
    clock: u64,
    below: Place,
    node: Node,
    part: Shared<Term>,
) -> Result<Turn, Memory>
    requires { Reaches clock (frames below.stack) (plug (frames_of clock (Frame.Node node)) part) }
    ensures turns { IfOk result
        (IsTurn clock
        (rebuilt clock (frames below.stack) (plug (frames_of clock (Frame.Node node)) part))) }
    ensures sweeps { IfOk result
        (Keeps (λ met. (SweptAt met (Frame.Node node) × Swept met (frames below.stack))
        × (Finished part ⊎ IsLeft met part))) }
{
    let marked = is_marked(node.stepped, node.since, clock);
    let part = if_marked(alloc, marked, part)?;
    let Node {
        head,
        mut parts,
        at,
        stepped: _,
        since: _,
    } = node;
    parts.set(at, part);
    across(alloc, clock, below, head, parts, at + 1)
}

pub(crate) fn is_marked(stepped: bool, since: u64, clock: u64) -> bool
    ensures { result ≡ (stepped || nat_lt since clock) }
{
    if stepped { true } else { since < clock }
}

// A part with its mark, where it has one.
fn if_marked(alloc: Global, marked: bool, part: Shared<Term>) -> Result<Shared<Term>, Memory>
    ensures { IfOk result (λ made. made ≡ plug (mark_if marked) part) }
{
    if marked {
        with_mark(alloc, part)
    } else {
        Ok(part)
    }
}

// A part in which a step was taken: open it is marked, finished it stands by itself.
#[tactic(auto, using(crate::proofs::Parts::marked_open, crate::proofs::Parts::marked_value, crate::proofs::Parts::marked_throw))]
fn with_mark(alloc: Global, part: Shared<Term>) -> Result<Shared<Term>, Memory>
    ensures { IfOk result (λ made. made ≡ stepped part) }
{
    match standing_of(part.get()) {
        Stand::Open => Shared::new(alloc, Term::Stepped(part)),
        Stand::Value => Ok(part),
        Stand::Throw => Ok(part),
    }
}

/// Goes out of a part that is left unfinished, with its mark where it has one, and on to what is
/// beside it; or out of the whole term.
#[tactic(auto, using(crate::proofs::Kept::kept_out))]
#[inline(never)]
pub fn left(alloc: Global, clock: u64, place: Place, term: Shared<Term>) -> Result<Turn, Memory>
    requires { Reaches clock (frames place.stack) term }
    ensures turns { IfOk result (IsTurn clock (rebuilt clock (frames place.stack) term)) }
    ensures sweeps { IfOk result (Keeps (λ met. Swept met (frames place.stack) × IsLeft met term)) }
{
    match place.leave(alloc)? {
        None => Ok(Turn::Stops(Stop::Ends(At::Left(term)))),
        Some((frame, below)) => left_frame(alloc, clock, below, frame, term),
    }
}

#[tactic(auto, using(crate::proofs::Kept::kept_out))]
fn left_frame(
    alloc: Global,
    clock: u64,
    below: Place,
    frame: Frame,
    term: Shared<Term>,
) -> Result<Turn, Memory>
    requires { Reaches clock (frames below.stack) (plug (frames_of clock frame) term) }
    ensures turns { IfOk result
        (IsTurn clock (rebuilt clock (frames below.stack) (plug (frames_of clock frame) term))) }
    ensures sweeps { IfOk result (Keeps (λ met. (SweptAt met frame × Swept met (frames below.stack))
        × IsLeft met term)) }
{
    match frame {
        Frame::Node(node) => back(alloc, clock, below, node, term),
        other => left_in_order(alloc, clock, below, other, term),
    }
}

#[tactic(auto, using(crate::proofs::Enters::left_ready, crate::proofs::Kept::left_inside))]
fn left_in_order(
    alloc: Global,
    clock: u64,
    below: Place,
    frame: Frame,
    term: Shared<Term>,
) -> Result<Turn, Memory>
    requires in_order { IsInOrder frame }
    requires reached { Reaches clock (frames below.stack) (plug (frames_of clock frame) term) }
    ensures turns { IfOk result
        (IsTurn clock (rebuilt clock (frames below.stack) (plug (frames_of clock frame) term))) }
    ensures sweeps { IfOk result (Keeps (λ met. (SweptAt met frame × Swept met (frames below.stack))
        × IsLeft met term)) }
{
    let _clock = clock;
    let form = frame.around(alloc, term)?;
    Ok(Turn::Moves(State {
        place: below,
        at: At::Left(form),
    }))
}
