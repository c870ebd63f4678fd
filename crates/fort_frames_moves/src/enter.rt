//! Into a form.
ghost use Rattle.std.specs.Prelude.{◌≡◌, IfOk, [], ◌∷◌};
ghost use Rattle.fort_core.specs.declared.term.Term.{out-Term};
ghost use Rattle.fort_machine.specs.Ends.{open_yet, standing};
ghost use Rattle.fort_machine.specs.Frames.{on};
ghost use Rattle.fort_frames.specs.Frames.{IsInOrder, Reaches, frame_of, frames, rebuilt};
ghost use Rattle.fort_frames_moves.specs.Turns.{GoesInOrder, IsTurn};
ghost use Rattle.fort_frames_moves.specs.Sweeps.{Keeps, Swept};

use crate::across::{across, enter_open_group, next_part};
use crate::leave::is_marked;
use crate::stand::{Stand, standing_of};
use crate::turn::{Ready, Stop, Turn};
use fort_base::{List, Memory, SetId, Shared};
use fort_core::Term;
use fort_frames::{At, Frame, Head, Node, Place, State, share_clauses, share_last};
use std::alloc::Global;

/// Goes into a form: to its first part, or to its step.
#[tactic(auto, using(crate::proofs::Enters::enters_by_itself, crate::proofs::Kept::kept_here))]
#[inline(never)]
pub fn enter(alloc: Global, clock: u64, place: Place, term: Shared<Term>) -> Result<Turn, Memory>
    requires { Reaches clock (frames place.stack) term }
    ensures turns { IfOk result (IsTurn clock (rebuilt clock (frames place.stack) term)) }
    ensures sweeps { IfOk result (Keeps (λ met. Swept met (frames place.stack))) }
{
    match term.get() {
        Term::Value(value) => Ok(Turn::Moves(State {
            place,
            at: At::Value(value.share()?),
        })),
        Term::Throw(thrown) => enter_throw(alloc, clock, place, thrown),
        Term::Variable(_) => Ok(Turn::Stops(Stop::Steps(place, Ready::Form(term.share()?)))),
        Term::Stepped(inner) => at_mark(alloc, clock, place, term.share()?, inner),
        Term::Fn(_) => Ok(Turn::Stops(Stop::Steps(place, Ready::Form(term.share()?)))),
        Term::Read(_) => Ok(Turn::Stops(Stop::Steps(place, Ready::Form(term.share()?)))),
        Term::While(_, _) => Ok(Turn::Stops(Stop::Steps(place, Ready::Form(term.share()?)))),
        Term::Atomic(_, _) => Ok(Turn::Stops(Stop::Tries(place, term.share()?))),
        Term::Asleep(_, _) => Ok(Turn::Stops(Stop::Tries(place, term.share()?))),
        Term::Group(parts) => {
            let parts = parts.share(alloc)?;
            enter_group(alloc, clock, place, parts)
        }
        Term::Call(set, arguments) => {
            let parts = arguments.share(alloc)?;
            across(alloc, clock, place, Head::Call(*set), parts, 0)
        }
        Term::Also(blocks) => {
            let parts = blocks.share(alloc)?;
            across(alloc, clock, place, Head::Also, parts, 0)
        }
        Term::Apply(function, argument) => {
            let parts = pair(alloc, function, argument)?;
            across(alloc, clock, place, Head::Apply, parts, 0)
        }
        Term::ForHalves(first, second) => {
            let parts = pair(alloc, first, second)?;
            across(alloc, clock, place, Head::ForHalves, parts, 0)
        }
        Term::ReduceHalves(set, first, second) => {
            let parts = pair(alloc, first, second)?;
            across(alloc, clock, place, Head::ReduceHalves(*set), parts, 0)
        }
        _ => enter_first(alloc, clock, place, term.get()),
    }
}

// A mark: round an open part of a parallel form it is that part's; elsewhere no step puts one.
#[tactic(auto, using(crate::proofs::Enters::odd_value, crate::proofs::Enters::odd_throw, crate::proofs::Kept::odd_kept))]
#[cold]
fn at_mark(
    alloc: Global,
    clock: u64,
    place: Place,
    term: Shared<Term>,
    inner: &Shared<Term>,
) -> Result<Turn, Memory>
    requires is_mark { term ≡ Term.Stepped inner.now }
    requires reached { Reaches clock (frames place.stack) term }
    ensures turns { IfOk result (IsTurn clock (rebuilt clock (frames place.stack) term)) }
    ensures sweeps { IfOk result (Keeps (λ met. Swept met (frames place.stack))) }
{
    match standing_of(inner.get()) {
        Stand::Open => at_open_mark(alloc, clock, place, term, inner),
        Stand::Value => Ok(Turn::Stops(Stop::Odd(place, term))),
        Stand::Throw => Ok(Turn::Stops(Stop::Odd(place, term))),
    }
}

#[tactic(auto, using(crate::proofs::Enters::odd_at_root, crate::proofs::Kept::odd_root))]
#[cold]
fn at_open_mark(
    alloc: Global,
    clock: u64,
    place: Place,
    term: Shared<Term>,
    inner: &Shared<Term>,
) -> Result<Turn, Memory>
    requires is_mark { term ≡ Term.Stepped inner.now }
    requires is_open { standing inner.now ≡ open_yet }
    requires reached { Reaches clock (frames place.stack) term }
    ensures turns { IfOk result (IsTurn clock (rebuilt clock (frames place.stack) term)) }
    ensures sweeps { IfOk result (Keeps (λ met. Swept met (frames place.stack))) }
{
    match place.leave(alloc)? {
        None => Ok(Turn::Stops(Stop::Odd(Place::root(alloc), term))),
        Some((frame, below)) => mark_under(alloc, clock, below, frame, term, inner),
    }
}

fn mark_under(
    alloc: Global,
    clock: u64,
    below: Place,
    frame: Frame,
    term: Shared<Term>,
    inner: &Shared<Term>,
) -> Result<Turn, Memory>
    requires is_mark { term ≡ Term.Stepped inner.now }
    requires is_open { standing inner.now ≡ open_yet }
    requires reached { Reaches clock (frame ∷ frames below.stack) term }
    ensures turns { IfOk result (IsTurn clock (rebuilt clock (frame ∷ frames below.stack) term)) }
    ensures sweeps { IfOk result (Keeps (λ met. Swept met (frame ∷ frames below.stack))) }
{
    match frame {
        Frame::Node(node) => mark_in_node(alloc, clock, below, node, term, inner),
        other => odd_in_order(alloc, clock, below, other, term, inner),
    }
}

// The mark of a node's part, or one within it.
#[tactic(auto, using(crate::proofs::Enters::odd_in_node, crate::proofs::Enters::marked_again, crate::proofs::Kept::odd_in, crate::proofs::Kept::again_kept))]
fn mark_in_node(
    alloc: Global,
    clock: u64,
    below: Place,
    node: Node,
    term: Shared<Term>,
    inner: &Shared<Term>,
) -> Result<Turn, Memory>
    requires is_mark { term ≡ Term.Stepped inner.now }
    requires is_open { standing inner.now ≡ open_yet }
    requires reached { Reaches clock (Frame.Node node ∷ frames below.stack) term }
    ensures turns { IfOk result
        (IsTurn clock (rebuilt clock (Frame.Node node ∷ frames below.stack) term)) }
    ensures sweeps { IfOk result (Keeps (λ met. Swept met (Frame.Node node ∷ frames below.stack))) }
{
    if is_marked(node.stepped, node.since, clock) {
        let place = below.enter(alloc, Frame::Node(node))?;
        return Ok(Turn::Stops(Stop::Odd(place, term)));
    }
    let Node {
        head,
        parts,
        at,
        stepped: _,
        since,
    } = node;
    let node = Node {
        head,
        parts,
        at,
        stepped: true,
        since,
    };
    Ok(Turn::Moves(State {
        place: below.enter(alloc, Frame::Node(node))?,
        at: At::Form(inner.share()?),
    }))
}

#[tactic(auto, using(crate::proofs::Enters::odd_under, crate::proofs::Kept::odd_in))]
fn odd_in_order(
    alloc: Global,
    clock: u64,
    below: Place,
    frame: Frame,
    term: Shared<Term>,
    inner: &Shared<Term>,
) -> Result<Turn, Memory>
    requires in_order { IsInOrder frame }
    requires is_mark { term ≡ Term.Stepped inner.now }
    requires reached { Reaches clock (frame ∷ frames below.stack) term }
    ensures turns { IfOk result (IsTurn clock (rebuilt clock (frame ∷ frames below.stack) term)) }
    ensures sweeps { IfOk result (Keeps (λ met. Swept met (frame ∷ frames below.stack))) }
{
    let _clock = clock;
    let _inner = inner;
    let place = below.enter(alloc, frame)?;
    Ok(Turn::Stops(Stop::Odd(place, term)))
}

// Into the first part of a form that goes from left to right.
#[inline(never)]
fn enter_first(alloc: Global, clock: u64, place: Place, term: &Term) -> Result<Turn, Memory>
    requires in_order { GoesInOrder (out-Term term.now) }
    requires reached { Reaches clock (frames place.stack) term.now }
    ensures turns { IfOk result (IsTurn clock (rebuilt clock (frames place.stack) term.now)) }
    ensures sweeps { IfOk result (Keeps (λ met. Swept met (frames place.stack))) }
{
    match term {
        Term::Operator(set, operands) => enter_operator(alloc, clock, place, *set, operands),
        Term::Fill(ty, size, value) => {
            let frame = Frame::FillSize(ty.share()?, value.share()?);
            into(alloc, clock, place, frame, size)
        }
        Term::Let(variables, first, rest) => {
            let frame = Frame::Let(variables.share()?, rest.share()?);
            into(alloc, clock, place, frame, first)
        }
        Term::Mutable(variable, ty, first, rest) => {
            let frame = Frame::Mutable(*variable, ty.share()?, rest.share()?);
            into(alloc, clock, place, frame, first)
        }
        Term::Write(slot, value) => into(alloc, clock, place, Frame::Write(*slot), value),
        Term::ReadField(object, field) => {
            into(alloc, clock, place, Frame::Field(*field), object)
        }
        Term::WriteField(object, field, value) => {
            let frame = Frame::FieldTarget(*field, value.share()?);
            into(alloc, clock, place, frame, object)
        }
        Term::ReadElement(array, index) => {
            into(alloc, clock, place, Frame::Element(index.share()?), array)
        }
        Term::WriteElement(array, index, value) => {
            let frame = Frame::ElementTarget(index.share()?, value.share()?);
            into(alloc, clock, place, frame, array)
        }
        Term::Size(array) => into(alloc, clock, place, Frame::Size, array),
        Term::Then(first, rest) => into(alloc, clock, place, Frame::Then(rest.share()?), first),
        Term::If(test, yes, no) => {
            let frame = Frame::Test(yes.share()?, no.share()?);
            into(alloc, clock, place, frame, test)
        }
        Term::Typecase(variable, subject, clauses, other) => {
            let clauses = share_clauses(alloc, clauses)?;
            let frame = Frame::Subject(*variable, clauses, other.share()?);
            into(alloc, clock, place, frame, subject)
        }
        Term::For(order, span, variable, source, body) => {
            let frame = Frame::Source(*order, *span, *variable, body.share()?);
            into(alloc, clock, place, frame, source)
        }
        Term::Reduce(order, span, set, empty, variable, source, body) => {
            let empty = empty.share()?;
            let frame = Frame::ReducedSource(*order, *span, *set, empty, *variable, body.share()?);
            into(alloc, clock, place, frame, source)
        }
        Term::Try(body, variable, clauses, last) => {
            let clauses = share_clauses(alloc, clauses)?;
            let frame = Frame::Try(*variable, clauses, share_last(last)?);
            into(alloc, clock, place, frame, body)
        }
        _ => unreachable!(),
    }
}

/// Goes into the next part of a form that goes from left to right.
#[tactic(auto, using(crate::proofs::Enters::into_order, crate::proofs::Kept::into_kept))]
pub fn into(
    alloc: Global,
    clock: u64,
    place: Place,
    frame: Frame,
    part: &Shared<Term>,
) -> Result<Turn, Memory>
    requires in_order { IsInOrder frame }
    requires reached { Reaches clock (frames place.stack) (on (frame_of frame) part.now) }
    ensures turns { IfOk result
        (IsTurn clock (rebuilt clock (frames place.stack) (on (frame_of frame) part.now))) }
    ensures sweeps { IfOk result (Keeps (λ met. Swept met (frames place.stack))) }
{
    Ok(Turn::Moves(State {
        place: place.enter(alloc, frame)?,
        at: At::Form(part.share()?),
    }))
}

#[tactic(auto, using(crate::proofs::Kept::kept_here))]
#[inline(never)]
fn enter_throw(
    alloc: Global,
    clock: u64,
    place: Place,
    thrown: &Shared<Term>,
) -> Result<Turn, Memory>
    requires { Reaches clock (frames place.stack) (Term.Throw thrown.now) }
    ensures turns { IfOk result
        (IsTurn clock (rebuilt clock (frames place.stack) (Term.Throw thrown.now))) }
    ensures sweeps { IfOk result (Keeps (λ met. Swept met (frames place.stack))) }
{
    match thrown.get() {
        Term::Value(value) => Ok(Turn::Moves(State {
            place,
            at: At::Throw(value.share()?),
        })),
        _ => into(alloc, clock, place, Frame::Throw, thrown),
    }
}

// Into a tuple that is no value.
#[tactic(auto, using(crate::proofs::Enters::group_thread, crate::proofs::Kept::opened_kept, crate::proofs::Kept::steps_kept))]
#[inline(never)]
fn enter_group(
    alloc: Global,
    clock: u64,
    place: Place,
    parts: List<Shared<Term>>,
) -> Result<Turn, Memory>
    requires { Reaches clock (frames place.stack) (Term.Group parts) }
    ensures turns { IfOk result
        (IsTurn clock (rebuilt clock (frames place.stack) (Term.Group parts))) }
    ensures sweeps { IfOk result (Keeps (λ met. Swept met (frames place.stack))) }
{
    match next_part(&parts, 0)? {
        Some(next) => enter_open_group(alloc, clock, place, parts, next),
        None => {
            let form = Shared::new(alloc, Term::Group(parts))?;
            Ok(Turn::Stops(Stop::Steps(place, Ready::Form(form))))
        }
    }
}

#[tactic(auto, using(crate::proofs::Enters::no_first, crate::proofs::Enters::first_operand, crate::proofs::Enters::no_operands, crate::proofs::Kept::kept_here))]
#[inline(never)]
fn enter_operator(
    alloc: Global,
    clock: u64,
    place: Place,
    set: SetId,
    operands: &List<Shared<Term>>,
) -> Result<Turn, Memory>
    requires { Reaches clock (frames place.stack) (Term.Operator set operands.now) }
    ensures turns { IfOk result
        (IsTurn clock (rebuilt clock (frames place.stack) (Term.Operator set operands.now))) }
    ensures sweeps { IfOk result (Keeps (λ met. Swept met (frames place.stack))) }
{
    match operands.get(0) {
        None => Ok(Turn::Stops(Stop::Steps(place, Ready::Operands(set, List::new(alloc))))),
        Some(first) => {
            let frame = Frame::Operand(set, List::new(alloc), operands.share(alloc)?);
            into(alloc, clock, place, frame, first)
        }
    }
}

// Two parts.
fn pair(
    alloc: Global,
    first: &Shared<Term>,
    second: &Shared<Term>,
) -> Result<List<Shared<Term>>, Memory>
    ensures { IfOk result (λ parts. parts ≡ first.now ∷ second.now ∷ []) }
{
    let mut parts = List::new(alloc);
    parts.push(first.share()?)?;
    parts.push(second.share()?)?;
    Ok(parts)
}
