//! Forms that go from left to right, taken apart at their next part.
ghost use Rattle.std.specs.Prelude.{◌≡◌, IfNone, IfOk, IfSome, MatchOption, None};
ghost use Rattle.fort_core.specs.declared.term.Term.{out-Term};
ghost use Rattle.fort_machine.specs.Ends.{standing, value_at};
ghost use Rattle.fort_machine.specs.Frames.{on};
ghost use Rattle.fort_frames.specs.Frames.{IsInOrder, frame_of};
ghost use Rattle.fort_frames_moves.specs.Turns.{IsLast};
ghost use Rattle.fort_hall_parts.specs.Forms.{IsOne};
ghost use Rattle.fort_hall_parts.specs.Parts.{GoesNowhere, IsGoing};

use crate::node::{InOrder, may_go};
use fort_base::{List, Memory, SetId, Shared};
use fort_core::{Term, Value};
use fort_frames::{Frame, share_clauses, share_last};
use std::alloc::Global;

/// The form that goes from left to right that a term is, at its next part, where that is open and
/// no mark.
///
/// # Errors
///
/// `Memory` where memory is wanting.
#[tactic(auto, using(crate::proofs::Forms::other_nowhere, crate::proofs::Forms::going_same, crate::proofs::Forms::nowhere_same))]
pub(crate) fn in_order(alloc: Global, term: &Term) -> Result<Option<InOrder>, Memory>
    ensures order { IfOk result (λ found. IfSome found (IsGoing term.now)) }
    ensures none { IfOk result (λ found. IfNone found (GoesNowhere term.now)) }
{
    match term {
        Term::Operator(set, operands) => at_operand(alloc, *set, operands),
        Term::Fill(ty, size, value) => match value_of(size.get())? {
            None => at_open(Frame::FillSize(ty.share()?, value.share()?), size),
            Some(size) => at_last(Frame::FillValue(ty.share()?, size), value),
        },
        Term::WriteField(object, field, value) => match value_of(object.get())? {
            None => at_open(Frame::FieldTarget(*field, value.share()?), object),
            Some(object) => at_last(Frame::FieldValue(object, *field), value),
        },
        Term::ReadElement(array, index) => match value_of(array.get())? {
            None => at_open(Frame::Element(index.share()?), array),
            Some(array) => at_last(Frame::Index(array), index),
        },
        Term::WriteElement(array, index, value) => at_element(array, index, value),
        Term::Throw(thrown) => at_throw(thrown),
        _ => in_one(alloc, term),
    }
}

// The same of a form with one part.
#[tactic(auto, using(crate::proofs::Forms::other_nowhere, crate::proofs::Forms::going_same, crate::proofs::Forms::nowhere_same))]
fn in_one(alloc: Global, term: &Term) -> Result<Option<InOrder>, Memory>
    requires { IsOne (out-Term term.now) }
    ensures order { IfOk result (λ found. IfSome found (IsGoing term.now)) }
    ensures none { IfOk result (λ found. IfNone found (GoesNowhere term.now)) }
{
    match term {
        Term::Let(variables, first, rest) => {
            at_last(Frame::Let(variables.share()?, rest.share()?), first)
        }
        Term::Mutable(variable, ty, first, rest) => {
            at_last(Frame::Mutable(*variable, ty.share()?, rest.share()?), first)
        }
        Term::Write(slot, value) => at_last(Frame::Write(*slot), value),
        Term::ReadField(object, field) => at_last(Frame::Field(*field), object),
        Term::Size(array) => at_last(Frame::Size, array),
        Term::Then(first, rest) => at_last(Frame::Then(rest.share()?), first),
        Term::If(test, yes, no) => at_last(Frame::Test(yes.share()?, no.share()?), test),
        Term::Typecase(variable, subject, clauses, other) => {
            let clauses = share_clauses(alloc, clauses)?;
            at_last(Frame::Subject(*variable, clauses, other.share()?), subject)
        }
        Term::For(order, span, variable, source, body) => {
            at_last(
                Frame::Source(*order, *span, *variable, body.share()?),
                source,
            )
        }
        Term::Reduce(order, span, set, empty, variable, source, body) => {
            let empty = empty.share()?;
            let body = body.share()?;
            at_last(
                Frame::ReducedSource(*order, *span, *set, empty, *variable, body),
                source,
            )
        }
        Term::Try(body, variable, clauses, last) => {
            let clauses = share_clauses(alloc, clauses)?;
            at_last(Frame::Try(*variable, clauses, share_last(last)?), body)
        }
        _ => Ok(None),
    }
}

// A call of an operator, at its first operand that is no value.
#[tactic(auto, using(crate::proofs::Forms::operand_going, crate::proofs::Forms::operand_nowhere, crate::proofs::Forms::one_more_value, crate::proofs::Forms::operands_nowhere))]
fn at_operand(
    alloc: Global,
    set: SetId,
    operands: &List<Shared<Term>>,
) -> Result<Option<InOrder>, Memory>
    ensures order { IfOk result (λ found. IfSome found (IsGoing (Term.Operator set operands.now))) }
    ensures none { IfOk result
        (λ found. IfNone found (GoesNowhere (Term.Operator set operands.now))) }
{
    let mut values = List::new(alloc);
    for operand in operands.as_slice() {
        match value_of(operand.get())? {
            Some(value) => values.push(value)?,
            None => {
                let all = operands.share(alloc)?;
                return at_open(Frame::Operand(set, values, all), operand);
            }
        }
    }
    Ok(None)
}

// The writing of an element, at its first part that is no value.
#[tactic(auto, using(crate::proofs::Forms::going_same, crate::proofs::Forms::nowhere_same))]
fn at_element(
    array: &Shared<Term>,
    index: &Shared<Term>,
    value: &Shared<Term>,
) -> Result<Option<InOrder>, Memory>
    ensures order { IfOk result
        (λ found. IfSome found (IsGoing (Term.WriteElement array.now index.now value.now))) }
    ensures none { IfOk result
        (λ found. IfNone found (GoesNowhere (Term.WriteElement array.now index.now value.now))) }
{
    match value_of(array.get())? {
        None => at_open(Frame::ElementTarget(index.share()?, value.share()?), array),
        Some(array) => match value_of(index.get())? {
            None => at_open(Frame::ElementIndex(array, value.share()?), index),
            Some(index) => at_last(Frame::ElementValue(array, index), value),
        },
    }
}

// A throw: one of a value is finished.
#[tactic(auto, using(crate::proofs::Forms::throw_nowhere))]
fn at_throw(thrown: &Shared<Term>) -> Result<Option<InOrder>, Memory>
    ensures order { IfOk result (λ found. IfSome found (IsGoing (Term.Throw thrown.now))) }
    ensures none { IfOk result (λ found. IfNone found (GoesNowhere (Term.Throw thrown.now))) }
{
    match value_of(thrown.get())? {
        None => at_open(Frame::Throw, thrown),
        Some(_value) => Ok(None),
    }
}

// The last part of a form.
#[tactic(auto, using(crate::proofs::Forms::still_open, crate::proofs::Forms::still_unmarked, crate::proofs::Forms::last_order, crate::proofs::Forms::last_nowhere))]
fn at_last(frame: Frame, part: &Shared<Term>) -> Result<Option<InOrder>, Memory>
    requires { IsLast frame }
    ensures order { IfOk result
        (λ found. IfSome found (IsGoing (on (frame_of frame) part.now))) }
    ensures none { IfOk result
        (λ found. IfNone found (GoesNowhere (on (frame_of frame) part.now))) }
{
    if may_go(part.get()) {
        let part = part.share()?;
        return Ok(Some(InOrder { frame, part }));
    }
    Ok(None)
}

// A part that is no value: it may be a throw, or a mark.
#[tactic(auto, using(crate::proofs::Forms::still_open, crate::proofs::Forms::still_unmarked, crate::proofs::Forms::open_nowhere))]
fn at_open(frame: Frame, part: &Shared<Term>) -> Result<Option<InOrder>, Memory>
    requires in_order { IsInOrder frame }
    requires no_value { value_at (standing part.now) ≡ None }
    ensures order { IfOk result
        (λ found. IfSome found (IsGoing (on (frame_of frame) part.now))) }
    ensures none { IfOk result
        (λ found. IfNone found (GoesNowhere (on (frame_of frame) part.now))) }
{
    if may_go(part.get()) {
        let part = part.share()?;
        return Ok(Some(InOrder { frame, part }));
    }
    Ok(None)
}

// The value that a term is, if it is one.
#[tactic(auto, using(crate::proofs::Forms::thrown_no_value))]
fn value_of(term: &Term) -> Result<Option<Value>, Memory>
    ensures { IfOk result (λ found. MatchOption found (value_at (standing term.now) ≡ None)
        (λ value. term.now ≡ Term.Value value)) }
{
    match term {
        Term::Value(value) => Ok(Some(value.share()?)),
        Term::Throw(_thrown) => Ok(None),
        _ => Ok(None),
    }
}
