//! A frame with a part in its place.
ghost use Rattle.std.specs.Prelude.{◌≡◌, ◌+◌, ◌∷◌, ◌++◌, IfOk, length, map, drop};
ghost use Rattle.fort_machine.specs.Frames.{on};
ghost use Rattle.fort_frames.specs.Frames.{IsInOrder, frame_of};

use crate::frame::Frame;
use fort_base::{List, Memory, SetId, Shared};
use fort_core::{Term, Value};
use std::alloc::Global;

impl Frame {
    /// The form that goes from left to right, with a part in the place that is left out.
    ///
    /// # Errors
    ///
    /// `Memory` where memory is wanting.
    pub fn around(self, alloc: Global, part: Shared<Term>) -> Result<Shared<Term>, Memory>
        requires { IsInOrder self }
        ensures { IfOk result (λ form. form ≡ on (frame_of self) part) }
    {
        let form = self.form(alloc, part)?;
        Shared::new(alloc, form)
    }

    fn form(self, alloc: Global, part: Shared<Term>) -> Result<Term, Memory>
        requires { IsInOrder self }
        ensures { IfOk result (λ form. form ≡ on (frame_of self) part) }
    {
        match self {
            Frame::Node(_) => unreachable!(),
            Frame::Throw => Ok(Term::Throw(part)),
            Frame::Operand(set, values, operands) => {
                operator(alloc, set, &values, part, &operands)
            }
            Frame::FillSize(ty, value) => Ok(Term::Fill(ty, part, value)),
            Frame::FillValue(ty, size) => Ok(Term::Fill(ty, as_term(alloc, size)?, part)),
            Frame::Let(variables, rest) => Ok(Term::Let(variables, part, rest)),
            Frame::Mutable(variable, ty, rest) => Ok(Term::Mutable(variable, ty, part, rest)),
            Frame::Write(slot) => Ok(Term::Write(slot, part)),
            Frame::Field(field) => Ok(Term::ReadField(part, field)),
            Frame::FieldTarget(field, value) => Ok(Term::WriteField(part, field, value)),
            Frame::FieldValue(object, field) => {
                Ok(Term::WriteField(as_term(alloc, object)?, field, part))
            }
            Frame::Element(index) => Ok(Term::ReadElement(part, index)),
            Frame::Index(array) => Ok(Term::ReadElement(as_term(alloc, array)?, part)),
            Frame::ElementTarget(index, value) => Ok(Term::WriteElement(part, index, value)),
            Frame::ElementIndex(array, last) => {
                Ok(Term::WriteElement(as_term(alloc, array)?, part, last))
            }
            Frame::ElementValue(array, index) => {
                let array = as_term(alloc, array)?;
                Ok(Term::WriteElement(array, as_term(alloc, index)?, part))
            }
            Frame::Size => Ok(Term::Size(part)),
            Frame::Then(rest) => Ok(Term::Then(part, rest)),
            Frame::Test(yes, no) => Ok(Term::If(part, yes, no)),
            Frame::Subject(variable, clauses, other) => {
                Ok(Term::Typecase(variable, part, clauses, other))
            }
            Frame::Source(order, span, variable, body) => {
                Ok(Term::For(order, span, variable, part, body))
            }
            Frame::ReducedSource(order, span, set, empty, variable, body) => {
                Ok(Term::Reduce(order, span, set, empty, variable, part, body))
            }
            Frame::Try(variable, clauses, last) => Ok(Term::Try(part, variable, clauses, last)),
        }
    }
}

// A value as a term.
fn as_term(alloc: Global, value: Value) -> Result<Shared<Term>, Memory>
    ensures { IfOk result (λ made. made ≡ Term.Value value) }
{
    Shared::new(alloc, Term::Value(value))
}

// An operator's form, with a part behind operands that are values.
fn operator(
    alloc: Global,
    set: SetId,
    values: &List<Value>,
    part: Shared<Term>,
    operands: &List<Shared<Term>>,
) -> Result<Term, Memory>
    ensures { IfOk result (λ form. form
        ≡ Term.Operator set
        (map Term.Value values.now ++ part ∷ drop (length values.now + 1) operands.now)) }
{
    let mut all = as_terms(alloc, values)?;
    all.push(part)?;
    let rest = rest_from(alloc, operands, values.len())?;
    all.append(rest)?;
    Ok(Term::Operator(set, all))
}

fn as_terms(alloc: Global, values: &List<Value>) -> Result<List<Shared<Term>>, Memory>
    ensures { IfOk result (λ all. all ≡ map Term.Value values.now) }
{
    let mut all = List::new(alloc);
    for item in values.as_slice() {
        all.push(as_term(alloc, item.share()?)?)?;
    }
    Ok(all)
}

// The parts behind a number.
fn rest_from(
    alloc: Global,
    parts: &List<Shared<Term>>,
    at: usize,
) -> Result<List<Shared<Term>>, Memory>
    ensures { IfOk result (λ rest. rest ≡ drop (at + 1) parts.now) }
{
    let items = parts.as_slice();
    let mut rest = List::new(alloc);
    if at < items.len() {
        for i in at + 1..items.len() {
            rest.push(items[i].share()?)?;
        }
    }
    Ok(rest)
}
