//! What stands round a part.
ghost use Rattle.std.specs.Prelude.{◌≡◌, IfOk};

use crate::node::Node;
use fort_base::{List, Memory, NameId, SetId, Shared, Ty};
use fort_core::{Order, Slot, Span, Term, Value};
use std::alloc::Global;

/// A form with one part left out: first the parallel forms, then those that go from left to right,
/// whose parts before the one that is left out are values.
#[derive(Drop)]
pub enum Frame {
    Node(Node),
    /// `throw _`
    Throw,
    /// `_ OP b`: the set, the values of the operands before the one that is left out, all operands.
    Operand(SetId, List<Value>, List<Shared<Term>>),
    /// `array⟦T⟧(_).fill(v)`: T, v.
    FillSize(Shared<Ty>, Shared<Term>),
    /// `array⟦T⟧(n).fill(_)`: T, n.
    FillValue(Shared<Ty>, Value),
    /// `x: T = _`: the variables, the rest.
    Let(Shared<List<(u32, Ty)>>, Shared<Term>),
    /// `var x: T := _`: the variable, T, the rest.
    Mutable(u32, Shared<Ty>, Shared<Term>),
    /// `x := _`
    Write(Slot),
    /// `_.f`
    Field(NameId),
    /// `_.f := e`: f, e.
    FieldTarget(NameId, Shared<Term>),
    /// `o.f := _`: o, f.
    FieldValue(Value, NameId),
    /// `_[i]`: i.
    Element(Shared<Term>),
    /// `a[_]`: a.
    Index(Value),
    /// `_[i] := e`: i, e.
    ElementTarget(Shared<Term>, Shared<Term>),
    /// `a[_] := e`: a, e.
    ElementIndex(Value, Shared<Term>),
    /// `a[i] := _`: a, i.
    ElementValue(Value, Value),
    /// `_.size()`
    Size,
    /// `_; b`: b.
    Then(Shared<Term>),
    /// `if _ then a else b`: a, b.
    Test(Shared<Term>, Shared<Term>),
    /// `typecase x = _ of ..`: the variable, the clauses, what is to be where none is.
    Subject(u32, List<(Shared<Term>, Shared<Ty>)>, Shared<Term>),
    /// `for x <- _ do b end`: order, span, the variable, b.
    Source(Order, Span, u32, Shared<Term>),
    /// `SUM[x <- _] b`: order, span, the operator's set, the neutral term, the variable, b.
    ReducedSource(Order, Span, SetId, Shared<Term>, u32, Shared<Term>),
    /// `try _ catch x ..`: the variable, the clauses, the `finally`.
    Try(u32, List<(Shared<Term>, Shared<Ty>)>, Option<Shared<Term>>),
}

impl Frame {
    /// The same frame, each part with one owner more; lists are made anew.
    pub fn share(&self, alloc: Global) -> Result<Frame, Memory>
        ensures { IfOk result (λ frame. frame ≡ self.now) }
    {
        match self {
            Frame::Node(node) => Ok(Frame::Node(node.share(alloc)?)),
            Frame::Throw => Ok(Frame::Throw),
            Frame::Operand(set, values, operands) => {
                let values = share_values(alloc, values)?;
                Ok(Frame::Operand(*set, values, operands.share(alloc)?))
            }
            Frame::FillSize(ty, value) => Ok(Frame::FillSize(ty.share()?, value.share()?)),
            Frame::FillValue(ty, size) => Ok(Frame::FillValue(ty.share()?, size.share()?)),
            Frame::Let(variables, rest) => Ok(Frame::Let(variables.share()?, rest.share()?)),
            Frame::Mutable(variable, ty, rest) => {
                Ok(Frame::Mutable(*variable, ty.share()?, rest.share()?))
            }
            Frame::Write(slot) => Ok(Frame::Write(*slot)),
            Frame::Field(field) => Ok(Frame::Field(*field)),
            Frame::FieldTarget(field, value) => Ok(Frame::FieldTarget(*field, value.share()?)),
            Frame::FieldValue(object, field) => Ok(Frame::FieldValue(object.share()?, *field)),
            Frame::Element(index) => Ok(Frame::Element(index.share()?)),
            Frame::Index(array) => Ok(Frame::Index(array.share()?)),
            Frame::ElementTarget(index, value) => {
                Ok(Frame::ElementTarget(index.share()?, value.share()?))
            }
            Frame::ElementIndex(array, value) => {
                Ok(Frame::ElementIndex(array.share()?, value.share()?))
            }
            Frame::ElementValue(array, index) => {
                Ok(Frame::ElementValue(array.share()?, index.share()?))
            }
            Frame::Size => Ok(Frame::Size),
            Frame::Then(rest) => Ok(Frame::Then(rest.share()?)),
            Frame::Test(yes, no) => Ok(Frame::Test(yes.share()?, no.share()?)),
            Frame::Subject(variable, clauses, other) => {
                let clauses = share_clauses(alloc, clauses)?;
                Ok(Frame::Subject(*variable, clauses, other.share()?))
            }
            Frame::Source(order, span, variable, body) => {
                Ok(Frame::Source(*order, *span, *variable, body.share()?))
            }
            Frame::ReducedSource(order, span, set, empty, variable, body) => {
                let empty = empty.share()?;
                Ok(Frame::ReducedSource(*order, *span, *set, empty, *variable, body.share()?))
            }
            Frame::Try(variable, clauses, last) => {
                let clauses = share_clauses(alloc, clauses)?;
                Ok(Frame::Try(*variable, clauses, share_last(last)?))
            }
        }
    }
}

/// The same values, each with one owner more.
pub fn share_values(alloc: Global, values: &List<Value>) -> Result<List<Value>, Memory>
    ensures { IfOk result (λ copy. copy ≡ values.now) }
{
    let mut all = List::new(alloc);
    for value in values.as_slice() {
        all.push(value.share()?)?;
    }
    Ok(all)
}

/// The same clauses, each part with one owner more.
pub fn share_clauses(
    alloc: Global,
    clauses: &List<(Shared<Term>, Shared<Ty>)>,
) -> Result<List<(Shared<Term>, Shared<Ty>)>, Memory>
    ensures { IfOk result (λ copy. copy ≡ clauses.now) }
{
    let mut all = List::new(alloc);
    for clause in clauses.as_slice() {
        all.push((clause.0.share()?, clause.1.share()?))?;
    }
    Ok(all)
}

/// The same `finally`, with one owner more.
pub fn share_last(last: &Option<Shared<Term>>) -> Result<Option<Shared<Term>>, Memory>
    ensures { IfOk result (λ copy. copy ≡ last.now) }
{
    match last {
        None => Ok(None),
        Some(term) => Ok(Some(term.share()?)),
    }
}
