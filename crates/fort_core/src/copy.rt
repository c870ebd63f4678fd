//! Copies of terms: one owner more for each part.
ghost use Rattle.std.specs.Prelude.{◌≡◌, IfOk};

use crate::copy_parts::{both, copy_clauses, copy_finally, copy_marks};
use crate::term::Term;
use fort_base::Memory;
use std::alloc::Global;

impl Term {
    /// An equal term, whose parts have one owner more each, or want of memory.
    pub fn copy(&self, alloc: Global) -> Result<Term, Memory>
        ensures { IfOk result (λ copy. copy ≡ self.now) }
    {
        match self {
            Term::Value(value) => Ok(Term::Value(value.share()?)),
            Term::Throw(thrown) => Ok(Term::Throw(thrown.share()?)),
            Term::Variable(variable) => Ok(Term::Variable(*variable)),
            Term::Group(parts) => Ok(Term::Group(parts.share(alloc)?)),
            Term::Fn(closure) => Ok(Term::Fn(closure.share()?)),
            Term::Call(set, arguments) => Ok(Term::Call(*set, arguments.share(alloc)?)),
            Term::Operator(set, operands) => Ok(Term::Operator(*set, operands.share(alloc)?)),
            Term::Apply(function, argument) => {
                let (function, argument) = both(function.share(), argument.share())?;
                Ok(Term::Apply(function, argument))
            }
            Term::Fill(ty, size, value) => {
                let parts = both(size.share(), value.share());
                let (ty, (size, value)) = both(ty.share(), parts)?;
                Ok(Term::Fill(ty, size, value))
            }
            Term::Let(variables, first, rest) => {
                let parts = both(first.share(), rest.share());
                let (variables, (first, rest)) = both(variables.share(), parts)?;
                Ok(Term::Let(variables, first, rest))
            }
            Term::Mutable(variable, ty, first, rest) => {
                let parts = both(first.share(), rest.share());
                let (ty, (first, rest)) = both(ty.share(), parts)?;
                Ok(Term::Mutable(*variable, ty, first, rest))
            }
            Term::Read(slot) => Ok(Term::Read(*slot)),
            Term::Write(slot, value) => Ok(Term::Write(*slot, value.share()?)),
            Term::ReadField(object, field) => Ok(Term::ReadField(object.share()?, *field)),
            Term::WriteField(object, field, value) => {
                let (object, value) = both(object.share(), value.share())?;
                Ok(Term::WriteField(object, *field, value))
            }
            Term::ReadElement(array, index) => {
                let (array, index) = both(array.share(), index.share())?;
                Ok(Term::ReadElement(array, index))
            }
            Term::WriteElement(array, index, value) => {
                let ((array, index), value) = both(
                    both(array.share(), index.share()),
                    value.share(),
                )?;
                Ok(Term::WriteElement(array, index, value))
            }
            Term::Size(array) => Ok(Term::Size(array.share()?)),
            Term::Then(first, rest) => {
                let (first, rest) = both(first.share(), rest.share())?;
                Ok(Term::Then(first, rest))
            }
            Term::If(test, yes, no) => {
                let ((test, yes), no) = both(both(test.share(), yes.share()), no.share())?;
                Ok(Term::If(test, yes, no))
            }
            Term::While(test, body) => {
                let (test, body) = both(test.share(), body.share())?;
                Ok(Term::While(test, body))
            }
            Term::Typecase(variable, subject, clauses, other) => {
                let parts = both(subject.share(), other.share());
                let (clauses, (subject, other)) = both(copy_clauses(alloc, clauses), parts)?;
                Ok(Term::Typecase(*variable, subject, clauses, other))
            }
            Term::For(order, span, variable, source, body) => {
                let (source, body) = both(source.share(), body.share())?;
                Ok(Term::For(*order, *span, *variable, source, body))
            }
            Term::ForHalves(first, second) => {
                let (first, second) = both(first.share(), second.share())?;
                Ok(Term::ForHalves(first, second))
            }
            Term::Reduce(order, span, set, empty, variable, source, body) => {
                let ((empty, source), body) = both(
                    both(empty.share(), source.share()),
                    body.share(),
                )?;
                Ok(Term::Reduce(*order, *span, *set, empty, *variable, source, body))
            }
            Term::ReduceHalves(set, first, second) => {
                let (first, second) = both(first.share(), second.share())?;
                Ok(Term::ReduceHalves(*set, first, second))
            }
            Term::Also(blocks) => Ok(Term::Also(blocks.share(alloc)?)),
            Term::Try(body, variable, clauses, last) => {
                let parts = both(body.share(), copy_finally(last));
                let (clauses, (body, last)) = both(copy_clauses(alloc, clauses), parts)?;
                Ok(Term::Try(body, *variable, clauses, last))
            }
            Term::Atomic(mode, body) => Ok(Term::Atomic(*mode, body.share()?)),
            Term::Asleep(marks, body) => {
                let (marks, body) = both(copy_marks(alloc, marks), body.share())?;
                Ok(Term::Asleep(marks, body))
            }
            Term::Stepped(part) => Ok(Term::Stepped(part.share()?)),
        }
    }
}
