//! Whether a function holds all that it needs.
ghost use Rattle.std.specs.Prelude.{◌≡◌, IfOk};
ghost use Rattle.fort_machine.specs.Scopes.{holds_all as holds_all_of, scoped as scoped_of};
ghost use Rattle.fort_step_closed.specs.Closed.{closure_scoped, scoped_all, scoped_clauses, scoped_last};

use crate::names::{is_among, with_held, with_one, with_typed};
use fort_base::{List, Memory, Shared, Ty};
use fort_core::{Closure, Slot, Term};
use std::alloc::Global;

/// Whether a closure holds all that it needs: no variable stands in its body but its parameters,
/// what it holds, and those that are bound in the body. It goes down the body by calls. The chapter
/// "Substitution".
///
/// # Errors
///
/// `Memory` where memory is wanting.
pub fn holds_all(alloc: Global, closure: &Closure) -> Result<bool, Memory>
    ensures { IfOk result (λ holds. holds ≡ holds_all_of closure.now) }
{
    in_closure(alloc, closure, &List::new(alloc))
}

// Whether all variables of a term are bound in it or among those of a list.
#[cycle(scoped)]
#[tactic(auto, using(crate::proofs::Scoped::with_clauses))]
fn scoped(alloc: Global, term: &Term, names: &List<u32>) -> Result<bool, Memory>
    ensures { IfOk result (λ holds. holds ≡ scoped_of term.now names.now) }
{
    match term {
        Term::Value(_) => Ok(true),
        Term::Variable(variable) => Ok(is_among(*variable, names)),
        Term::Read(Slot::Variable(variable)) => Ok(is_among(*variable, names)),
        Term::Read(Slot::Location(_)) => Ok(true),
        Term::Fn(closure) => in_closure(alloc, closure.get(), names),
        Term::Throw(part)
        | Term::Write(Slot::Location(_), part)
        | Term::ReadField(part, _)
        | Term::Size(part)
        | Term::Atomic(_, part)
        | Term::Asleep(_, part)
        | Term::Stepped(part) => scoped(alloc, part.get(), names),
        Term::Write(Slot::Variable(variable), part) => {
            Ok(is_among(*variable, names) && scoped(alloc, part.get(), names)?)
        }
        Term::Group(parts) | Term::Call(_, parts) | Term::Operator(_, parts) | Term::Also(parts) =>
            in_all(alloc, parts, names),
        Term::Apply(first, second)
        | Term::Fill(_, first, second)
        | Term::WriteField(first, _, second)
        | Term::ReadElement(first, second)
        | Term::Then(first, second)
        | Term::While(first, second)
        | Term::ForHalves(first, second)
        | Term::ReduceHalves(_, first, second) => {
            Ok(scoped(alloc, first.get(), names)? && scoped(alloc, second.get(), names)?)
        }
        Term::Let(variables, first, rest) => {
            let inner = with_typed(alloc, variables.get(), names)?;
            Ok(scoped(alloc, first.get(), names)? && scoped(alloc, rest.get(), &inner)?)
        }
        Term::Mutable(variable, _, first, second) | Term::For(_, _, variable, first, second) => {
            let inner = with_one(alloc, *variable, names)?;
            Ok(scoped(alloc, first.get(), names)? && scoped(alloc, second.get(), &inner)?)
        }
        Term::WriteElement(first, second, third) | Term::If(first, second, third) => {
            Ok(
                scoped(alloc, first.get(), names)?
                    && scoped(alloc, second.get(), names)?
                    && scoped(alloc, third.get(), names)?,
            )
        }
        Term::Typecase(variable, subject, clauses, other) => {
            let inner = with_one(alloc, *variable, names)?;
            if !scoped(alloc, subject.get(), names)? {
                return Ok(false);
            }
            if !in_clauses(alloc, clauses, &inner)? {
                return Ok(false);
            }
            scoped(alloc, other.get(), &inner)
        }
        Term::Reduce(_, _, _, empty, variable, source, body) => {
            let inner = with_one(alloc, *variable, names)?;
            Ok(
                scoped(alloc, empty.get(), names)?
                    && scoped(alloc, source.get(), names)?
                    && scoped(alloc, body.get(), &inner)?,
            )
        }
        Term::Try(body, variable, clauses, last) => {
            let inner = with_one(alloc, *variable, names)?;
            if !scoped(alloc, body.get(), names)? {
                return Ok(false);
            }
            if !in_clauses(alloc, clauses, &inner)? {
                return Ok(false);
            }
            in_last(alloc, last, names)
        }
    }
}

#[cycle(scoped)]
#[tactic(auto, using(crate::proofs::Scoped::closure_scoped_is))]
fn in_closure(alloc: Global, closure: &Closure, names: &List<u32>) -> Result<bool, Memory>
    ensures { IfOk result (λ holds. holds ≡ closure_scoped closure.now names.now) }
{
    let outer = with_held(alloc, &closure.held, names)?;
    let inner = with_typed(alloc, closure.parameters.get(), &outer)?;
    scoped(alloc, closure.body.get(), &inner)
}

#[cycle(scoped)]
fn in_all(alloc: Global, terms: &List<Shared<Term>>, names: &List<u32>) -> Result<bool, Memory>
    ensures { IfOk result (λ holds. holds ≡ scoped_all terms.now names.now) }
{
    for term in terms.as_slice() {
        if !scoped(alloc, term.get(), names)? {
            return Ok(false);
        }
    }
    Ok(true)
}

#[cycle(scoped)]
#[tactic(auto, unfolding(crate::specs::Closed::scoped_clauses))]
fn in_clauses(
    alloc: Global,
    clauses: &List<(Shared<Term>, Shared<Ty>)>,
    names: &List<u32>,
) -> Result<bool, Memory>
    ensures { IfOk result (λ holds. holds ≡ scoped_clauses clauses.now names.now) }
{
    for clause in clauses.as_slice() {
        if !scoped(alloc, clause.0.get(), names)? {
            return Ok(false);
        }
    }
    Ok(true)
}

#[cycle(scoped)]
#[tactic(auto, unfolding(crate::specs::Closed::scoped_last))]
fn in_last(alloc: Global, last: &Option<Shared<Term>>, names: &List<u32>) -> Result<bool, Memory>
    ensures { IfOk result (λ holds. holds ≡ scoped_last last.now names.now) }
{
    match last {
        None => Ok(true),
        Some(term) => scoped(alloc, term.get(), names),
    }
}
