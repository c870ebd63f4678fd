//! Whether a variable stands in a term.
ghost use Rattle.std.specs.Prelude.{◌≡◌};
ghost use Rattle.fort_machine.specs.Substitution.{occurs as occurs_in};
ghost use Rattle.fort_step_closed.specs.Closed.{occurs_in_all, occurs_in_clauses};

use fort_base::{List, Shared, Ty};
use fort_core::Term;

/// Whether an immutable variable stands in a term, bodies of functions included. It takes no
/// memory, and goes down the term by calls. The chapter "Substitution".
#[cycle(occurs)]
#[tactic(auto, using(crate::proofs::Bools::ors))]
pub fn occurs(term: &Term, variable: u32) -> bool
    ensures { result ≡ occurs_in variable term.now }
{
    match term {
        Term::Value(_) | Term::Read(_) => false,
        Term::Variable(other) => variable == *other,
        Term::Fn(closure) => occurs(closure.get().body.get(), variable),
        Term::Throw(part)
        | Term::Write(_, part)
        | Term::ReadField(part, _)
        | Term::Size(part)
        | Term::Atomic(_, part)
        | Term::Asleep(_, part)
        | Term::Stepped(part) => occurs(part.get(), variable),
        Term::Group(parts) | Term::Call(_, parts) | Term::Operator(_, parts) | Term::Also(parts) =>
            in_all(parts, variable),
        Term::Apply(first, second)
        | Term::Fill(_, first, second)
        | Term::Let(_, first, second)
        | Term::Mutable(_, _, first, second)
        | Term::WriteField(first, _, second)
        | Term::ReadElement(first, second)
        | Term::Then(first, second)
        | Term::While(first, second)
        | Term::For(_, _, _, first, second)
        | Term::ForHalves(first, second)
        | Term::ReduceHalves(_, first, second) => {
            occurs(first.get(), variable) || occurs(second.get(), variable)
        }
        Term::WriteElement(first, second, third)
        | Term::If(first, second, third)
        | Term::Reduce(_, _, _, first, _, second, third) => {
            occurs(first.get(), variable)
                || occurs(second.get(), variable)
                || occurs(third.get(), variable)
        }
        Term::Typecase(_, subject, clauses, other) => {
            occurs(subject.get(), variable)
                || occurs(other.get(), variable)
                || in_clauses(clauses, variable)
        }
        Term::Try(body, _, clauses, None) => {
            occurs(body.get(), variable) || in_clauses(clauses, variable)
        }
        Term::Try(body, _, clauses, Some(last)) => {
            occurs(body.get(), variable)
                || occurs(last.get(), variable)
                || in_clauses(clauses, variable)
        }
    }
}

#[cycle(occurs)]
#[tactic(auto, using(crate::proofs::Bools::ors))]
fn in_all(terms: &List<Shared<Term>>, variable: u32) -> bool
    ensures { result ≡ occurs_in_all variable terms.now }
{
    for term in terms.as_slice() {
        if occurs(term.get(), variable) {
            return true;
        }
    }
    false
}

#[cycle(occurs)]
#[tactic(auto, using(crate::proofs::Bools::ors))]
fn in_clauses(clauses: &List<(Shared<Term>, Shared<Ty>)>, variable: u32) -> bool
    ensures { result ≡ occurs_in_clauses variable clauses.now }
{
    for clause in clauses.as_slice() {
        if occurs(clause.0.get(), variable) {
            return true;
        }
    }
    false
}
