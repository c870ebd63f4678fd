//! The forms that ask which type a value has: `typecase` and `try`.
ghost use Rattle.std.specs.Prelude.{◌≡◌, IfOk};
ghost use Rattle.fort_core.specs.declared.term.Term.{Term as TermOf};
ghost use Rattle.fort_core.specs.declared.term.Term as term_;
ghost use Rattle.fort_step_deal.specs.Deals.{act_of};
ghost use Rattle.fort_machine.specs.Acts.{becomes};
ghost use Rattle.fort_machine.specs.Ends.{throw_of};
ghost use Rattle.fort_machine.specs.Forms.{clause_for, finally_then};
ghost use Rattle.fort_machine.specs.Substitution.{substituted};
ghost use Rattle.fort_step_calls.specs.Called.{by_clause};

use fort_base::{List, Memory, Shared, Ty};
use fort_core::{Program, Term, Value};
use fort_step_deal::Deal;
use fort_step_subst::put_value;
use fort_value::has_type;
use std::alloc::Global;

/// A `typecase` of a value: the first clause whose type the value has, or what is written for all
/// others, with the value in the variable's place. The chapter "Steps and costs".
///
/// # Errors
///
/// `Memory` where memory is wanting.
pub fn typecase_row(
    alloc: Global,
    program: &Program,
    variable: u32,
    subject: &Value,
    clauses: &List<(Shared<Term>, Shared<Ty>)>,
    other: &Shared<Term>,
) -> Result<Deal, Memory>
    ensures { IfOk result (λ deal. act_of deal
        ≡ becomes
        (clause_for program.now subject.now clauses.now
        (substituted variable subject.now other.now) (substituted variable subject.now))) }
{
    match clause(program, subject, clauses) {
        None => Ok(Deal::becomes(alloc, put_value(alloc, other, variable, subject)?)),
        Some(body) => Ok(Deal::becomes(alloc, put_value(alloc, body, variable, subject)?)),
    }
}

/// A `try` of a value: the value, behind the `finally`. The chapter "Steps and costs".
///
/// # Errors
///
/// `Memory` where memory is wanting.
pub fn try_value_row(
    alloc: Global,
    value: Value,
    last: &Option<Shared<Term>>,
) -> Result<Deal, Memory>
    ensures { IfOk result (λ deal. act_of deal
        ≡ becomes (finally_then last.now (term_.Value value))) }
{
    let next = Shared::new(alloc, Term::Value(value))?;
    Ok(Deal::becomes(alloc, behind(alloc, last, next)?))
}

/// A `try` of a throw: the first clause whose type the thrown value has, with that value in the
/// variable's place, or the throw; behind the `finally`. The chapter "Steps and costs".
///
/// # Errors
///
/// `Memory` where memory is wanting.
pub fn try_throw_row(
    alloc: Global,
    program: &Program,
    variable: u32,
    clauses: &List<(Shared<Term>, Shared<Ty>)>,
    last: &Option<Shared<Term>>,
    thrown: &Value,
) -> Result<Deal, Memory>
    ensures { IfOk result (λ deal. act_of deal
        ≡ becomes
        (finally_then last.now
        (clause_for program.now thrown.now clauses.now (throw_of thrown.now)
        (substituted variable thrown.now)))) }
{
    let next = match clause(program, thrown, clauses) {
        None => throw(alloc, thrown)?,
        Some(body) => put_value(alloc, body, variable, thrown)?,
    };
    Ok(Deal::becomes(alloc, behind(alloc, last, next)?))
}

fn throw(alloc: Global, thrown: &Value) -> Result<Shared<Term>, Memory>
    ensures { IfOk result (λ term. term ≡ throw_of thrown.now) }
{
    let value = Shared::new(alloc, Term::Value(thrown.share()?))?;
    Shared::new(alloc, Term::Throw(value))
}

// A `finally` goes before what is to come.
fn behind(
    alloc: Global,
    last: &Option<Shared<Term>>,
    next: Shared<Term>,
) -> Result<Shared<Term>, Memory>
    ensures { IfOk result (λ term. term ≡ finally_then last.now next) }
{
    match last {
        None => Ok(next),
        Some(last) => Shared::new(alloc, Term::Then(last.share()?, next)),
    }
}

// The first clause whose type a value has.
fn clause<'a>(
    program: &Program,
    value: &Value,
    clauses: &'a List<(Shared<Term>, Shared<Ty>)>,
) -> Option<&'a Shared<Term>>
    ensures { (other : TermOf) (f : TermOf → TermOf)
        → clause_for program.now value.now clauses.now other f ≡ by_clause result other f }
{
    for clause in clauses.as_slice() {
        if has_type(program, value, clause.1.get()) {
            return Some(&clause.0);
        }
    }
    None
}
