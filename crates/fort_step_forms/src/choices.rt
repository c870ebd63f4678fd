//! Blocks, `if` and `while`.
ghost use Rattle.std.specs.Prelude.{◌≡◌, IfOk};
ghost use Rattle.fort_core.specs.declared.value.Value.{out-Value};
ghost use Rattle.fort_step_deal.specs.Deals.{act_of};
ghost use Rattle.fort_machine.specs.Acts.{becomes, unit};
ghost use Rattle.fort_machine.specs.Forms.{choosing};

use fort_base::{Memory, Shared};
use fort_core::{Term, Value};
use fort_step_deal::Deal;
use std::alloc::Global;

/// A block whose first part is a value goes on as its rest. The chapter "Steps and costs".
pub fn then_row(alloc: Global, rest: Shared<Term>) -> Deal
    ensures { act_of result ≡ becomes rest }
{
    Deal::becomes(alloc, rest)
}

/// An `if` of a truth goes on as one of its two parts. The chapter "Steps and costs".
///
/// # Errors
///
/// `Memory` where a part has too many owners.
pub fn if_row(
    alloc: Global,
    test: &Value,
    yes: &Shared<Term>,
    no: &Shared<Term>,
) -> Result<Deal, Memory>
    ensures { IfOk result (λ deal. act_of deal ≡ choosing (out-Value test.now) yes.now no.now) }
{
    match test {
        Value::Truth(true) => Ok(Deal::becomes(alloc, yes.share()?)),
        Value::Truth(false) => Ok(Deal::becomes(alloc, no.share()?)),
        _ => Ok(Deal::Stuck),
    }
}

/// A `while`, itself `whole`, goes on as the `if` that runs its body once more. The chapter "Steps
/// and costs".
///
/// # Errors
///
/// `Memory` where memory is wanting.
pub fn while_row(
    alloc: Global,
    whole: &Shared<Term>,
    test: &Shared<Term>,
    body: &Shared<Term>,
) -> Result<Deal, Memory>
    requires { whole.now ≡ Term.While test.now body.now }
    ensures { IfOk result (λ deal. act_of deal
        ≡ becomes
        (Term.If test.now (Term.Then body.now (Term.While test.now body.now))
        (Term.Value unit))) }
{
    let again = Shared::new(alloc, Term::Then(body.share()?, whole.share()?))?;
    let other = Shared::new(alloc, Term::Value(Value::unit(alloc)?))?;
    let next = Term::If(test.share()?, again, other);
    Ok(Deal::becomes(alloc, Shared::new(alloc, next)?))
}
