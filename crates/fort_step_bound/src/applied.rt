//! The application of a function value.
ghost use Rattle.std.specs.Prelude.{◌≡◌, [], ◌∷◌, IfOk};
ghost use Rattle.fort_core.specs.declared.value.Value.{out-Value};
ghost use Rattle.fort_step_deal.specs.Deals.{act_of};
ghost use Rattle.fort_machine.specs.Acts.{once_all};
ghost use Rattle.fort_machine.specs.Forms.{applying, applying_to, entering};
ghost use Rattle.fort_machine.specs.Substitution.{bound_to};
ghost use Rattle.fort_step_parts.specs.Gathering.{by_parts};

use crate::binding::bound;
use fort_base::{List, Memory, Shared};
use fort_core::{Closure, Term, Value};
use fort_step_deal::Deal;
use fort_step_parts::{AllParts, both, thrown_row};
use fort_step_subst::put_all;
use std::alloc::Global;

/// A function value and its argument: the body with the argument and what the function holds in
/// the places of their variables, or the leftmost throw. The chapter "Steps and costs".
///
/// # Errors
///
/// `Memory` where memory is wanting.
pub fn apply_row(
    alloc: Global,
    function: &Shared<Term>,
    argument: &Shared<Term>,
) -> Result<Deal, Memory>
    ensures { IfOk result (λ deal. act_of deal
        ≡ once_all (function.now ∷ argument.now ∷ []) (λ vs. applying vs)) }
{
    applies_by(alloc, both(alloc, function, argument)?)
}

fn applies_by(alloc: Global, parts: AllParts) -> Result<Deal, Memory>
    ensures { IfOk result (λ deal. act_of deal ≡ by_parts parts (λ vs. applying vs)) }
{
    match parts {
        AllParts::Values(values) => applied(alloc, &values),
        AllParts::Throw(thrown) => thrown_row(alloc, thrown),
        AllParts::Still => Ok(Deal::Stuck),
        AllParts::Open => Ok(Deal::Stuck),
    }
}

#[tactic(auto, using(crate::proofs::TwoValues::applies))]
fn applied(alloc: Global, values: &List<Value>) -> Result<Deal, Memory>
    ensures { IfOk result (λ deal. act_of deal ≡ applying values.now) }
{
    let items = values.as_slice();
    if items.len() != 2 {
        return Ok(Deal::Stuck);
    }
    applied_to(alloc, &items[0], &items[1])
}

fn applied_to(alloc: Global, function: &Value, argument: &Value) -> Result<Deal, Memory>
    ensures { IfOk result (λ deal. act_of deal
        ≡ applying_to (out-Value function.now) argument.now) }
{
    match function {
        Value::Function(closure) => entered(alloc, closure.get(), argument),
        _ => Ok(Deal::Stuck),
    }
}

#[tactic(auto, using(crate::proofs::Pairs::enterings))]
fn entered(alloc: Global, closure: &Closure, argument: &Value) -> Result<Deal, Memory>
    ensures { IfOk result (λ deal. act_of deal
        ≡ entering closure.now (bound_to closure.now.parameters argument.now)) }
{
    match bound(alloc, closure.parameters.get(), argument)? {
        None => Ok(Deal::Stuck),
        Some(mut pairs) => {
            pairs.append(shared_held(alloc, &closure.held)?)?;
            let next = put_all(alloc, &closure.body, &pairs)?;
            Ok(Deal::Enters(closure.body.share()?, next))
        }
    }
}

fn shared_held(alloc: Global, held: &List<(u32, Value)>) -> Result<List<(u32, Value)>, Memory>
    ensures { IfOk result (λ all. all ≡ held.now) }
{
    let mut all = List::new(alloc);
    for pair in held.as_slice() {
        all.push((pair.0, pair.1.share()?))?;
    }
    Ok(all)
}
