//! Locals, with values in the places of their variables.
ghost use Rattle.std.specs.Prelude.{◌≡◌, IfOk};
ghost use Rattle.fort_step_deal.specs.Deals.{act_of};
ghost use Rattle.fort_machine.specs.Forms.{binding as binding_of};
ghost use Rattle.fort_machine.specs.Substitution.{bound_to, paired as paired_of};

use fort_base::{List, Memory, Shared, Ty};
use fort_core::{Term, Value};
use fort_step_deal::Deal;
use fort_step_subst::put_all;
use std::alloc::Global;

/// A local: the rest of its block, with the value in the variable's place, or the parts of a tuple
/// in the places of several. The chapter "Steps and costs".
///
/// # Errors
///
/// `Memory` where memory is wanting.
#[tactic(auto, using(crate::proofs::Pairs::bindings))]
pub fn let_row(
    alloc: Global,
    variables: &List<(u32, Ty)>,
    value: &Value,
    rest: &Shared<Term>,
) -> Result<Deal, Memory>
    ensures { IfOk result (λ deal. act_of deal
        ≡ binding_of (bound_to variables.now value.now) rest.now) }
{
    match bound(alloc, variables, value)? {
        None => Ok(Deal::Stuck),
        Some(pairs) => Ok(Deal::becomes(alloc, put_all(alloc, rest, &pairs)?)),
    }
}

/// Variables with a value: one has the value, several have the parts of the tuple; `None` where
/// there aren't as many. The chapter "Substitution".
///
/// # Errors
///
/// `Memory` where memory is wanting.
pub fn bound(
    alloc: Global,
    variables: &List<(u32, Ty)>,
    value: &Value,
) -> Result<Option<List<(u32, Value)>>, Memory>
    ensures { IfOk result (λ found. found ≡ bound_to variables.now value.now) }
{
    let items = variables.as_slice();
    if items.len() == 1 {
        let mut one = List::new(alloc);
        one.push((items[0].0, value.share()?))?;
        return Ok(Some(one));
    }
    match value {
        Value::Tuple(parts) => paired(alloc, variables, parts.get()),
        _ => Ok(None),
    }
}

fn paired(
    alloc: Global,
    variables: &List<(u32, Ty)>,
    values: &List<Value>,
) -> Result<Option<List<(u32, Value)>>, Memory>
    ensures { IfOk result (λ found. found ≡ paired_of variables.now values.now) }
{
    let left = variables.as_slice();
    let right = values.as_slice();
    if left.len() != right.len() {
        return Ok(None);
    }
    let mut all = List::new(alloc);
    for i in 0..left.len() {
        all.push((left[i].0, right[i].share()?))?;
    }
    Ok(Some(all))
}
