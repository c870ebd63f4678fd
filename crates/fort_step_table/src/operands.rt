//! Operators, whose operands go from left to right.
ghost use Rattle.std.specs.Prelude.{◌≡◌, ◌+◌, ◌++◌, ◌∷◌, drop, length, map, IfOk};
ghost use Rattle.fort_core.specs.declared.program.Program.{Program as Program_};
ghost use Rattle.fort_core.specs.declared.term.Term as term_;
ghost use Rattle.fort_step_deal.specs.Deals.{act_of};
ghost use Rattle.fort_machine.specs.Acts.{after_all, calls};
ghost use Rattle.fort_machine.specs.Forms.{act};
ghost use Rattle.fort_step_table.specs.Operands.{after_values, by_operands, standing_in_order};

use fort_base::{List, Memory, SetId, Shared};
use fort_core::{Term, Value};
use fort_step_deal::Deal;
use fort_step_parts::{Stand, operator_row, standing_of, thrown_row};
use std::alloc::Global;

/// How parts stand that go from left to right.
#[derive(Drop)]
pub enum Operands {
    /// All at values.
    Values(List<Value>),
    /// The first that is no value is this throw.
    Throw(Value),
    /// The first that is no value is open.
    Open,
}

/// What an operator's form does at its next step whose operands all have come to values. The
/// chapter "Steps and costs".
#[tactic(auto, using(crate::proofs::InOrder::all_at_values))]
pub fn deal_of_operands(set: SetId, values: List<Value>) -> Deal
    ensures { (p : Program_) → act_of result ≡ act p (term_.Operator set (map term_.Value values)) }
{
    operator_row(set, values)
}

#[tactic(auto, using(crate::proofs::InOrder::by_all))]
pub(crate) fn operator(
    alloc: Global,
    set: SetId,
    operands: &List<Shared<Term>>,
) -> Result<Deal, Memory>
    ensures { IfOk result (λ deal. act_of deal ≡ after_all operands.now (calls set)) }
{
    let found = operands_from(List::new(alloc), operands, 0)?;
    calls_by(alloc, set, found)
}

// Operands that are values, one that has come to a value, and those of a list behind it.
#[tactic(auto, using(crate::proofs::InOrder::one_value_more))]
pub(crate) fn operator_at_value(
    alloc: Global,
    set: SetId,
    values: &List<Value>,
    value: &Value,
    operands: &List<Shared<Term>>,
) -> Result<Deal, Memory>
    ensures { IfOk result (λ deal. act_of deal
        ≡ after_all
        (map term_.Value values.now ++ term_.Value value.now
        ∷ drop (length values.now + 1) operands.now) (calls set)) }
{
    let mut all = share_values(alloc, values)?;
    all.push(value.share()?)?;
    let found = operands_from(all, operands, values.len() + 1)?;
    calls_by(alloc, set, found)
}

// The same values, each with one owner more.
fn share_values(alloc: Global, values: &List<Value>) -> Result<List<Value>, Memory>
    ensures { IfOk result (λ copy. copy ≡ values.now) }
{
    let mut all = List::new(alloc);
    for value in values.as_slice() {
        all.push(value.share()?)?;
    }
    Ok(all)
}

fn calls_by(alloc: Global, set: SetId, operands: Operands) -> Result<Deal, Memory>
    ensures { IfOk result (λ deal. act_of deal ≡ by_operands operands (calls set)) }
{
    match operands {
        Operands::Values(values) => Ok(operator_row(set, values)),
        Operands::Throw(thrown) => thrown_row(alloc, thrown),
        Operands::Open => Ok(Deal::Stuck),
    }
}

fn operands_from(
    values: List<Value>,
    operands: &List<Shared<Term>>,
    from: usize,
) -> Result<Operands, Memory>
    ensures { IfOk result (λ found. found
        ≡ after_values values (standing_in_order (drop from operands.now))) }
{
    let mut values = values;
    let items = operands.as_slice();
    for at in from..items.len() {
        match standing_of(items[at].get()) {
            Stand::Value(value) => values.push(value.share()?)?,
            Stand::Throw(thrown) => return Ok(Operands::Throw(thrown.share()?)),
            Stand::Open => return Ok(Operands::Open),
        }
    }
    Ok(Operands::Values(values))
}
