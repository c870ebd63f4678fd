//! What a form goes on as, by what it reads or makes.
ghost use Rattle.std.specs.Prelude.{◌≡◌, List, length, replicate, IfOk};
ghost use Rattle.fort_core.specs.declared.value.Value.{Value};
ghost use Rattle.fort_step_deal.specs.Deals.{made_by as term_of, new_values as values_of};
ghost use Rattle.fort_step_deal.specs.Deals.{next_by as next_value};
ghost use Rattle.fort_machine.specs.Steps.{or_unit};

use fort_base::{List, Loc, Memory, Shared};
use fort_core::{Term, Value};
use fort_step_deal::{Goes, Makes};
use fort_step_subst::{put_location, put_value};
use std::alloc::Global;

/// The term as which a form goes on by a value that it reads.
pub fn next_by(alloc: Global, goes: Goes, value: &Value) -> Result<Shared<Term>, Memory>
    ensures { IfOk result (λ next. next ≡ next_value goes value.now) }
{
    match goes {
        Goes::Value => Shared::new(alloc, Term::Value(value.share()?)),
        Goes::Body(variable, body) => put_value(alloc, &body, variable, value),
        Goes::First(variable, body, rest) => {
            let first = put_value(alloc, &body, variable, value)?;
            Shared::new(alloc, Term::Then(first, rest))
        }
    }
}

/// How many locations are made; one where there are no values.
#[tactic(auto, using(crate::proofs::Values::as_many))]
pub fn makes_count(makes: &Makes) -> u64
    ensures { result ≡ length (or_unit (values_of makes.now)) }
{
    match makes {
        Makes::Local(_, _, _) => 1,
        Makes::Object(_, fields) => at_least_one(fields.len() as u64),
        Makes::Array(_, _, count) => at_least_one(*count as u64),
    }
}

#[tactic(auto, using(crate::proofs::Values::some_values, crate::proofs::Values::no_values))]
fn at_least_one(count: u64) -> u64
    ensures { (values : List Value) → length values ≡ count → result ≡ length (or_unit values) }
{
    if count == 0 { 1 } else { count }
}

/// The values of new locations, `()` for one where there are none.
pub fn new_values(alloc: Global, makes: &Makes) -> Result<List<Value>, Memory>
    ensures { IfOk result (λ values. values ≡ or_unit (values_of makes.now)) }
{
    let values = match makes {
        Makes::Local(value, _, _) => repeated(alloc, value, 1)?,
        Makes::Object(_, fields) => share_values(alloc, fields)?,
        Makes::Array(_, value, count) => repeated(alloc, value, *count)?,
    };
    with_unit(alloc, values)
}

// Values, or `()` where there are none.
#[tactic(auto, using(crate::proofs::Values::unit_for_none, crate::proofs::Values::same_for_some))]
fn with_unit(alloc: Global, values: List<Value>) -> Result<List<Value>, Memory>
    ensures { IfOk result (λ all. all ≡ or_unit values) }
{
    let mut all = values;
    if all.is_empty() {
        all.push(Value::unit(alloc)?)?;
    }
    Ok(all)
}

#[tactic(auto, using(crate::proofs::Values::once_more))]
fn repeated(alloc: Global, value: &Value, count: u32) -> Result<List<Value>, Memory>
    ensures { IfOk result (λ all. all ≡ replicate count value.now) }
{
    let mut all = List::new(alloc);
    for at in 0..count {
        let _at = at;
        all.push(value.share()?)?;
    }
    Ok(all)
}

/// Equal values, with one owner more for what they share.
pub fn share_values(alloc: Global, values: &List<Value>) -> Result<List<Value>, Memory>
    ensures { IfOk result (λ copy. copy ≡ values.now) }
{
    let mut all = List::new(alloc);
    for value in values.as_slice() {
        all.push(value.share()?)?;
    }
    Ok(all)
}

/// The term as which a form goes on by the first location that it made.
pub fn made_by(alloc: Global, makes: Makes, loc: Loc) -> Result<Shared<Term>, Memory>
    ensures { IfOk result (λ next. next ≡ term_of makes loc.0) }
{
    match makes {
        Makes::Local(_, variable, rest) => put_location(alloc, &rest, variable, loc),
        Makes::Object(ty, _) => Shared::new(alloc, Term::Value(Value::Object(ty, loc))),
        Makes::Array(element, _, count) => {
            Shared::new(alloc, Term::Value(Value::Array(element, loc, count as u64)))
        }
    }
}
