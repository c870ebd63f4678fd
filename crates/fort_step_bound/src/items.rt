//! What a generator goes over.
ghost use Rattle.std.specs.Prelude.{◌≡◌, ◌+ℤ◌, pos, IfOk};
ghost use Rattle.fort_core.specs.declared.value.Value.{out-Value};
ghost use Rattle.fort_step_deal.specs.Deals.{act_of};
ghost use Rattle.fort_machine.specs.Generators.{items_at};
ghost use Rattle.fort_step_bound.specs.Items.{going, items_of, place_in};

use crate::going::went;
use fort_base::{Loc, Memory};
use fort_core::{Span, Value};
use fort_step_deal::{Deal, Goes};
use std::alloc::Global;

/// What a generator goes over: consecutive numbers, by the first and how many there are; or the
/// elements of an array, by the first location and how many there are.
#[derive(Clone, Copy)]
pub enum Items {
    Numbers(i32, u64),
    Elements(Loc, u64),
    Nothing,
}

// The items of a range or an array.
pub(crate) fn items_over(source: &Value) -> Items
    ensures { items_of result ≡ items_at (out-Value source.now) }
{
    match source {
        Value::Range(first, count) => Items::Numbers(*first, *count),
        Value::Array(_, base, size) => Items::Elements(*base, *size),
        _ => Items::Nothing,
    }
}

// The number of the first item and how many there are: all of them, or those of a part.
pub(crate) fn spanned(span: Span, items: Items) -> Option<(u64, u64)>
    ensures { result ≡ place_in span (items_of items) }
{
    match span {
        Span::Part(first, count) => Some((first, count)),
        Span::Whole => match items {
            Items::Numbers(_, count) => Some((0, count)),
            Items::Elements(_, count) => Some((0, count)),
            Items::Nothing => None,
        },
    }
}

// Goes on by the item of a number: a number is known, an element is read.
#[tactic(auto, unfolding(crate::specs::Items::going))]
pub(crate) fn by_item(alloc: Global, items: Items, at: u64, goes: Goes) -> Result<Deal, Memory>
    ensures { IfOk result (λ deal. act_of deal ≡ going (items_of items) at goes) }
{
    match items {
        Items::Numbers(first, _) => {
            let item = Value::Small(item_of(first, at)?);
            Ok(Deal::becomes(alloc, went(alloc, goes, item)?))
        }
        Items::Elements(base, _) => match base.0.checked_add(at) {
            None => Err(Memory),
            Some(number) => Ok(Deal::Asks(Loc(number), goes)),
        },
        Items::Nothing => Ok(Deal::Stuck),
    }
}

// The number of an item of a range; where no ZZ32 can be it memory is wanting, since there is no
// such range.
fn item_of(first: i32, at: u64) -> Result<i32, Memory>
    ensures { IfOk result (λ number. number ≡ first +ℤ pos at) }
{
    let at = match i64::try_from(at) {
        Ok(at) => at,
        Err(_) => return Err(Memory),
    };
    let number = match i64::from(first).checked_add(at) {
        Some(number) => number,
        None => return Err(Memory),
    };
    match i32::try_from(number) {
        Ok(number) => Ok(number),
        Err(_) => Err(Memory),
    }
}
