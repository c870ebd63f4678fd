//! Arrays and their elements.
ghost use Rattle.std.specs.Prelude.{◌≡◌, ℕ, ◌+◌, nat_lt, Option, Some, IfOk, if◌then◌else◌};
ghost use Rattle.fort_core.specs.declared.value.Value.{out-Value};
ghost use Rattle.fort_step_deal.specs.Deals.{act_of};
ghost use Rattle.fort_machine.specs.Acts.{Act, throwing as throwing_of};
ghost use Rattle.fort_machine.specs.Forms.{by_element, filling, reading_at, sizing, writing_at};
ghost use Rattle.fort_step_forms.specs.Rows.{element_act};

use crate::numbers::natural;
use fort_base::{Loc, Memory, Shared, Ty};
use fort_core::{Program, Term, Value};
use fort_step_deal::{Deal, Goes, Makes};
use fort_step_parts::throwing;
use std::alloc::Global;

/// A new array whose elements all have one value, or the throw of `NegativeSize`. It takes
/// constant memory, however large the array is. The chapter "Steps and costs".
///
/// # Errors
///
/// `Memory` where memory is wanting.
#[tactic(auto, using(crate::proofs::Naturals::fills))]
pub fn fill_row(
    alloc: Global,
    program: &Program,
    ty: Shared<Ty>,
    value: Value,
    size: &Value,
) -> Result<Deal, Memory>
    ensures { IfOk result (λ deal. act_of deal
        ≡ filling program.now ty value (out-Value size.now)) }
{
    match size {
        Value::Small(number) => match natural(*number) {
            None => throwing(alloc, program, program.built_in.negative_size),
            Some(count) => Ok(Deal::Makes(Makes::Array(ty, value, count))),
        },
        _ => Ok(Deal::Stuck),
    }
}

/// Where an array's element is.
#[derive(Drop)]
enum Element {
    At(Loc),
    /// The index is below 0 or not below the size.
    Outside,
    /// There is no array, or no index.
    Nowhere,
}

/// A read of an array's element, or the throw of `IndexOutOfRange`. The chapter "Steps and costs".
///
/// # Errors
///
/// `Memory` where memory is wanting, or no location can have the element's number.
pub fn read_element_row(
    alloc: Global,
    program: &Program,
    array: &Value,
    index: &Value,
) -> Result<Deal, Memory>
    ensures { IfOk result (λ deal. act_of deal
        ≡ by_element program.now (out-Value array.now) (out-Value index.now) reading_at) }
{
    match element_of(array, index)? {
        Element::At(loc) => Ok(Deal::Asks(loc, Goes::Value)),
        Element::Outside => throwing(alloc, program, program.built_in.index_out_of_range),
        Element::Nowhere => Ok(Deal::Stuck),
    }
}

/// A write to an array's element, or the throw of `IndexOutOfRange`. The chapter "Steps and
/// costs".
///
/// # Errors
///
/// `Memory` where memory is wanting, or no location can have the element's number.
pub fn write_element_row(
    alloc: Global,
    program: &Program,
    array: &Value,
    index: &Value,
    value: Value,
) -> Result<Deal, Memory>
    ensures { IfOk result (λ deal. act_of deal
        ≡ by_element program.now (out-Value array.now) (out-Value index.now)
        (λ l. writing_at l value)) }
{
    match element_of(array, index)? {
        Element::At(loc) => Ok(Deal::Sets(loc, value)),
        Element::Outside => throwing(alloc, program, program.built_in.index_out_of_range),
        Element::Nowhere => Ok(Deal::Stuck),
    }
}

#[tactic(auto, using(crate::proofs::Naturals::elements))]
fn element_of(array: &Value, index: &Value) -> Result<Element, Memory>
    ensures { IfOk result (λ found. (p : _) (f : Option ℕ → Act)
        → by_element p (out-Value array.now) (out-Value index.now) f ≡ element_act p found f) }
{
    match array {
        Value::Array(_, base, size) => match index {
            Value::Small(number) => match natural(*number) {
                None => Ok(Element::Outside),
                Some(at) => element_at(*base, *size, u64::from(at)),
            },
            _ => Ok(Element::Nowhere),
        },
        _ => Ok(Element::Nowhere),
    }
}

fn element_at(base: Loc, size: u64, at: u64) -> Result<Element, Memory>
    ensures { IfOk result (λ found. (p : _) (f : Option ℕ → Act)
        → (if nat_lt at size then f (Some (base.0 + at))
        else throwing_of p p.built_in.index_out_of_range) ≡ element_act p found f) }
{
    if at < size {
        match base.0.checked_add(at) {
            None => Err(Memory),
            Some(number) => Ok(Element::At(Loc(number))),
        }
    } else {
        Ok(Element::Outside)
    }
}

/// The number of an array's elements. The chapter "Steps and costs".
///
/// # Errors
///
/// `Memory` where memory is wanting, or the size is no ZZ32.
pub fn size_row(alloc: Global, array: &Value) -> Result<Deal, Memory>
    ensures { IfOk result (λ deal. act_of deal ≡ sizing (out-Value array.now)) }
{
    match array {
        Value::Array(_, _, size) => match i32::try_from(*size) {
            Ok(size) => {
                let size = Term::Value(Value::Small(size));
                Ok(Deal::becomes(alloc, Shared::new(alloc, size)?))
            }
            Err(_) => Err(Memory),
        },
        _ => Ok(Deal::Stuck),
    }
}
