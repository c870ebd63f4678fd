//! Numbers, texts, and the constants of initials. The chapter "Values" of docs/TRANSLATION.md.
ghost use Rattle.std.specs.Prelude.{◌≡◌, ◌-ℤ◌, IfOk, pos};
ghost use Rattle.fort_elab_meaning.specs.Values.{constant, negative_of, number, text};

use fort_base::{Bytes, List, Memory, Shared};
use fort_core::Value;
use fort_form_typed::TypedForm;
use std::alloc::Global;

/// The greatest number that is a ZZ32.
const SMALLEST_LARGE: u64 = 2147483648;

/// The value of a number; want of memory where it is no ZZ64.
pub fn number(n: u64) -> Result<Value, Memory>
    ensures { IfOk result (λ value. value ≡ number n (pos n)) }
{
    if n < SMALLEST_LARGE {
        Ok(Value::Small(n as i32))
    } else if n <= i64::MAX as u64 {
        Ok(Value::Large(n as i64))
    } else {
        Err(Memory)
    }
}

/// The negative of a number; want of memory where that number is no ZZ64.
fn negative(n: u64) -> Result<Value, Memory>
    ensures { IfOk result (λ value. value ≡ number n (pos 0 -ℤ pos n)) }
{
    if n < SMALLEST_LARGE {
        Ok(Value::Small(0 - n as i32))
    } else if n <= i64::MAX as u64 {
        Ok(Value::Large(0 - n as i64))
    } else {
        Err(Memory)
    }
}

/// The text of a number among a component's texts, or no characters where it has none of that
/// number.
pub fn text(alloc: Global, texts: &[Bytes], n: u32) -> Result<Value, Memory>
    ensures { IfOk result (λ value. value ≡ text texts.now n) }
{
    let bytes = match texts.get(n as usize) {
        Some(bytes) => List::from_slice(alloc, bytes.as_slice())?,
        None => List::new(alloc),
    };
    Ok(Value::Text(Shared::new(alloc, bytes)?))
}

/// The value of an initial, which is a constant.
pub fn constant(alloc: Global, texts: &[Bytes], form: &TypedForm) -> Result<Value, Memory>
    ensures { IfOk result (λ value. value ≡ constant texts.now form.now) }
{
    match form {
        TypedForm::Number(_, n) => number(*n),
        TypedForm::Text(_, n) => text(alloc, texts, *n),
        TypedForm::Truth(_, truth) => Ok(Value::Truth(*truth)),
        TypedForm::Operation(_, _, operands) => negated(alloc, operands),
        _ => Value::unit(alloc),
    }
}

/// The value of `-` before a number.
fn negated(alloc: Global, operands: &List<TypedForm>) -> Result<Value, Memory>
    ensures { IfOk result (λ value. value ≡ negative_of operands.now) }
{
    match operands.as_slice() {
        [TypedForm::Number(_, n)] => negative(*n),
        _ => Value::unit(alloc),
    }
}
