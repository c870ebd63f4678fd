//! The prelude's types in a program's tables.
ghost use Rattle.std.specs.Prelude.{◌≡◌, ◌==◌, ℕ, true, false, IsTrue, IfOk, Some, slice_get, unwrap_or};
ghost use Rattle.fort_types.specs.Table.{is_set};
ghost use Rattle.fort_machine.specs.Acts.{single};
ghost use Rattle.fort_core.specs.declared.value.Value.{Object};
ghost use Rattle.fort_threads_law_tables.specs.Tabled.{HasConstant, HasFields, IsField, StandsAlone};
ghost use Rattle.fort_sound_tables.specs.Numbers.{names};
ghost use Rattle.fort_sound_tables.specs.Threads.{HasException, StandTypes};

use crate::numbers::{Fields, Numbers};
use fort_base::{List, Memory, NameId, TypeId};
use fort_core::{CoreField, CoreKind, Program, Value};
use fort_types::set_at;
use std::alloc::Global;

// Whether a field has a name and no constant.
fn is_field(field: &CoreField, name: NameId) -> bool
    ensures { IsTrue result → IsField field.now name }
{
    field.name.0 == name.0 && field.initial.is_none()
}

// Whether a field has a name and a constant.
fn has_constant(field: &CoreField, name: NameId, value: &Value) -> bool
    ensures { IsTrue result → HasConstant field.now name value.now }
{
    match &field.initial {
        None => false,
        Some(found) => field.name.0 == name.0 && found.same(value),
    }
}

// Whether the names of fields differ.
fn differ(fields: &Fields) -> bool
    ensures { IsTrue result → ((fields.now.body.0 == fields.now.state.0) ≡ false)
        × ((fields.now.body.0 == fields.now.value.0) ≡ false)
        × ((fields.now.body.0 == fields.now.next.0) ≡ false)
        × ((fields.now.state.0 == fields.now.value.0) ≡ false)
        × ((fields.now.state.0 == fields.now.next.0) ≡ false)
        × ((fields.now.value.0 == fields.now.next.0) ≡ false) }
{
    fields.body.0 != fields.state.0
        && fields.body.0 != fields.value.0
        && fields.body.0 != fields.next.0
        && fields.state.0 != fields.value.0
        && fields.state.0 != fields.next.0
        && fields.value.0 != fields.next.0
}

// Whether the mark, the value and the link of `Thread'` have their constants.
fn hold(
    fields: &Fields,
    state: &CoreField,
    value: &CoreField,
    next: &CoreField,
    zero: &Value,
    unit: &Value,
) -> bool
    ensures state { IsTrue result → HasConstant state.now fields.now.state zero.now }
    ensures value { IsTrue result → HasConstant value.now fields.now.value unit.now }
    ensures next { IsTrue result → HasConstant next.now fields.now.next unit.now }
{
    has_constant(state, fields.state, zero)
        && has_constant(value, fields.value, unit)
        && has_constant(next, fields.next, unit)
}

// Whether `Thread'` has its four fields.
fn has_fields(alloc: Global, program: &Program, x: &Numbers) -> Result<bool, Memory>
    ensures { IfOk result (λ has. IsTrue has → HasFields program.now (names x.now)) }
{
    let unit = Value::unit(alloc)?;
    let zero = Value::Small(0);
    let Some(shape) = program.shapes.get(x.types.thread.0 as usize) else {
        return Ok(false);
    };
    if !differ(&x.fields) {
        return Ok(false);
    }
    match shape.fields.as_slice() {
        [body, state, value, next] => {
            Ok(is_field(body, x.fields.body) && hold(&x.fields, state, value, next, &zero, &unit))
        }
        _ => Ok(false),
    }
}

// Whether a row has a place set.
fn is_there(row: &List<bool>, at: TypeId) -> bool
    ensures { result ≡ unwrap_or (slice_get row.now at.0) false }
{
    match row.get(at.0 as usize) {
        None => false,
        Some(place) => *place,
    }
}

// Whether one type is below another.
fn is_below(program: &Program, from: TypeId, to: TypeId) -> bool
    ensures { result ≡ is_set program.now.types.below from.0 to.0 }
{
    set_at(
        program.types.below.as_slice(),
        from.0 as usize,
        to.0 as usize,
    )
}

// Whether no other type is below one.
fn none_else(rows: &[List<bool>], thread: TypeId) -> bool
    ensures { IsTrue result → (i : ℕ) → is_set rows.now i thread.0 ≡ true → i ≡ thread.0 }
{
    for i in 0..rows.len() {
        if i != thread.0 as usize && is_there(&rows[i], thread) {
            return false;
        }
    }
    true
}

// Whether `Thread'` alone is below itself, and is none of the built-in leaves.
fn stands_alone(program: &Program, x: &Numbers) -> bool
    ensures { IsTrue result → StandsAlone program.now (names x.now) }
{
    let thread = x.types.thread;
    is_below(program, thread, thread)
        && none_else(program.types.below.as_slice(), thread)
        && !is_below(program, program.built_in.small, thread)
        && !is_below(program, program.built_in.large, thread)
        && !is_below(program, program.built_in.text, thread)
        && !is_below(program, program.built_in.truth, thread)
        && !is_below(program, program.built_in.range, thread)
}

// Whether `TooManyThreads` is the single object at its place.
fn is_refusal(program: &Program, x: &Numbers) -> bool
    ensures { IsTrue result → single program.now x.now.types.refusal
        ≡ Some (Object x.now.types.refusal x.now.places.refusal) }
{
    match program.shapes.get(x.types.refusal.0 as usize) {
        None => false,
        Some(shape) => match shape.kind {
            CoreKind::Single(base) => base.0 == x.places.refusal.0,
            _ => false,
        },
    }
}

// Whether `Exception` is the built-in type, below itself, and not above `Thread'`.
fn has_exception(program: &Program, x: &Numbers) -> bool
    ensures { IsTrue result → HasException program.now (names x.now) }
{
    let thread = x.types.thread;
    let exception = program.built_in.exception;
    x.types.exception.0 == exception.0
        && thread.0 != exception.0
        && is_below(program, exception, exception)
        && !is_below(program, thread, exception)
}

/// Whether the types of the prelude are as they should be.
pub(crate) fn types_stand(alloc: Global, program: &Program, x: &Numbers) -> Result<bool, Memory>
    ensures { IfOk result (λ stand. IsTrue stand → StandTypes program.now x.now) }
{
    if !is_refusal(program, x) {
        return Ok(false);
    }
    if !stands_alone(program, x) {
        return Ok(false);
    }
    if !has_exception(program, x) {
        return Ok(false);
    }
    has_fields(alloc, program, x)
}
