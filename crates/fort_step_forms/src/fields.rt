//! Fields of objects.
ghost use Rattle.std.specs.Prelude.{◌≡◌, ◌+◌, option_map, IfOk};
ghost use Rattle.fort_core.specs.declared.value.Value.{out-Value};
ghost use Rattle.fort_step_deal.specs.Deals.{act_of};
ghost use Rattle.fort_machine.specs.Forms.{field_of as field_at, reading_at, writing_at};
ghost use Rattle.fort_step_forms.specs.Rows.{number_of, place_from};

use fort_base::{List, Loc, Memory, NameId};
use fort_core::{CoreField, Program, Value};
use fort_step_deal::{Deal, Goes};

/// A read of an object's field. The chapter "Steps and costs".
///
/// # Errors
///
/// `Memory` where no location can have the field's number.
pub fn read_field_row(program: &Program, object: &Value, field: NameId) -> Result<Deal, Memory>
    ensures { IfOk result (λ deal. act_of deal
        ≡ reading_at (field_at program.now field (out-Value object.now))) }
{
    match field_of(program, object, field)? {
        None => Ok(Deal::Stuck),
        Some(loc) => Ok(Deal::Asks(loc, Goes::Value)),
    }
}

/// A write to an object's field. The chapter "Steps and costs".
///
/// # Errors
///
/// `Memory` where no location can have the field's number.
pub fn write_field_row(
    program: &Program,
    object: &Value,
    field: NameId,
    value: Value,
) -> Result<Deal, Memory>
    ensures { IfOk result (λ deal. act_of deal
        ≡ writing_at (field_at program.now field (out-Value object.now)) value) }
{
    match field_of(program, object, field)? {
        None => Ok(Deal::Stuck),
        Some(loc) => Ok(Deal::Sets(loc, value)),
    }
}

// The location of an object's field.
#[tactic(auto, using(crate::proofs::Places::place_first))]
fn field_of(program: &Program, object: &Value, field: NameId) -> Result<Option<Loc>, Memory>
    ensures { IfOk result (λ found. number_of found
        ≡ field_at program.now field (out-Value object.now)) }
{
    match object {
        Value::Object(id, base) => match program.shapes.get(id.0 as usize) {
            None => Ok(None),
            Some(shape) => behind(*base, place_of(&shape.fields, field)?),
        },
        _ => Ok(None),
    }
}

fn behind(base: Loc, place: Option<u64>) -> Result<Option<Loc>, Memory>
    ensures { IfOk result (λ found. number_of found ≡ option_map (λ n. base.0 + n) place) }
{
    match place {
        None => Ok(None),
        Some(place) => match base.0.checked_add(place) {
            None => Err(Memory),
            Some(number) => Ok(Some(Loc(number))),
        },
    }
}

// The place of a field among those of its type.
fn place_of(fields: &List<CoreField>, field: NameId) -> Result<Option<u64>, Memory>
    ensures { IfOk result (λ found. found ≡ place_from field fields.now 0) }
{
    let mut place: u64 = 0;
    for other in fields.as_slice() {
        if other.name.0 == field.0 {
            return Ok(Some(place));
        }
        place = match place.checked_add(1) {
            None => return Err(Memory),
            Some(next) => next,
        };
    }
    Ok(None)
}
