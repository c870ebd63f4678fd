//! The opening store. The chapter "Programs" of docs/TRANSLATION.md.
ghost use Rattle.std.specs.Prelude.{◌≡◌, ◌+◌, ◌++◌, IfOk, None, OnOk, drop, unwrap_or};
ghost use Rattle.fort_machine.specs.Acts.{unit};
ghost use Rattle.std.specs.List.{flat_map};
ghost use Rattle.fort_elab_meaning.specs.Shapes.{field_types, fields_from, held_by, initial as initial_of, types_by, variable_types, variables_from};

use crate::initials::{Initial, initial_value};
use fort_base::{Bytes, List, Loc, Memory, NameId, Ty};
use fort_core::{CoreField, CoreKind, CoreShape, Value};
use fort_types_sets::Field;
use std::alloc::Global;

/// What stands at locations, in their order.
type Placed = List<(Loc, Value)>;

type PlacedTypes = List<(Loc, Ty)>;

/// A value, or `()` where there is none.
fn value_or_unit(alloc: Global, value: Option<Value>) -> Result<Value, Memory>
    ensures { IfOk result (λ found. found ≡ unwrap_or value unit) }
{
    match value {
        Some(value) => Ok(value),
        None => Value::unit(alloc),
    }
}

/// The value of a constant, or `()` where there is none.
fn share_or_unit(alloc: Global, value: &Option<Value>) -> Result<Value, Memory>
    ensures { IfOk result (λ found. found ≡ unwrap_or value.now unit) }
{
    match value {
        Some(value) => value.share(),
        None => Value::unit(alloc),
    }
}

/// The location behind one, or want of memory where there is none.
fn behind(place: u64) -> Result<u64, Memory>
    ensures { IfOk result (λ next. next ≡ place + 1) }
{
    match place.checked_add(1) {
        Some(next) => Ok(next),
        None => Err(Memory),
    }
}

/// The value of a variable at the top.
fn variable_value(
    alloc: Global,
    texts: &[Bytes],
    initials: &[Initial],
    name: NameId,
) -> Result<Value, Memory>
    ensures { IfOk result (λ value. value
        ≡ unwrap_or (initial_of texts.now initials.now None name) unit) }
{
    let found = initial_value(alloc, texts, initials, None, name)?;
    value_or_unit(alloc, found)
}

/// The opening store of a component: the variables at the top, then the single objects, with their
/// constants.
///
/// # Errors
///
/// `Memory` where memory is wanting, or where there are more fields than numbers for locations.
pub fn opening(
    alloc: Global,
    texts: &[Bytes],
    initials: &[Initial],
    variables: &[Field],
    shapes: &[CoreShape],
) -> Result<List<(Loc, Value)>, Memory>
    ensures { IfOk result (λ opening. opening
        ≡ variables_from texts.now initials.now 0 variables.now
        ++ flat_map held_by shapes.now) }
{
    let mut opening = List::new(alloc);
    let mut place = 0;
    for variable in variables {
        let value = variable_value(alloc, texts, initials, variable.name)?;
        opening.push((Loc(place), value))?;
        place = behind(place)?;
    }
    add_objects(alloc, shapes, &mut opening)?;
    Ok(opening)
}

/// Adds what the single objects hold.
fn add_objects(alloc: Global, shapes: &[CoreShape], opening: &mut Placed) -> Result<(), Memory>
    ensures { OnOk result (opening.new ≡ opening.old ++ flat_map held_by shapes.now) }
{
    for shape in shapes {
        add_object(alloc, shape, opening)?;
    }
    Ok(())
}

/// Adds what a single object holds.
fn add_object(alloc: Global, shape: &CoreShape, opening: &mut Placed) -> Result<(), Memory>
    ensures { OnOk result (opening.new ≡ opening.old ++ held_by shape.now) }
{
    let base = match shape.kind {
        CoreKind::Single(base) => base,
        _ => return Ok(()),
    };
    if shape.fields.is_empty() {
        return opening.push((base, Value::unit(alloc)?));
    }
    add_fields(alloc, base.0, shape.fields.as_slice(), opening)
}

/// Adds the constants of fields, from a location on.
fn add_fields(
    alloc: Global,
    base: u64,
    fields: &[CoreField],
    opening: &mut Placed,
) -> Result<(), Memory>
    ensures { OnOk result (opening.new ≡ opening.old ++ fields_from base fields.now) }
{
    let mut place = base;
    for field in fields {
        let value = share_or_unit(alloc, &field.initial)?;
        opening.push((Loc(place), value))?;
        place = behind(place)?;
    }
    Ok(())
}

/// The types of the locations of the opening store, in the same order.
///
/// # Errors
///
/// As of `opening`.
pub fn opening_types(
    alloc: Global,
    variables: &[Field],
    shapes: &[CoreShape],
) -> Result<List<(Loc, Ty)>, Memory>
    ensures { IfOk result (λ types. types
        ≡ variable_types 0 variables.now ++ flat_map types_by shapes.now) }
{
    let mut types = List::new(alloc);
    let mut place = 0;
    for variable in variables {
        let ty = variable.ty.copy(alloc)?;
        types.push((Loc(place), ty))?;
        place = behind(place)?;
    }
    add_object_types(alloc, shapes, &mut types)?;
    Ok(types)
}

/// Adds the types of what the single objects hold.
fn add_object_types(
    alloc: Global,
    shapes: &[CoreShape],
    types: &mut PlacedTypes,
) -> Result<(), Memory>
    ensures { OnOk result (types.new ≡ types.old ++ flat_map types_by shapes.now) }
{
    for shape in shapes {
        add_types_of(alloc, shape, types)?;
    }
    Ok(())
}

/// Adds the types of what a single object holds.
fn add_types_of(alloc: Global, shape: &CoreShape, types: &mut PlacedTypes) -> Result<(), Memory>
    ensures { OnOk result (types.new ≡ types.old ++ types_by shape.now) }
{
    let base = match shape.kind {
        CoreKind::Single(base) => base,
        _ => return Ok(()),
    };
    if shape.fields.is_empty() {
        return types.push((base, Ty::Tuple(List::new(alloc))));
    }
    add_field_types(alloc, base.0, shape.fields.as_slice(), types)
}

/// Adds the types of fields, from a location on.
fn add_field_types(
    alloc: Global,
    base: u64,
    fields: &[CoreField],
    types: &mut PlacedTypes,
) -> Result<(), Memory>
    ensures { OnOk result (types.new ≡ types.old ++ field_types base fields.now) }
{
    let mut place = base;
    for field in fields {
        let ty = field.ty.copy(alloc)?;
        types.push((Loc(place), ty))?;
        place = behind(place)?;
    }
    Ok(())
}
