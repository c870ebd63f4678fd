//! 451: two fields of one name.
ghost use Rattle.std.specs.Prelude.{◌≡◌, ◌≤◌, ◌<◌, ◌↔◌, IsTrue, IfOk, length};
ghost use Rattle.fort_base.specs.Places.{IsFirst};
ghost use Rattle.fort_member_fields.specs.Rules.{DeclaresTwice, GetsTwo, IsDuplicate};
ghost use Rattle.fort_member_fields.specs.Gathering.{HasAll};
ghost use Rattle.fort_member_fields.specs.Walks.{SomeIn, IsUnlike, HasOther, Differ, DifferAt, DiffersFrom, SomeDiffer};

use crate::gathering::declares;
use crate::inherited::fields_at;
use crate::repeats::first_repeated;
use fort_base::{List, Memory, Place, earlier, earlier_of};
use fort_types::DeclaredType;
use fort_types_sets::Field;
use std::alloc::Global;

/// The earliest place where a type has two fields of one name, or `None` where none has: one that
/// declares two, or a trait that gets two with different types.
///
/// `all` are the fields that each type has, and the places those of the last types' names.
pub fn first_duplicate(
    alloc: Global,
    types: &[DeclaredType],
    places: &[Place],
    own: &[List<Field>],
    all: &[List<Field>],
) -> Result<Option<Place>, Memory>
    requires fewer { length places.now ≤ length types.now }
    requires all { HasAll types.now own.now all.now }
    ensures { IfOk result (IsFirst (IsDuplicate types.now own.now places.now)) }
{
    let built_in = types.len() - places.len();
    let mut best = first_declared_twice(alloc, own)?;
    for (number, place) in places.iter().enumerate() {
        if !gets_two(alloc, types, own, all, built_in + number)? {
            continue;
        }
        best = earlier(best, *place);
    }
    Ok(best)
}

/// The earliest place of a field whose type declares one of its name before it.
fn first_declared_twice(alloc: Global, own: &[List<Field>]) -> Result<Option<Place>, Memory>
    ensures { IfOk result (IsFirst (DeclaresTwice own.now)) }
{
    let mut best = None;
    for fields in own {
        best = earlier_of(best, first_repeated(alloc, fields.as_slice())?);
    }
    Ok(best)
}

/// Whether a type is a trait that gets a field which it doesn't declare from two types, with
/// different types.
fn gets_two(
    alloc: Global,
    types: &[DeclaredType],
    own: &[List<Field>],
    all: &[List<Field>],
    a: usize,
) -> Result<bool, Memory>
    requires inside { a < length types.now }
    requires all { HasAll types.now own.now all.now }
    ensures { IfOk result (λ gets. IsTrue gets ↔ GetsTwo types.now own.now a) }
{
    if !types[a].kind.is_trait() {
        return Ok(false);
    }
    match first_repeated(alloc, fields_at(all, a))? {
        None => Ok(false),
        Some(_) => Ok(any_differ(types[a].extends.as_slice(), fields_at(own, a), all)),
    }
}

/// Whether two of these types have fields of one name and different types, of a name that isn't
/// declared.
fn any_differ(extends: &[usize], own: &[Field], all: &[List<Field>]) -> bool
    ensures { IsTrue result ↔ SomeDiffer own.now all.now extends.now }
{
    for b in extends {
        if differs_from_any(*b, extends, own, all) {
            return true;
        }
    }
    false
}

/// Whether another one of these types has such a field.
fn differs_from_any(b: usize, extends: &[usize], own: &[Field], all: &[List<Field>]) -> bool
    ensures { IsTrue result ↔ DiffersFrom own.now all.now extends.now b }
{
    for c in extends {
        if differ_at(b, *c, own, all) {
            return true;
        }
    }
    false
}

/// Whether two types are not one, and have fields of one name and different types, of a name that
/// isn't declared.
fn differ_at(b: usize, c: usize, own: &[Field], all: &[List<Field>]) -> bool
    ensures { IsTrue result ↔ DifferAt own.now all.now b c }
{
    b != c && differ(own, fields_at(all, b), fields_at(all, c))
}

/// Whether two lists have fields of one name and different types, of a name that isn't declared.
fn differ(own: &[Field], fields: &[Field], others: &[Field]) -> bool
    ensures { IsTrue result ↔ Differ own.now fields.now others.now }
{
    for field in fields {
        if has_other(own, others, field) {
            return true;
        }
    }
    false
}

/// Whether a field's name isn't declared, and a field of a list has that name and a different type.
fn has_other(own: &[Field], others: &[Field], field: &Field) -> bool
    ensures { IsTrue result ↔ HasOther own.now others.now field.now }
{
    !declares(own, field.name) && any_unlike(others, field)
}

/// Whether some field of a list has the name of another and a different type.
fn any_unlike(others: &[Field], field: &Field) -> bool
    ensures { IsTrue result ↔ SomeIn (IsUnlike field.now) others.now }
{
    for other in others {
        if is_unlike(other, field) {
            return true;
        }
    }
    false
}

/// Whether two fields have one name and different types.
fn is_unlike(other: &Field, field: &Field) -> bool
    ensures { IsTrue result ↔ IsUnlike field.now other.now }
{
    other.name == field.name && !other.ty.same(&field.ty)
}
