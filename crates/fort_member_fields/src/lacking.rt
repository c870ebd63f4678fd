//! 452: a field of a trait that is missing below it, or declared again with a type that isn't
//! below.
ghost use Rattle.std.specs.Prelude.{◌≡◌, ◌≤◌, ◌<◌, ◌↔◌, IsTrue, length, List as Seq};
ghost use Rattle.fort_types.specs.declared.hierarchy.DeclaredType.{DeclaredType as ADeclared};
ghost use Rattle.fort_types.specs.Table.{HasRows};
ghost use Rattle.fort_base.specs.Places.{IsFirst};
ghost use Rattle.fort_member_fields.specs.Rules.{LacksField, IsNotBelow};
ghost use Rattle.fort_member_fields.specs.Walks.{SomeIn, Lacks, LacksOf, IsWiderThan};

use crate::gathering::declares;
use crate::inherited::fields_at;
use fort_base::{List, Place, TypeTable, earlier};
use fort_types::{DeclaredType, below, set_at};
use fort_types_sets::Field;

/// The earliest place of the name of a type that lacks a field of a trait above it, or `None` where
/// none does.
///
/// The places are those of the last types' names.
pub fn first_lacking(
    types: &[DeclaredType],
    table: &TypeTable,
    places: &[Place],
    own: &[List<Field>],
) -> Option<Place>
    requires rows { HasRows types.now table.now }
    requires fewer { length places.now ≤ length types.now }
    ensures { IsFirst (IsNotBelow types.now own.now places.now) result }
{
    let built_in = types.len() - places.len();
    let mut best = None;
    for (number, place) in places.iter().enumerate() {
        if !lacks_field(types, table, own, built_in + number) {
            continue;
        }
        best = earlier(best, *place);
    }
    best
}

/// Whether a type lacks a field of some trait above it.
fn lacks_field(types: &[DeclaredType], table: &TypeTable, own: &[List<Field>], a: usize) -> bool
    requires rows { HasRows types.now table.now }
    requires inside { a < length types.now }
    ensures { IsTrue result ↔ LacksField types.now own.now a }
{
    let must = !types[a].kind.is_trait();
    for (t, declared) in types.iter().enumerate() {
        if lacks_of(table, must, own, a, declared, t) {
            return true;
        }
    }
    false
}

/// Whether a type lacks a field of one that is a trait above it.
fn lacks_of(
    table: &TypeTable,
    must: bool,
    own: &[List<Field>],
    a: usize,
    declared: &DeclaredType,
    t: usize,
) -> bool
    ensures { (h : Seq ADeclared) → HasRows h table.now → IsTrue result
        ↔ LacksOf h table.now.below must own.now a declared.now t }
{
    if !declared.kind.is_trait() {
        return false;
    }
    if !set_at(table.below.as_slice(), a, t) {
        return false;
    }
    lacks_any(table, must, fields_at(own, a), fields_at(own, t))
}

/// Whether a type lacks one of a trait's fields.
fn lacks_any(table: &TypeTable, must: bool, own: &[Field], fields: &[Field]) -> bool
    ensures { (h : Seq ADeclared) → HasRows h table.now → IsTrue result
        ↔ SomeIn (Lacks h must own.now) fields.now }
{
    for field in fields {
        if lacks(table, must, own, field) {
            return true;
        }
    }
    false
}

/// Whether a field is missing, where it must be there, or declared again with a type that isn't
/// below.
fn lacks(table: &TypeTable, must: bool, own: &[Field], field: &Field) -> bool
    ensures { (h : Seq ADeclared) → HasRows h table.now → IsTrue result
        ↔ Lacks h must own.now field.now }
{
    (must && !declares(own, field.name)) || any_wider(table, own, field)
}

/// Whether a field is declared again with a type that isn't below its type.
fn any_wider(table: &TypeTable, own: &[Field], field: &Field) -> bool
    ensures { (h : Seq ADeclared) → HasRows h table.now → IsTrue result
        ↔ SomeIn (IsWiderThan h field.now) own.now }
{
    for other in own {
        if is_wider(table, other, field) {
            return true;
        }
    }
    false
}

/// Whether a field has the name of another, and a type that isn't below the other's.
fn is_wider(table: &TypeTable, other: &Field, field: &Field) -> bool
    ensures { (h : Seq ADeclared) → HasRows h table.now → IsTrue result
        ↔ IsWiderThan h field.now other.now }
{
    other.name == field.name && !below(table, &other.ty, &field.ty)
}
