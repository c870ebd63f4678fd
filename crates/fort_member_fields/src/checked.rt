//! The fields of a component, or the rule on fields that it breaks.
ghost use Rattle.std.specs.Prelude.{◌≡◌, ◌<◌, ◌≤◌, ◌^◌, length, None, IfOk, IfErr, OnOk};
ghost use Rattle.fort_types.specs.Hierarchy.{Sound};
ghost use Rattle.fort_types.specs.Table.{HasRows};
ghost use Rattle.fort_tree_type_names.specs.TypeNames.{type_names};
ghost use Rattle.fort_base.specs.Places.{IsFirst};
ghost use Rattle.fort_hier.specs.Heads.{heads_of};
ghost use Rattle.fort_hier.specs.Hierarchies.{IsHierarchy};
ghost use Rattle.fort_hier.specs.Numbers.{HoldsNumbers, all_types};
ghost use Rattle.fort_member_fields.specs.Answers.{HasFields};
ghost use Rattle.fort_member_fields.specs.Gathering.{HasAll};
ghost use Rattle.fort_member_fields.specs.Rules.{IsDuplicate, IsNotBelow, IsFieldRefusal, IsFault};

use crate::duplicates::first_duplicate;
use crate::inherited::all_fields;
use crate::lacking::first_lacking;
use crate::own::own_in;
use fort_base::rules::{DUPLICATE_MEMBER, FIELD_NOT_BELOW};
use fort_base::{CheckFault, List, Place, TypeTable};
use fort_hier::{Hierarchy, Numbers, TypeHead, heads_in, numbers_in, places_in, types_in};
use fort_tree::Component;
use fort_types::DeclaredType;
use fort_types_builtin::TYPE_NAME_COUNT;
use fort_types_sets::Field;
use std::alloc::Global;

/// More types than this have no numbers.
const MOST_TYPES: usize = 0x4000_0000;

/// The fields of the types of a component, by the types' numbers, over the hierarchy that its types
/// are.
///
/// It answers `Refused` with 451 or 452 exactly where the component breaks that rule, the lower one
/// first, at the earliest place where it is broken. Its only other error is want of memory, which
/// it also answers where a component has more than 2^30 types. The chapter is "Members".
pub fn fields(
    alloc: Global,
    component: &Component,
    hierarchy: &Hierarchy,
) -> Result<List<List<Field>>, CheckFault>
    requires { IsHierarchy component.now (type_names component.now) hierarchy.now }
    ensures ok { IfOk result (HasFields component.now) }
    ensures err { IfErr result (IsFault component.now) }
{
    let heads = heads_in(alloc, component)?;
    if heads.len() > MOST_TYPES {
        return Err(CheckFault::Memory);
    }
    let numbers = numbers_in(alloc, component.names.as_slice(), heads.as_slice())?;
    checked_fields(alloc, component, hierarchy, heads.as_slice(), &numbers)
}

/// The same with the heads of the types and the numbers of their names.
fn checked_fields(
    alloc: Global,
    component: &Component,
    hierarchy: &Hierarchy,
    heads: &[TypeHead],
    numbers: &Numbers,
) -> Result<List<List<Field>>, CheckFault>
    requires types { IsHierarchy component.now (type_names component.now) hierarchy.now }
    requires heads { heads.now ≡ heads_of component.now }
    requires few { length heads.now < 2 ^ 31 }
    requires numbers { HoldsNumbers (all_types component.now.names heads.now) numbers.now }
    ensures ok { IfOk result (HasFields component.now) }
    ensures err { IfErr result (IsFault component.now) }
{
    let names = component.names.as_slice();
    let size = TYPE_NAME_COUNT + heads.len();
    let types = types_in(alloc, names, numbers, size, heads)?;
    let own = own_in(
        alloc,
        names,
        numbers,
        size,
        component.declarations.as_slice(),
    )?;
    let places = places_in(alloc, heads)?;
    kept_fields(
        alloc,
        types.as_slice(),
        &hierarchy.table,
        places.as_slice(),
        own.as_slice(),
    )
}

/// The fields of types that declare these, or a refusal.
fn kept_fields(
    alloc: Global,
    types: &[DeclaredType],
    table: &TypeTable,
    places: &[Place],
    own: &[List<Field>],
) -> Result<List<List<Field>>, CheckFault>
    requires rows { HasRows types.now table.now }
    requires sound { Sound types.now }
    requires fewer { length places.now ≤ length types.now }
    requires own { length own.now ≡ length types.now }
    ensures fields { IfOk result (HasAll types.now own.now) }
    ensures once { OnOk result (IsFirst (IsDuplicate types.now own.now places.now) None) }
    ensures below { OnOk result (IsFirst (IsNotBelow types.now own.now places.now) None) }
    ensures err { IfErr result (IsFieldRefusal types.now own.now places.now) }
{
    let all = all_fields(alloc, types, table, own)?;
    if let Some(place) = first_duplicate(alloc, types, places, own, all.as_slice())? {
        return Err(CheckFault::Refused(DUPLICATE_MEMBER, place));
    }
    if let Some(place) = first_lacking(types, table, places, own) {
        return Err(CheckFault::Refused(FIELD_NOT_BELOW, place));
    }
    Ok(all)
}
