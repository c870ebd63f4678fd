//! The refusals of a component's hierarchy, each rule at its earliest place.
ghost use Rattle.std.specs.Prelude.{◌≡◌, ◌<◌, ◌≤◌, ◌^◌, length, map, None, IfOk, IfErr, OnOk};
ghost use Rattle.fort_base.specs.declared.rules.TheConstants.{CYCLIC_EXTENDS};
ghost use Rattle.fort_base.specs.Places.{IsFirst};
ghost use Rattle.fort_hier.specs.Heads.{head_place};
ghost use Rattle.fort_hier.specs.Hierarchies.{IsRefusal, IsSentenceRefusal};
ghost use Rattle.fort_hier.specs.Lowest.{IsLowestFrom};
ghost use Rattle.fort_hier.specs.Names.{all_called, IsDuplicate};
ghost use Rattle.fort_hier.specs.Numbers.{all_types, hierarchy_of, IsUnknown};
ghost use Rattle.fort_hier.specs.Tops.{tops_of};
ghost use Rattle.fort_types.specs.Table.{HasRows};

use crate::accepted::places_in;
use crate::duplicates::first_duplicate;
use crate::heads::TypeHead;
use crate::lowest::lowest_broken;
use crate::numbers::numbers_in;
use crate::tops::tops_in;
use crate::types::types_in;
use crate::unknown::first_unknown;
use fort_base::rules::{DUPLICATE_NAME, UNKNOWN_TYPE};
use fort_base::{Bytes, CheckFault, List, TypeTable};
use fort_tree::{Component, Name};
use fort_types::DeclaredType;
use fort_types_builtin::TYPE_NAME_COUNT;
use std::alloc::Global;

/// Refuses a component with a name at the top that clashes with an earlier one (401).
pub fn refuse_duplicate(alloc: Global, component: &Component) -> Result<(), CheckFault>
    ensures ok { OnOk result
        (IsFirst (IsDuplicate (all_called component.now.names (tops_of component.now))) None) }
    ensures err { IfErr result
        (IsRefusal DUPLICATE_NAME.0
        (IsDuplicate (all_called component.now.names (tops_of component.now)))) }
{
    let tops = tops_in(alloc, component)?;
    let first = first_duplicate(alloc, component.names.as_slice(), tops.as_slice())?;
    match first {
        Some(place) => Err(CheckFault::Refused(DUPLICATE_NAME, place)),
        None => Ok(()),
    }
}

/// The declared types of these heads, or a refusal where some name that stands as a type is none's
/// (402).
pub fn known_types(
    alloc: Global,
    names: &[Bytes],
    heads: &[TypeHead],
    mentioned: &[Name],
) -> Result<List<DeclaredType>, CheckFault>
    requires few { length heads.now < 2 ^ 31 }
    ensures types { IfOk result (λ types. types ≡ hierarchy_of names.now heads.now) }
    ensures ok { OnOk result
        (IsFirst (IsUnknown (all_types names.now heads.now) names.now mentioned.now) None) }
    ensures err { IfErr result
        (IsRefusal UNKNOWN_TYPE.0
        (IsUnknown (all_types names.now heads.now) names.now mentioned.now)) }
{
    let numbers = numbers_in(alloc, names, heads)?;
    if let Some(place) = first_unknown(names, &numbers, mentioned) {
        return Err(CheckFault::Refused(UNKNOWN_TYPE, place));
    }
    let size = TYPE_NAME_COUNT + heads.len();
    let types = types_in(alloc, names, &numbers, size, heads)?;
    Ok(types)
}

/// Refuses types that break one of 403 to 407, by the lowest number.
pub fn refuse_broken(
    alloc: Global,
    heads: &[TypeHead],
    types: &[DeclaredType],
    table: &TypeTable,
) -> Result<(), CheckFault>
    requires rows { HasRows types.now table.now }
    requires fewer { length heads.now ≤ length types.now }
    ensures ok { OnOk result
        (IsLowestFrom types.now (map head_place heads.now) CYCLIC_EXTENDS.0 None) }
    ensures err { IfErr result (IsSentenceRefusal types.now (map head_place heads.now)) }
{
    let places = places_in(alloc, heads)?;
    match lowest_broken(types, table, places.as_slice()) {
        Some(broken) => Err(CheckFault::Refused(broken.sentence.rule(), broken.place)),
        None => Ok(()),
    }
}
