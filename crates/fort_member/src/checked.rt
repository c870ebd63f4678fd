//! The members of a component, or the rule that it breaks.
ghost use Rattle.std.specs.Prelude.{◌≡◌, ◌++◌, ◌<◌, ◌^◌, length, Option, None, Some, map, replicate, IfOk, IfErr, List as Seq};
ghost use Rattle.std.specs.List.{flat_map};
ghost use Rattle.fort_tree_type_names.specs.TypeNames.{type_names};
ghost use Rattle.fort_hier.specs.Heads.{head_place};
ghost use Rattle.fort_hier.specs.Hierarchies.{IsHierarchy};
ghost use Rattle.fort_hier.specs.Names.{Spelling};
ghost use Rattle.fort_hier.specs.Numbers.{HoldsNumbers};
ghost use Rattle.fort_member_fields.specs.Rules.{IsFault};
ghost use Rattle.fort_member.specs.Answers.{AreMembers, AreOver};
ghost use Rattle.fort_member.specs.BuiltIn.{built_in_entries};
ghost use Rattle.fort_member.specs.Declarations.{declared_entries};
ghost use Rattle.fort_member.specs.Sets.{sets_of};
ghost use Rattle.fort_types_sets.specs.Leaves.{leaves_of, is_leaf as is_object_or_leaf};

use crate::entries::entries_in;
use crate::sets::sets_in;
use crate::variables::variables_in;
use fort_base::{Bytes, CheckFault, List, Memory, Place};
use fort_hier::{Hierarchy, Numbers, TypeHead, heads_in, numbers_in, places_in, types_in};
use fort_member_fields::fields;
use fort_tree::{Component, Declared};
use fort_types::{DeclaredType, TypeKind};
use fort_types_builtin::{TYPE_COUNT, TYPE_NAME_COUNT};
use fort_types_sets::{Field, MemberSet, Members};
use std::alloc::Global;

/// More types than this have no numbers.
const MOST_TYPES: usize = 0x4000_0000;

/// The members of a component, over the hierarchy that its types are: the places of its types,
/// which of them are objects or leaves, their fields, its overload sets and its variables.
///
/// It answers `Refused` with 451 or 452 exactly where the component breaks that rule, the lower one
/// first, at the earliest place where it is broken. Its only other error is want of memory, which
/// it also answers where a component has more than 2^30 types. The chapter is "Members".
pub fn members(
    alloc: Global,
    component: &Component,
    hierarchy: &Hierarchy,
) -> Result<Members, CheckFault>
    requires { IsHierarchy component.now (type_names component.now) hierarchy.now }
    ensures ok { IfOk result (AreMembers component.now) }
    ensures err { IfErr result (IsFault component.now) }
{
    let fields = fields(alloc, component, hierarchy)?;
    let heads = heads_in(alloc, component)?;
    if heads.len() > MOST_TYPES {
        return Err(CheckFault::Memory);
    }
    let names = component.names.as_slice();
    let declarations = component.declarations.as_slice();
    let members = members_over(alloc, names, heads.as_slice(), declarations, fields)?;
    Ok(members)
}

/// The members, by the names, the heads of the types, the declarations and the fields.
fn members_over(
    alloc: Global,
    names: &[Bytes],
    heads: &[TypeHead],
    declarations: &[Declared],
    fields: List<List<Field>>,
) -> Result<Members, Memory>
    requires { length heads.now < 2 ^ 31 }
    ensures { IfOk result (AreOver names.now heads.now declarations.now fields) }
{
    let numbers = numbers_in(alloc, names, heads)?;
    let size = TYPE_NAME_COUNT + heads.len();
    let types = types_in(alloc, names, &numbers, size, heads)?;
    Ok(Members {
        places: places_of_types(alloc, heads)?,
        objects: leaves_in(alloc, types.as_slice())?,
        fields,
        sets: sets_of_all(alloc, names, &numbers, size, declarations)?,
        variables: variables_in(alloc, names, &numbers, size, declarations)?,
    })
}

/// The sets of all declarations; the size is that of the list of numbered names.
fn sets_of_all(
    alloc: Global,
    names: &[Bytes],
    numbers: &Numbers,
    size: usize,
    declarations: &[Declared],
) -> Result<List<MemberSet>, Memory>
    ensures { IfOk result (λ sets. (list : Seq Spelling) → HoldsNumbers list numbers.now
        → length list ≡ size
        → sets ≡ sets_of (built_in_entries
        ++ flat_map (declared_entries list names.now) declarations.now)) }
{
    let entries = entries_in(alloc, names, numbers, size, declarations)?;
    sets_in(alloc, entries)
}

/// The places of all types, by their numbers.
fn places_of_types(alloc: Global, heads: &[TypeHead]) -> Result<List<Option<Place>>, Memory>
    ensures { IfOk result (λ all. all
        ≡ replicate TYPE_COUNT None ++ map Some (map head_place heads.now)) }
{
    let places = places_in(alloc, heads)?;
    places_behind(alloc, places.as_slice())
}

/// The places of all types: built-in ones have none, and then come these.
fn places_behind(alloc: Global, places: &[Place]) -> Result<List<Option<Place>>, Memory>
    ensures { IfOk result (λ all. all ≡ replicate TYPE_COUNT None ++ map Some places.now) }
{
    let mut all = List::new(alloc);
    for number in 0..TYPE_COUNT {
        all.push(None)?;
    }
    for place in places {
        all.push(Some(*place))?;
    }
    Ok(all)
}

/// Whether each type is an object or a leaf.
fn leaves_in(alloc: Global, types: &[DeclaredType]) -> Result<List<bool>, Memory>
    ensures { IfOk result (λ leaves. leaves ≡ leaves_of types.now) }
{
    let mut leaves = List::new(alloc);
    for declared in types {
        leaves.push(is_leaf(declared))?;
    }
    Ok(leaves)
}

/// Whether a type is an object or a leaf.
fn is_leaf(declared: &DeclaredType) -> bool
    ensures { result ≡ is_object_or_leaf declared.now }
{
    match declared.kind {
        TypeKind::Trait => false,
        TypeKind::Object => true,
        TypeKind::Leaf => true,
    }
}
