//! The fields that each type has, inherited ones too.
ghost use Rattle.std.specs.Prelude.{◌≡◌, ◌+◌, ◌↔◌, IsTrue, IfOk, OnOk, length, slice_get, Some};
ghost use Rattle.std.specs.List.{flat_map};
ghost use Rattle.fort_types.specs.declared.hierarchy.TypeKind.TheVariants as a_kind;
ghost use Rattle.fort_types.specs.Hierarchy.{Sound};
ghost use Rattle.fort_types.specs.Table.{HasRows};
ghost use Rattle.fort_member_fields.specs.Gathering.{HasAll, HasTo};
ghost use Rattle.fort_member_fields.specs.Walks.{AreHeights, Gathers, fields_of};

use crate::gathering::Gathering;
use crate::heights::heights_in;
use fort_base::{List, Memory, TypeTable};
use fort_types::DeclaredType;
use fort_types_sets::Field;
use std::alloc::Global;

/// The fields that each type has, by the types' numbers: first those that it declares, in their
/// order; of inherited ones of one name and one type it has one.
///
/// The types are asked from the top of the hierarchy down: one with fewer supertypes before one
/// with more.
pub fn all_fields(
    alloc: Global,
    types: &[DeclaredType],
    table: &TypeTable,
    own: &[List<Field>],
) -> Result<List<List<Field>>, Memory>
    requires rows { HasRows types.now table.now }
    requires sound { Sound types.now }
    requires own { length own.now ≡ length types.now }
    ensures { IfOk result (HasAll types.now own.now) }
{
    let heights = heights_in(alloc, types, table)?;
    let mut all = copies(alloc, own)?;
    gather_all(alloc, types, own, heights.as_slice(), &mut all)?;
    Ok(all)
}

/// Puts together the fields of all traits, those with the fewest supertypes first; before that each
/// type has what it declares.
fn gather_all(
    alloc: Global,
    types: &[DeclaredType],
    own: &[List<Field>],
    heights: &[usize],
    all: &mut List<List<Field>>,
) -> Result<(), Memory>
    requires heights { AreHeights types.now heights.now }
    requires own { length own.now ≡ length types.now }
    requires all { all.old ≡ own.now }
    ensures { OnOk result (HasAll types.now own.now all.new) }
{
    for height in 0..types.len() + 1 {
        gather_at(alloc, types, own, heights, height, all)?;
    }
    Ok(())
}

/// Equal lists in memory of their own.
fn copies(alloc: Global, lists: &[List<Field>]) -> Result<List<List<Field>>, Memory>
    ensures { IfOk result (λ made. made ≡ lists.now) }
{
    let mut made = List::new(alloc);
    for list in lists {
        made.push(copy_of(alloc, list.as_slice())?)?;
    }
    Ok(made)
}

/// Equal fields in memory of their own.
fn copy_of(alloc: Global, fields: &[Field]) -> Result<List<Field>, Memory>
    ensures { IfOk result (λ made. made ≡ fields.now) }
{
    let mut made = List::new(alloc);
    for field in fields {
        made.push(field.copy(alloc)?)?;
    }
    Ok(made)
}

/// Puts together the fields of the traits of one height, where those of all lower ones are known.
fn gather_at(
    alloc: Global,
    types: &[DeclaredType],
    own: &[List<Field>],
    heights: &[usize],
    height: usize,
    all: &mut List<List<Field>>,
) -> Result<(), Memory>
    requires heights { AreHeights types.now heights.now }
    requires own { length own.now ≡ length types.now }
    requires lower { HasTo types.now own.now heights.now height 0 all.old }
    ensures { OnOk result (HasTo types.now own.now heights.now (height + 1) 0 all.new) }
{
    for (a, declared) in types.iter().enumerate() {
        if !is_asked(declared, heights, a, height) {
            continue;
        }
        let fields = gathered(alloc, declared, fields_at(own, a), all.as_slice())?;
        all.set(a, fields);
    }
    Ok(())
}

/// Whether a type is a trait of that height.
fn is_asked(declared: &DeclaredType, heights: &[usize], a: usize, height: usize) -> bool
    ensures { IsTrue result
        ↔ (declared.now.kind ≡ a_kind.Trait) × (slice_get heights.now a ≡ Some height) }
{
    declared.kind.is_trait() && is_at(heights, a, height)
}

/// Whether a type has that height.
fn is_at(heights: &[usize], a: usize, height: usize) -> bool
    ensures { IsTrue result ↔ (slice_get heights.now a ≡ Some height) }
{
    match heights.get(a) {
        Some(held) => *held == height,
        None => false,
    }
}

/// The fields of a trait, of those that it declares and of those that the types which it extends
/// have.
fn gathered(
    alloc: Global,
    declared: &DeclaredType,
    own: &[Field],
    all: &[List<Field>],
) -> Result<List<Field>, Memory>
    ensures { IfOk result (Gathers own.now (flat_map (fields_of all.now) declared.now.extends)) }
{
    let mut gathering = Gathering::new(alloc, own)?;
    for b in declared.extends.as_slice() {
        gathering.inherit(alloc, own, fields_at(all, *b))?;
    }
    Ok(gathering.fields)
}

/// The fields of a type; none past the lists.
pub fn fields_at(all: &[List<Field>], a: usize) -> &[Field]
    ensures { result.now ≡ fields_of all.now a }
{
    match all.get(a) {
        Some(fields) => fields.as_slice(),
        None => &[],
    }
}
