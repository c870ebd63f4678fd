//! What an accepted component declares.
ghost use Rattle.std.specs.Prelude.{◌≡◌, ◌≤◌, ◌++◌, IfOk, map, replicate, None};
ghost use Rattle.fort_hier.specs.Heads.{head_place, head_body};
ghost use Rattle.fort_hier.specs.Numbers.{declared_types};

use crate::heads::TypeHead;
use crate::spellings::spelled;
use fort_base::{Bytes, List, Memory, Place, TypeTable};
use fort_types_builtin::{TYPE_COUNT, names as built_in_names};
use std::alloc::Global;

/// The declared types of an accepted component by their numbers, built-in ones first and then the
/// component's in source order.
#[derive(Drop)]
pub struct Hierarchy {
    /// Which type is below which, and which are apart.
    pub table: TypeTable,
    /// The name of each type.
    pub names: List<Bytes>,
    /// Which declaration of the component each type is, counted from 0; `None` for a built-in one.
    pub bodies: List<Option<u32>>,
}

/// The places of the names of types.
pub fn places_in(alloc: Global, heads: &[TypeHead]) -> Result<List<Place>, Memory>
    ensures { IfOk result (λ places. places ≡ map head_place heads.now) }
{
    let mut places = List::new(alloc);
    for i in 0..heads.len() {
        places.push(heads[i].name.spot.place)?;
    }
    Ok(places)
}

/// The names of the declared types, by their numbers.
pub fn names_in(alloc: Global, names: &[Bytes], heads: &[TypeHead]) -> Result<List<Bytes>, Memory>
    ensures { IfOk result (λ list. list ≡ declared_types names.now heads.now) }
{
    let mut list = built_in_names(alloc)?;
    for i in 0..heads.len() {
        list.push(List::from_slice(alloc, spelled(names, heads[i].name))?)?;
    }
    Ok(list)
}

/// The declarations of the declared types, by their numbers.
pub fn bodies_in(alloc: Global, heads: &[TypeHead]) -> Result<List<Option<u32>>, Memory>
    ensures { IfOk result (λ bodies. bodies
        ≡ replicate TYPE_COUNT None ++ map head_body heads.now) }
{
    let mut bodies = built_in_bodies(alloc)?;
    for i in 0..heads.len() {
        bodies.push(Some(numbered(heads[i].body)?))?;
    }
    Ok(bodies)
}

/// The built-in types have no declaration.
fn built_in_bodies(alloc: Global) -> Result<List<Option<u32>>, Memory>
    ensures { IfOk result (λ bodies. bodies ≡ replicate TYPE_COUNT None) }
{
    let mut bodies = List::new(alloc);
    for number in 0..TYPE_COUNT {
        bodies.push(None)?;
    }
    Ok(bodies)
}

/// The number of a declaration, or want of memory where it is none of 32 bits.
fn numbered(body: usize) -> Result<u32, Memory>
    ensures { IfOk result (λ number. number ≡ body) }
{
    if body > u32::MAX as usize {
        return Err(Memory);
    }
    Ok(body as u32)
}
