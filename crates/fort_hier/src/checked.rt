//! The hierarchy of a component, or the rule that it breaks.
ghost use Rattle.std.specs.Prelude.{IfOk, IfErr};
ghost use Rattle.fort_hier.specs.Hierarchies.{IsHierarchy, IsFault};
ghost use Rattle.fort_tree_type_names.specs.TypeNames.{type_names};

use crate::accepted::{Hierarchy, bodies_in, names_in};
use crate::heads::heads_in;
use crate::refusals::{known_types, refuse_broken, refuse_duplicate};
use fort_base::CheckFault;
use fort_tree::{Component, Name};
use fort_tree_type_names::type_names;
use fort_types::rows;
use std::alloc::Global;

/// More types than this have no numbers.
const MOST_TYPES: usize = 0x4000_0000;

/// The declared types of a component, or the rule of 401 to 407 that it breaks.
///
/// It answers `Refused` exactly where one of these rules is broken: the one of the lowest number,
/// at the earliest place where it is. Else the table's rows are below and apart of the component's
/// declared types, with their names and declarations. It answers `Memory` where memory is wanting,
/// where the component has more than 2^30 types, and where one of them is a declaration whose
/// number has more than 32 bits. The chapter is "Types".
pub fn hierarchy(alloc: Global, component: &Component) -> Result<Hierarchy, CheckFault>
    ensures ok { IfOk result (IsHierarchy component.now (type_names component.now)) }
    ensures err { IfErr result (IsFault component.now (type_names component.now)) }
{
    let mentioned = type_names(alloc, component)?;
    checked(alloc, component, mentioned.as_slice())
}

/// The hierarchy of a component in which these names stand as types, or the broken rule of 401 to
/// 407 with the lowest number, at its earliest place.
fn checked(
    alloc: Global,
    component: &Component,
    mentioned: &[Name],
) -> Result<Hierarchy, CheckFault>
    ensures ok { IfOk result (IsHierarchy component.now mentioned.now) }
    ensures err { IfErr result (IsFault component.now mentioned.now) }
{
    let names = component.names.as_slice();
    let heads = heads_in(alloc, component)?;
    if heads.len() > MOST_TYPES {
        return Err(CheckFault::Memory);
    }
    refuse_duplicate(alloc, component)?;
    let types = known_types(alloc, names, heads.as_slice(), mentioned)?;
    let table = rows(alloc, types.as_slice())?;
    refuse_broken(alloc, heads.as_slice(), types.as_slice(), &table)?;
    let spellings = names_in(alloc, names, heads.as_slice())?;
    let bodies = bodies_in(alloc, heads.as_slice())?;
    Ok(Hierarchy {
        table,
        names: spellings,
        bodies,
    })
}
