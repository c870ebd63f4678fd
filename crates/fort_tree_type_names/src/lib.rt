//! The names that stand as types in a component.
#![tactic(auto)]

ghost use Rattle.std.specs.Prelude.{◌≡◌, IfOk};
ghost use Rattle.fort_tree_type_names.specs.TypeNames.{type_names};

mod blocks;
mod declarations;
mod exprs;
mod types;

use crate::declarations::add_declarations;
use fort_base::{List, Memory};
use fort_tree::{Component, Name};
use std::alloc::Global;

/// Every name that stands as a type in a component, with its place, in the order of the text, each
/// as often as it stands there; or want of memory.
///
/// These are the names that rule 402 of the chapter "Types" asks: in types, wherever they stand,
/// and in the lists behind `extends`, `excludes` and `comprises`. The name of a declaration is
/// none, nor is `Array` before `⟦`.
pub fn type_names(alloc: Global, component: &Component) -> Result<List<Name>, Memory>
    ensures { IfOk result (λ names. names ≡ type_names component.now) }
{
    let mut names = List::new(alloc);
    add_declarations(component.declarations.as_slice(), &mut names)?;
    Ok(names)
}
