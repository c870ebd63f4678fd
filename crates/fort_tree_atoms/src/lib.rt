//! The names that stand as atoms in a component.
#![tactic(auto)]

ghost use Rattle.std.specs.Prelude.{◌≡◌, IfOk};
ghost use Rattle.fort_tree_atoms.specs.AtomNames.{atom_names};

mod blocks;
mod declarations;
mod exprs;

use crate::declarations::add_declarations;
use fort_base::{List, Memory};
use fort_tree::{Component, Name};
use std::alloc::Global;

/// Every name that stands as an atom in a component, with its place, in the order of the text, each
/// as often as it stands there; or want of memory.
///
/// These are, beside those that stand as types, the names that rule 706 of the chapter "Components
/// and APIs" asks. The names of declarations and types are none, nor are a name behind a dot, a
/// name that a parameter, a generator or a clause binds, and the `fill` of an array.
pub fn atom_names(alloc: Global, component: &Component) -> Result<List<Name>, Memory>
    ensures { IfOk result (λ names. names ≡ atom_names component.now) }
{
    let mut names = List::new(alloc);
    add_declarations(component.declarations.as_slice(), &mut names)?;
    Ok(names)
}
