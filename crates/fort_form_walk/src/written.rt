//! The types that trees write, by the tables of a component.
ghost use Rattle.std.specs.Prelude.{◌≡◌, IfOk};
ghost use Rattle.fort_hier.specs.Numbers.{all_types};
ghost use Rattle.fort_member_fields.specs.Written.{written};

use crate::tables::Tables;
use fort_base::{Memory, Ty};
use fort_member_fields::written_type;
use fort_tree::TypeTree;
use std::alloc::Global;

/// The type that a tree writes, or want of memory.
pub fn written_by(alloc: Global, tables: &Tables, tree: &TypeTree) -> Result<Ty, Memory>
    ensures { IfOk result (λ ty. ty
        ≡ written (all_types tables.now.names.now tables.now.heads.now) tables.now.names.now
        tree.now) }
{
    let ty = written_type(alloc, tables.names, tables.numbers, tables.size, tree)?;
    Ok(ty)
}
