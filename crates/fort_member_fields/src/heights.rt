//! How high the types stand, so that they can be asked from the top of the hierarchy down.
ghost use Rattle.std.specs.Prelude.{◌≡◌, IfOk, map};
ghost use Rattle.fort_types.specs.Hierarchy.{Sound};
ghost use Rattle.fort_types.specs.Table.{HasRows};
ghost use Rattle.fort_member_fields.specs.Walks.{AreHeights, count_of};

use fort_base::{List, Memory, TypeTable};
use fort_types::DeclaredType;
use std::alloc::Global;

/// How many types each type is below, itself too: fewer for each type that it extends.
pub fn heights_in(
    alloc: Global,
    types: &[DeclaredType],
    table: &TypeTable,
) -> Result<List<usize>, Memory>
    requires rows { HasRows types.now table.now }
    requires sound { Sound types.now }
    ensures { IfOk result (AreHeights types.now) }
{
    counts_in(alloc, table.below.as_slice())
}

/// How many bits of each row are set.
fn counts_in(alloc: Global, rows: &[List<bool>]) -> Result<List<usize>, Memory>
    ensures { IfOk result (λ counts. counts ≡ map count_of rows.now) }
{
    let mut counts = List::new(alloc);
    for row in rows {
        counts.push(count(row.as_slice()))?;
    }
    Ok(counts)
}

/// How many bits of a row are set.
fn count(row: &[bool]) -> usize
    ensures { result ≡ count_of row.now }
{
    row.iter().filter(|set| **set).count()
}
