//! The rows of below: for each type, itself and the types above it.
//!
//! Each row takes the steps up from its type that lead anywhere new, so the order of the types
//! doesn't matter.
ghost use Rattle.std.specs.Prelude.{◌≡◌, ◌<◌, length, IfOk, OnOk};
ghost use Rattle.fort_types.specs.Hierarchy.{Path};
ghost use Rattle.fort_types.specs.Table.{IsExact};
ghost use Rattle.fort_types.specs.Supertypes.{mark, Reaches, ReachesEach, IsRow};

use crate::hierarchy::DeclaredType;
use crate::square::blank;
use fort_base::{List, Memory};
use std::alloc::Global;

/// The rows of below, exactly the paths of `extends`.
pub fn supertypes(alloc: Global, types: &[DeclaredType]) -> Result<List<List<bool>>, Memory>
    ensures { IfOk result (IsExact (Path types.now) (length types.now)) }
{
    let mut rows = List::new(alloc);
    for a in 0..types.len() {
        rows.push(row_of(alloc, types, a)?)?;
    }
    Ok(rows)
}

/// The row of one type. What is marked stands in a list once, and the list is walked until nothing
/// new is found.
#[tactic(auto, using(crate::proofs::Upwards::index_inside))]
fn row_of(alloc: Global, types: &[DeclaredType], a: usize) -> Result<List<bool>, Memory>
    requires { a < length types.now }
    ensures { IfOk result (IsRow (Path types.now a) (length types.now)) }
{
    let mut row = blank(alloc, types.len())?;
    row.set(a, true);
    let mut found = List::new(alloc);
    found.push(a)?;
    let mut done = 0;
    'upwards: while done < found.len() {
        let at = found.as_slice()[done];
        reach_each(types[at].extends.as_slice(), &mut row, &mut found)?;
        done += 1;
    }
    Ok(row)
}

/// Looks at each number of a list.
#[tactic(auto, using(crate::proofs::Upwards::none_reached, crate::proofs::Upwards::one_reached))]
fn reach_each(list: &[usize], row: &mut List<bool>, found: &mut List<usize>) -> Result<(), Memory>
    ensures { OnOk result
        (ReachesEach list.now (length list.now) row.old row.new found.old found.new) }
{
    for b in list {
        reach(*b, row, found)?;
    }
    Ok(())
}

/// Marks and lists a number of the row that isn't marked.
#[tactic(auto, using(crate::proofs::Upwards::is_known, crate::proofs::Upwards::is_fresh))]
fn reach(b: usize, row: &mut List<bool>, found: &mut List<usize>) -> Result<(), Memory>
    ensures { OnOk result (Reaches b row.old row.new found.old found.new) }
{
    if b >= row.len() {
        return Ok(());
    }
    if is_marked(row, b) {
        return Ok(());
    }
    found.push(b)?;
    row.set(b, true);
    Ok(())
}

/// Whether a place of a row is marked; none is past its end.
fn is_marked(row: &List<bool>, b: usize) -> bool
    ensures { result ≡ mark row.now b }
{
    match row.get(b) {
        Some(held) => *held,
        None => false,
    }
}
