//! The table of a hierarchy: its rows closed under the rules until nothing is added.
ghost use Rattle.std.specs.Prelude.{◌≡◌, ◌<◌, ◌≤◌, IfOk, length};
ghost use Rattle.std.specs.Bool.{OnFalse, OnTrue};
ghost use Rattle.fort_types.specs.Hierarchy.{Path, DeclaredApart};
ghost use Rattle.fort_types.specs.Table.{IsExact, HasRows};
ghost use Rattle.fort_types.specs.Square.{unset};
ghost use Rattle.fort_types.specs.Rounds.{Holds, Progress, ClosedAt, ClosedIn, ClosedTo};

use crate::hierarchy::DeclaredType;
use crate::parting::parted;
use crate::square::Square;
use crate::supertypes::supertypes;
use fort_base::{List, Memory, TypeTable};
use std::alloc::Global;

/// The table of the declared types, each of whose numbers is its place in the list: a type is below
/// another exactly where a path of `extends` leads there, and apart from another exactly where the
/// rules say so.
///
/// Any list will do: what makes a hierarchy an accepted one can be read off its table. Where memory
/// is wanting there is no table.
pub fn rows(alloc: Global, hierarchy: &[DeclaredType]) -> Result<TypeTable, Memory>
    ensures { IfOk result (HasRows hierarchy.now) }
{
    let below = supertypes(alloc, hierarchy)?;
    let apart = aparts(alloc, hierarchy, &below)?;
    Ok(TypeTable { below, apart })
}

/// The rows of apart.
fn aparts(
    alloc: Global,
    types: &[DeclaredType],
    below: &List<List<bool>>,
) -> Result<List<List<bool>>, Memory>
    requires { IsExact (Path types.now) (length types.now) below.now }
    ensures { IfOk result (IsExact (DeclaredApart types.now) (length types.now)) }
{
    let order = by_height(alloc, below)?;
    let mut rows = Square::new(alloc, types.len())?;
    'rounds: while grown(types, below, &order, &mut rows) {}
    Ok(rows.into_rows())
}

/// The types with fewest supertypes first, each after how many it has. The order only makes the
/// rounds few.
fn by_height(alloc: Global, below: &List<List<bool>>) -> Result<Vec<(usize, usize)>, Memory> {
    let mut order = Vec::new(alloc);
    for (number, row) in below.as_slice().iter().enumerate() {
        let height = row.as_slice().iter().filter(|set| **set).count();
        order.push((height, number))?;
    }
    order.sort()?;
    Ok(order)
}

/// Adds bits, and says whether some may be missing.
fn grown(
    types: &[DeclaredType],
    below: &List<List<bool>>,
    order: &[(usize, usize)],
    rows: &mut Square,
) -> bool
    requires below { IsExact (Path types.now) (length types.now) below.now }
    requires holds { Holds types.now rows.old }
    ensures holds { Holds types.now rows.new }
    ensures closed { OnFalse result (ClosedTo types.now rows.new (length types.now)) }
    ensures fewer { OnTrue result (unset rows.new < unset rows.old) }
{
    sweep(types, below, order, rows);
    round(types, below, rows)
}

/// Adds bits from the top of the hierarchy down, for what is inherited, and from the bottom up, for
/// what is listed.
fn sweep(
    types: &[DeclaredType],
    below: &List<List<bool>>,
    order: &[(usize, usize)],
    rows: &mut Square,
)
    requires below { IsExact (Path types.now) (length types.now) below.now }
    requires holds { Holds types.now rows.old }
    ensures holds { Holds types.now rows.new }
    ensures no_more { unset rows.new ≤ unset rows.old }
{
    for (_, a) in order {
        grow_known(types, below, rows, *a);
    }
    for i in 0..order.len() {
        let (_, a) = order[order.len() - 1 - i];
        grow_known(types, below, rows, a);
    }
}

/// Adds bits to a row, where there is such a row.
fn grow_known(types: &[DeclaredType], below: &List<List<bool>>, rows: &mut Square, a: usize)
    requires below { IsExact (Path types.now) (length types.now) below.now }
    requires holds { Holds types.now rows.old }
    ensures holds { Holds types.now rows.new }
    ensures no_more { unset rows.new ≤ unset rows.old }
{
    if a < types.len() {
        let _ = grow_row(types, below, rows, a);
    }
}

/// Adds bits to each row, and says whether it added any.
#[tactic(auto, using(crate::proofs::Closure::round_step, crate::proofs::Closure::no_step))]
fn round(types: &[DeclaredType], below: &List<List<bool>>, rows: &mut Square) -> bool
    requires below { IsExact (Path types.now) (length types.now) below.now }
    requires holds { Holds types.now rows.old }
    ensures holds { Holds types.now rows.new }
    ensures progress { Progress rows.old rows.new result
        (ClosedTo types.now rows.old (length types.now)) }
{
    let mut grown = false;
    for a in 0..types.len() {
        grown |= grow_row(types, below, rows, a);
    }
    grown
}

/// Adds bits to a row, and says whether it added any.
#[tactic(auto, using(crate::proofs::Closure::row_step, crate::proofs::Closure::no_step))]
fn grow_row(types: &[DeclaredType], below: &List<List<bool>>, rows: &mut Square, a: usize) -> bool
    requires below { IsExact (Path types.now) (length types.now) below.now }
    requires holds { Holds types.now rows.old }
    requires inside { a < length types.now }
    ensures holds { Holds types.now rows.new }
    ensures progress { Progress rows.old rows.new result
        (ClosedIn types.now rows.old a (length types.now)) }
{
    let mut grown = false;
    for b in 0..types.len() {
        grown |= grow_at(types, below, rows, a, b);
    }
    grown
}

/// Sets a bit where one use of the rules asks for it, and says whether it wasn't set before.
#[tactic(auto, using(crate::proofs::Closure::no_step, crate::proofs::Closure::one_step))]
fn grow_at(
    types: &[DeclaredType],
    below: &List<List<bool>>,
    rows: &mut Square,
    a: usize,
    b: usize,
) -> bool
    requires below { IsExact (Path types.now) (length types.now) below.now }
    requires holds { Holds types.now rows.old }
    requires row { a < length types.now }
    requires column { b < length types.now }
    ensures holds { Holds types.now rows.new }
    ensures progress { Progress rows.old rows.new result (ClosedAt types.now rows.old a b) }
{
    if rows.at(a, b) {
        return false;
    }
    if !parted(types, below, rows, a, b) {
        return false;
    }
    rows.set(a, b);
    true
}
