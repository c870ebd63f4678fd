//! Meets by the rows of below: first what is below both, then what no other of these is above.
ghost use Rattle.std.specs.Prelude.{◌<◌, ◌≤◌, ◌^◌, ◌↔◌, IsTrue, IfOk, length, List as Seq};
ghost use Rattle.fort_types.specs.declared.hierarchy.DeclaredType.{DeclaredType};
ghost use Rattle.fort_types.specs.Table.{HasRows};
ghost use Rattle.fort_meet.specs.Meets.{AreMeets};
ghost use Rattle.fort_meet.specs.Rows.{Lists, IsInBoth, IsPassed, IsHighest};

use fort_base::{List, Memory, TypeId, TypeTable};
use fort_types::set_at;
use std::alloc::Global;

/// The meets of two declared types, in order of number: the declared types below both such that no
/// other declared type below both is above them.
///
/// That is said of whatever hierarchy the table has the rows. A number past the table has no meets.
/// The table has at most 2^32 types, which is as many as there are numbers. Where memory is wanting
/// there is no list. The chapter is "Types".
pub fn meets(alloc: Global, table: &TypeTable, a: TypeId, b: TypeId) -> Result<List<TypeId>, Memory>
    requires numbered { length table.now.below ≤ 2 ^ 32 }
    ensures { IfOk result (λ list. (h : Seq DeclaredType) → HasRows h table.now
        → AreMeets h a.0 b.0 list) }
{
    let rows = table.below.as_slice();
    let common = common(alloc, rows, a, b)?;
    highest(alloc, rows, common.as_slice())
}

/// The types whose rows have both places, in order of number.
fn common(alloc: Global, rows: &[List<bool>], a: TypeId, b: TypeId) -> Result<List<TypeId>, Memory>
    requires numbered { length rows.now ≤ 2 ^ 32 }
    ensures { IfOk result (Lists (IsInBoth rows.now a.0 b.0) (length rows.now)) }
{
    let mut list = List::new(alloc);
    for m in 0..rows.len() {
        if !is_in_both(rows, a.0 as usize, b.0 as usize, m) {
            continue;
        }
        list.push(TypeId(m as u32))?;
    }
    Ok(list)
}

/// Those of a list that no other one of the list is above, in order of number.
fn highest(alloc: Global, rows: &[List<bool>], common: &[TypeId]) -> Result<List<TypeId>, Memory>
    ensures { IfOk result (λ list. IsHighest rows.now common.now (length common.now) list) }
{
    let mut list = List::new(alloc);
    for m in common {
        if is_passed(rows, common, *m) {
            continue;
        }
        list.push(*m)?;
    }
    Ok(list)
}

/// Whether a type's row has both places.
fn is_in_both(rows: &[List<bool>], a: usize, b: usize, m: usize) -> bool
    ensures { IsTrue result ↔ IsInBoth rows.now a b m }
{
    set_at(rows, m, a) && set_at(rows, m, b)
}

/// Whether another one of a list is above a type.
fn is_passed(rows: &[List<bool>], list: &[TypeId], m: TypeId) -> bool
    ensures { IsTrue result ↔ IsPassed rows.now list.now m }
{
    for k in list {
        if *k != m && set_at(rows, m.0 as usize, k.0 as usize) {
            return true;
        }
    }
    false
}
