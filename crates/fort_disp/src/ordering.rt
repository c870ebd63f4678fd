//! The tables: a row for each set.
ghost use Rattle.std.specs.Prelude.{◌≡◌, ◌≤◌, length, IfOk};
ghost use Rattle.fort_disp.specs.Rows.{AreRows, IsRow};
ghost use Rattle.fort_disp.specs.Fits.{goes_before as is_before, HoldsNowhere, HoldsThere};

use crate::rows::Tables;
use fort_base::{DeclId, List, Memory};
use fort_core::Program;
use fort_value::are_below;
use std::alloc::Global;

// Whether a declaration is more specific than another one.
fn goes_before(program: &Program, number: DeclId, other: DeclId) -> bool
    ensures { result ≡ is_before program.now number other }
{
    let decl = match program.decls.get(number.0 as usize) {
        None => return false,
        Some(decl) => decl,
    };
    match program.decls.get(other.0 as usize) {
        None => false,
        Some(found) => are_below(program, &decl.parameters, &found.parameters),
    }
}

// The place of a declaration in a row: before the first one than which it is more specific.
fn place(program: &Program, row: &[DeclId], number: DeclId) -> usize
    ensures within { result ≤ length row.now }
    ensures passed { HoldsNowhere (is_before program.now number) row.now 0 result }
    ensures stands { HoldsThere (is_before program.now number) row.now result }
{
    for at in 0..row.len() {
        if goes_before(program, number, row[at]) {
            return at;
        }
    }
    row.len()
}

// The row of a set.
fn row_of(alloc: Global, program: &Program, members: &[DeclId]) -> Result<List<DeclId>, Memory>
    ensures { IfOk result (IsRow program.now members.now) }
{
    let mut row = Vec::new(alloc);
    for number in members {
        let at = place(program, row.as_slice(), *number);
        row.insert(at, *number)?;
    }
    Ok(List::from_vec(row))
}

/// The tables of a program. At most half the square of a set's declarations is compared for it.
/// The chapter "Calls".
///
/// # Errors
///
/// `Memory` where memory is wanting.
pub fn tables<'a>(alloc: Global, program: &'a Program) -> Result<Tables<'a>, Memory>
    ensures program { IfOk result (λ tables. tables.program.now ≡ program.now) }
    ensures rows { IfOk result (λ tables. AreRows program.now program.now.sets tables.rows) }
{
    let mut rows = List::new(alloc);
    for set in program.sets.as_slice() {
        rows.push(row_of(alloc, program, set.decls.as_slice())?)?;
    }
    Ok(Tables { program, rows })
}
