//! The numbers of names by their spellings.
ghost use Rattle.std.specs.Prelude.{◌≡◌, map, IfOk, OnOk};
ghost use Rattle.fort_spawn_prelude.specs.Numbers as numbers;
ghost use Rattle.fort_spawn_prelude.specs.Prelude.{id_in};
ghost use Rattle.fort_spawn_prelude.specs.Table.{entry_of};

use crate::table::{Row, Shape};
use fort_base::{Bytes, List, Memory, NameId};
use std::alloc::Global;

/// The number of the first name that is spelled so, or the number behind all.
pub fn number_of(names: &[Bytes], spelling: &[u8]) -> usize
    ensures { result ≡ numbers.number_of names.now spelling.now }
{
    for i in 0..names.len() {
        if spelling == names[i].as_slice() {
            return i;
        }
    }
    names.len()
}

/// The same as the number of a name.
///
/// # Errors
///
/// `Memory` where it is no number of 32 bits.
pub fn id_of(names: &[Bytes], spelling: &[u8]) -> Result<NameId, Memory>
    ensures { IfOk result (λ id. id ≡ id_in names.now spelling.now) }
{
    match u32::try_from(number_of(names, spelling)) {
        Ok(number) => Ok(NameId(number)),
        Err(_) => Err(Memory),
    }
}

/// Puts a spelling behind the names where none of them is spelled so.
fn add_name(alloc: Global, names: &mut List<Bytes>, spelling: &[u8]) -> Result<(), Memory>
    ensures { OnOk result (names.new ≡ numbers.with_spelling names.old spelling.now) }
{
    if number_of(names.as_slice(), spelling) < names.len() {
        return Ok(());
    }
    names.push(List::from_slice(alloc, spelling)?)
}

/// Puts the spelling of a row behind the names, where the row is a name and none is spelled so.
fn add_row(alloc: Global, names: &mut List<Bytes>, row: Row) -> Result<(), Memory>
    ensures { OnOk result (names.new ≡ numbers.with_part names.old (entry_of row.entry).part) }
{
    match row.1 {
        Shape::Name => add_name(alloc, names, row.2),
        _ => Ok(()),
    }
}

/// Puts the spellings of rows behind the names, each where none is spelled so.
pub(crate) fn add_names(alloc: Global, names: &mut List<Bytes>, rows: &[Row]) -> Result<(), Memory>
    ensures { OnOk result (names.new ≡ numbers.extended_by names.old (map entry_of rows.now)) }
{
    for i in 0..rows.len() {
        add_row(alloc, names, rows[i])?;
    }
    Ok(())
}
