//! The decks and shelves of a run.
ghost use Rattle.std.specs.Prelude.{◌≡◌, ◌<◌, length, IfOk};

use fort_base::Memory;
use fort_hall_machine::Machine;
use fort_hall_work::{Own, Shelf, Victim};
use std::alloc::Global;
use std::sync::Mutex;

/// So many decks.
pub(crate) fn decks(alloc: Global, count: u32) -> Result<Vec<Own>, Memory>
    ensures { IfOk result (λ v. length v.items ≡ count) }
{
    let mut owns = Vec::new(alloc);
    for _i in 0..count {
        owns.push(Own::new(alloc)?)?;
    }
    Ok(owns)
}

/// For each deck the rights to steal from all others.
pub(crate) fn rights(alloc: Global, owns: &mut Vec<Own>) -> Result<Vec<Vec<Victim>>, Memory>
    ensures long { IfOk result (λ v. length v.items ≡ length owns.old.items) }
    ensures same { length owns.new.items ≡ length owns.old.items }
{
    let count = owns.len();
    let mut rows = Vec::new(alloc);
    for i in 0..count {
        rows.push(victims(alloc, owns, i)?)?;
    }
    Ok(rows)
}

// The rights to steal from all decks but this one, the next deck first.
fn victims(alloc: Global, owns: &mut Vec<Own>, mine: usize) -> Result<Vec<Victim>, Memory>
    ensures { length owns.new.items ≡ length owns.old.items }
{
    let mut row = Vec::new(alloc);
    for j in mine.saturating_add(1)..owns.len() {
        row.push(owns[j].victim()?)?;
    }
    for j in 0..mine.min(owns.len()) {
        row.push(owns[j].victim()?)?;
    }
    Ok(row)
}

/// A shelf for each worker.
pub(crate) fn shelves<M: Machine>(
    alloc: Global,
    count: u32,
) -> Result<Vec<Mutex<Shelf<M>>>, Memory> {
    let mut all = Vec::new(alloc);
    for _i in 0..count {
        all.push(Mutex::new(Shelf::new(alloc)))?;
    }
    Ok(all)
}
