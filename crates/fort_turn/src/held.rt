//! The turn and its passes, as they lie in memory.
ghost use Rattle.std.specs.Prelude.{◌≡◌};

use crate::grows::Grows;
use crate::rule::InTurn;
use crate::view::View;
use atomic_table::{Seat, Table};
use std::alloc::Global;
use std::snapshot::Snapshot;

// The word of the next place, and the word of the place that is served.
pub(crate) const NEXT: usize = 0;

pub(crate) const SERVING: usize = 1;

/// A book that threads take in turn. It is shared by reference, and each thread has a pass of its
/// own.
///
/// The table has two words, the next place and the place that is served, and one slot, in which the
/// book lies while nobody holds it.
#[derive(Drop)]
pub struct Turn<B: Grows> {
    pub(crate) table: Table<Option<B>, View<B>, Snapshot<B>, InTurn, Global>,
    ghost counts: { (table.shared.table_id.words ≡ 2) × (table.shared.table_id.slots ≡ 1) },
}

/// One thread's part in a turn: with it the thread takes the book and gives it back.
///
/// A pass that is dropped while it waits or holds stops its turn for good.
#[derive(Drop)]
pub struct Pass<B> {
    pub(crate) seat: Seat<Option<B>, View<B>>,
    pub(crate) number: u64,
    pub(crate) made: u64,
    pub(crate) place: u64,
}
