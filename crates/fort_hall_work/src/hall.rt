//! The hall: what its workers share.
use crate::board::Board;
use crate::rooted::Rooted;
use crate::shelf::Shelf;
use fort_base::BookId;
use fort_hall_machine::Machine;
use fort_turn::Turn;
use std::sync::Mutex;

/// The number of the root's book. Attempts have others.
pub const ROOT: BookId = BookId(0);

/// What the workers share: the machine, the root's book in a turn, a shelf for each worker, and the
/// words beside them.
#[derive(Drop)]
pub struct Hall<'a, M: Machine> {
    pub machine: &'a M,
    pub turn: Turn<Rooted<M>>,
    pub shelves: Vec<Mutex<Shelf<M>>>,
    pub board: Board,
    /// What a leg may cost.
    pub most: u64,
}

impl<'a, M: Machine> Hall<'a, M> {
    // The shelf for this book.
    pub(crate) fn shelf(&self, book: BookId) -> Option<&Mutex<Shelf<M>>> {
        let count = self.shelves.len() as u64;
        if count == 0 {
            return None;
        }
        self.shelves.get((book.0 % count) as usize)
    }
}
