//! A worker's own deck, and the right to steal from another's.
ghost use Rattle.std.specs.Prelude.{◌≡◌};
ghost use Rattle.std.specs.Arc.{arc_value};
ghost use Rattle.fort_deck.specs.Decks.{IsOwnerOf, IsThiefOf};

use fort_base::{BookId, Memory, TaskId};
use fort_deck::{Deck, Job, Owner, Thief};
use std::alloc::Global;
use std::sync::Arc;

/// A worker's own deck, with the right to put and to take.
#[derive(Drop)]
pub struct Own {
    deck: Arc<Deck>,
    owner: Owner,
    ghost of: { IsOwnerOf (arc_value deck) owner },
}

/// A thief, with the deck from which it steals.
#[derive(Drop)]
pub struct Victim {
    deck: Arc<Deck>,
    thief: Thief,
    ghost of: { IsThiefOf (arc_value deck) thief },
}

impl Own {
    /// A deck with no job.
    ///
    /// # Errors
    ///
    /// `Memory` where memory is wanting.
    pub fn new(alloc: Global) -> Result<Own, Memory> {
        let (deck, owner) = Deck::new(alloc)?;
        let deck = Arc::new(alloc, deck)?;
        Ok(Own { deck, owner })
    }

    /// The right to steal from this deck.
    ///
    /// # Errors
    ///
    /// `Memory` where memory is wanting.
    pub fn victim(&mut self) -> Result<Victim, Memory> {
        let deck = self.deck.clone()?;
        let thief = self.deck.thief(&mut self.owner)?;
        Ok(Victim { deck, thief })
    }

    /// Puts new tasks of a book, and says whether the deck took them all. What it doesn't take is
    /// found by who looks through the books.
    pub fn put_all(&mut self, book: BookId, first: u64, count: u64) -> bool {
        let mut all = true;
        for i in 0..count {
            let task = TaskId(first.wrapping_add(i));
            if self.deck.put(&mut self.owner, Job { book, task }).is_err() {
                all = false;
            }
        }
        all
    }

    /// The job that was put last and is still there.
    pub fn own(&mut self) -> Option<Job> {
        self.deck.own(&mut self.owner)
    }
}

impl Victim {
    /// The job that was put first and is still there.
    pub fn steal(&mut self) -> Option<Job> {
        self.deck.steal(&mut self.thief)
    }
}
