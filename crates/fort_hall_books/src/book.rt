//! A book.
ghost use Rattle.std.specs.Prelude.{◌≡◌, ◌↔◌, ◌-◌, [], length, IfOk, IsTrue};
ghost use Rattle.fort_store_effects.specs.Levels.{effect_of};
ghost use Rattle.fort_hall_books.specs.Books.{IsNew};

use fort_base::{List, Memory, Shared};
use fort_core::{Pick, Term};
use fort_store_effects::{Layer, Layers};
use std::alloc::Global;

/// A leg that was appended: the pass that did, and its picks.
#[derive(Drop)]
pub struct Entry {
    pub pass: u64,
    pub picks: List<Pick>,
}

/// Where a machine began, the legs that were appended so far, and what they led to.
#[derive(Drop)]
pub struct Book {
    /// Whether the machine is an attempt's.
    pub(crate) inner: bool,
    /// Layers that stay as they are, with the store on which it began.
    pub(crate) view: Shared<Layers>,
    /// The term with which it began.
    pub(crate) first: Shared<Term>,
    /// What it may cost.
    pub(crate) most: u64,
    /// What was done, over the view.
    pub(crate) done: Layer,
    pub(crate) entries: List<Entry>,
    /// The term to which it has come.
    pub(crate) term: Shared<Term>,
}

/// A book that takes in nothing more.
#[derive(Drop)]
pub struct Closed {
    pub view: Shared<Layers>,
    pub done: Layer,
    pub picks: List<Pick>,
    pub term: Shared<Term>,
}

impl Book {
    /// A book without a leg, of a machine that begins at a term on the store that layers show, and
    /// may cost so much.
    ///
    /// # Errors
    ///
    /// `Memory` where memory is wanting.
    #[tactic(auto, using(crate::proofs::Books::new_book))]
    pub fn new(
        alloc: Global,
        inner: bool,
        view: Shared<Layers>,
        first: Shared<Term>,
        most: u64,
    ) -> Result<Book, Memory>
        ensures { IfOk result (IsNew inner view first most) }
    {
        let term = first.share()?;
        Ok(Book {
            inner,
            view,
            first,
            most,
            done: Layer::new(alloc),
            entries: List::new(alloc),
            term,
        })
    }

    /// The term to which it has come, whose parts its tasks are.
    pub fn term(&self) -> &Shared<Term>
        ensures { result.now ≡ self.now.term }
    {
        &self.term
    }

    /// What was done, over the layers on which it began.
    pub fn done(&self) -> &Layer
        ensures { result.now ≡ self.now.done }
    {
        &self.done
    }

    /// Whether its machine is an attempt's.
    pub fn is_inner(&self) -> bool
        ensures { result ≡ self.now.inner }
    {
        self.inner
    }

    /// What it may still cost.
    pub fn left(&self) -> u64
        ensures { result ≡ self.now.most - (effect_of self.now.done).cost }
    {
        self.most.saturating_sub(self.done.cost())
    }

    /// The number of its entries.
    pub fn len(&self) -> usize
        ensures { result ≡ length self.now.entries }
    {
        self.entries.len()
    }

    /// Whether it has no entry.
    pub fn is_empty(&self) -> bool
        ensures { IsTrue result ↔ (self.now.entries ≡ []) }
    {
        self.entries.is_empty()
    }
}
