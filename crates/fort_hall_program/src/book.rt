//! A book with its tasks.
ghost use Rattle.std.specs.Prelude.{◌≡◌, [], IfOk, IfSome};
ghost use Rattle.fort_machine.specs.Effects.{FitsAll, both};
ghost use Rattle.fort_store_effects.specs.Again.{only_store, silent};
ghost use Rattle.fort_store_effects.specs.Levels.{effect_of, levels_of, seen};
ghost use Rattle.fort_hall_books.specs.Books.{IsClosed, IsKept};
ghost use Rattle.fort_hall_program.specs.States.{IsAt, IsNewBook};

use crate::tasks::Tasks;
use fort_base::{Memory, Shared};
use fort_core::{Program, Term};
use fort_frames_moves::{Stand, standing_of};
use fort_hall_books::{Book, Closed};
use fort_store_effects::{Layer, Layers};
use std::alloc::Global;
use std::mem;

/// A book, the store to which it has come, and its tasks.
#[derive(Drop)]
pub struct TaskBook {
    pub(crate) book: Book,
    /// The store, with nothing else; none once memory was wanting.
    pub(crate) at_hand: Option<Layers>,
    pub(crate) tasks: Tasks,
    /// The number of attempts round its tasks.
    pub(crate) depth: u32,
}

impl TaskBook {
    // A book without a leg, below so many attempts, whose only task is the whole term; it has none
    // where that isn't open, and has ended so.
    pub(crate) fn new(
        alloc: Global,
        inner: bool,
        view: Shared<Layers>,
        first: Shared<Term>,
        most: u64,
        depth: u32,
    ) -> Result<TaskBook, Memory>
        requires { (levels_of view).attempts ≡ [] }
        ensures { IfOk result (IsNewBook inner view first most) }
    {
        let store = view.get().again(alloc)?;
        let tasks = Tasks::new(alloc, is_open(first.get()))?;
        let book = Book::new(alloc, inner, view, first, most)?;
        Ok(TaskBook {
            book,
            at_hand: Some(store),
            tasks,
            depth,
        })
    }

    /// All that it took in, as legs over the layers on which it began.
    ///
    /// # Errors
    ///
    /// `Memory` where memory is wanting.
    pub fn close(self, alloc: Global, program: &Program) -> Result<Closed, Memory>
        requires { IsKept program.now self.book }
        ensures { IfOk result (IsClosed program.now self.book) }
    {
        self.book.close(alloc, program)
    }

    // What a leg did is done to the store at hand. Where memory is wanting there is none any more.
    #[tactic(auto, using(crate::proofs::Stores::silent_after, crate::proofs::Stores::room_alone))]
    pub(crate) fn go_on(&mut self, more: Layer)
        requires silent { effect_of more ≡ silent (effect_of more) }
        requires fits { IfSome self.old.at_hand (λ l. FitsAll (effect_of more) (seen (levels_of l))) }
        requires alone { IfSome self.old.at_hand (λ l. levels_of l ≡ only_store (seen (levels_of l))) }
        ensures book { self.new.book ≡ self.old.book }
        ensures now { IsAt (effect_of more) self.old.at_hand self.new.at_hand }
    {
        let Some(store) = mem::replace(&mut self.at_hand, None) else {
            return;
        };
        if let Ok(store) = store.take(more) {
            self.at_hand = Some(store);
        }
    }
}

// Whether a term is neither a value nor a throw.
fn is_open(term: &Term) -> bool {
    match standing_of(term) {
        Stand::Open => true,
        _ => false,
    }
}
