//! The root's book, as the turn hands it round.
ghost use Rattle.std.specs.Prelude.{◌≡◌, ◌≤◌, ◌<◌, ◌^◌, length, take, drop, MatchResult};
ghost use Rattle.fort_hall_work.specs.Grown.{HasGrown};

use crate::hall::ROOT;
use crate::lent::{Back, Lent};
use crate::outcome::Outcome;
use fort_base::{Memory, TaskId};
use fort_deck::Job;
use fort_hall_machine::{Found, Machine};
use fort_turn::Grows;
use std::marker::Model;

/// The root's book: its entries are a run from its origin, whenever it is taken. Contracts see it
/// as the book.
#[derive(Drop)]
pub struct Rooted<M: Machine> {
    book: M::Book,
}

impl<M: Machine> Model for Rooted<M> {
    ghost Value = { M.Book };

    ghost view = { λ r. r.book };

    ghost invariant = { λ r. M.keeps r.book };
}

impl<M: Machine> Grows for Rooted<M> {
    ghost Entry = { M.Entry };

    ghost Origin = { M.Origin };

    ghost history = { M.history };

    ghost origin = { M.origin };

    ghost by = { M.by };

    fn length(&self) -> u64 {
        M::length(&self.book)
    }
}

impl<M: Machine> Rooted<M> {
    pub fn new(book: M::Book) -> Rooted<M>
        requires { M.keeps book }
        ensures { result ≡ book }
    {
        Rooted { book }
    }

    pub fn into_book(self) -> M::Book
        ensures same { result ≡ self }
        ensures keeps { M.keeps result }
    {
        let Rooted { book } = self;
        book
    }

    /// What the type says.
    pub fn kept(&self)
        ensures { M.keeps self.now }
    {
        let _book = &self.book;
    }

    /// The history has fewer entries than there are numbers.
    pub fn counted(&self)
        ensures { length (M.history self.now) < 2 ^ 64 }
    {
        let _count = M::length(&self.book);
    }

    /// Lends a task.
    ///
    /// # Errors
    ///
    /// `Memory` where memory is wanting.
    pub fn checkout(&mut self, machine: &M, task: TaskId) -> Result<Lent<M>, Memory>
        ensures { (M.origin self.new ≡ M.origin self.old)
            × (M.history self.new ≡ M.history self.old) }
    {
        let found = machine.checkout(&mut self.book, task.0)?;
        Ok(Lent::new(Job { book: ROOT, task }, found))
    }

    /// Lends a task that can be lent, from this number on and then round.
    ///
    /// # Errors
    ///
    /// `Memory` where memory is wanting.
    pub fn seek(&mut self, machine: &M, from: u64) -> Result<Option<Lent<M>>, Memory>
        ensures { (M.origin self.new ≡ M.origin self.old)
            × (M.history self.new ≡ M.history self.old) }
    {
        match machine.look(&self.book, from) {
            Some(task) => Ok(Some(self.checkout(machine, TaskId(task))?)),
            None => Ok(None),
        }
    }

    /// Takes a lent task back.
    pub fn take_back(&mut self, machine: &M, task: TaskId, back: Back)
        ensures { (M.origin self.new ≡ M.origin self.old)
            × (M.history self.new ≡ M.history self.old) }
    {
        back.give(machine, &mut self.book, task.0);
    }

    /// Appends a leg where it fits, as one entry that names the pass.
    ///
    /// # Errors
    ///
    /// `Memory` where memory is wanting; the history is as it was.
    pub fn submit(
        &mut self,
        machine: &M,
        leg: M::Leg,
        pass: u64,
        wanted: u32,
    ) -> Result<Outcome<M>, Memory>
        requires { M.is_leg leg }
        ensures origin { M.origin self.new ≡ M.origin self.old }
        ensures history { MatchResult result (λ o. HasGrown M.by pass (M.history self.old) o.done (M.history self.new))
            (λ _. M.history self.new ≡ M.history self.old) }
    {
        let (submitted, waste) = machine.submit(&mut self.book, leg, pass, wanted)?;
        Ok(Outcome::new(ROOT, submitted, waste))
    }

    pub fn ended(&self, machine: &M) -> bool
        ensures { result ≡ M.ended self.now }
    {
        machine.ended(&self.book)
    }

    /// Copies bytes of the output from a place on into the front of `into`.
    pub fn output_at(&self, machine: &M, from: u64, into: &mut [u8]) -> usize
        requires { from ≤ length (M.output self.now) }
        ensures count { result ≤ length into.old }
        ensures bytes { take result into.new ≡ take result (drop from (M.output self.now)) }
    {
        machine.output_at(&self.book, from, into)
    }
}
