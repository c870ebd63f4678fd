//! An attempt: a book of its own, beside the state at which it was opened.
ghost use Rattle.std.specs.Prelude.{◌≡◌, true};

use crate::lent::{Back, Lent, Sound};
use crate::outcome::Outcome;
use fort_base::{BookId, Memory, TaskId};
use fort_deck::Job;
use fort_hall_machine::Machine;
use std::marker::Model;

/// An attempt: the task that opened it, the state at which that stands, and the book, whose entries
/// are a run from that state's form, whoever has it. Contracts see it as the book.
#[derive(Drop)]
pub struct Attempt<M: Machine> {
    number: BookId,
    parent: Job,
    at: M::State,
    book: M::Book,
}

impl<M: Machine> Model for Attempt<M> {
    ghost Value = { M.Book };

    ghost view = { λ a. a.book };

    ghost invariant = { λ a. M.good a.at × M.keeps a.book × (M.origin a.book ≡ M.form a.at) };
}

/// What a worker owes to a book once an attempt has ended: its one leg, or the task back that
/// opened it.
#[derive(Drop)]
pub enum Due<M: Machine> {
    Leg(BookId, Sound<M>),
    Left(Job),
}

impl<M: Machine> Attempt<M> {
    /// Opens an attempt of the form at which the task of the job stands.
    ///
    /// # Errors
    ///
    /// `Memory` where memory is wanting.
    pub fn begin(
        machine: &M,
        number: BookId,
        parent: Job,
        at: M::State,
    ) -> Result<Attempt<M>, Memory>
        requires { M.good at }
    {
        let book = machine.begin(&at)?;
        Ok(Attempt {
            number,
            parent,
            at,
            book,
        })
    }

    pub fn number(&self) -> BookId {
        self.number
    }

    /// Lends a task.
    ///
    /// # Errors
    ///
    /// `Memory` where memory is wanting.
    pub fn checkout(&mut self, machine: &M, task: TaskId) -> Result<Lent<M>, Memory> {
        let found = machine.checkout(&mut self.book, task.0)?;
        let book = self.number;
        Ok(Lent::new(Job { book, task }, found))
    }

    /// Lends a task that can be lent, from this number on and then round.
    ///
    /// # Errors
    ///
    /// `Memory` where memory is wanting.
    pub fn seek(&mut self, machine: &M, from: u64) -> Result<Option<Lent<M>>, Memory> {
        match machine.look(&self.book, from) {
            Some(task) => Ok(Some(self.checkout(machine, TaskId(task))?)),
            None => Ok(None),
        }
    }

    /// Takes a lent task back.
    pub fn take_back(&mut self, machine: &M, task: TaskId, back: Back) {
        back.give(machine, &mut self.book, task.0);
    }

    /// Appends a leg where it fits, as one entry that names the pass.
    ///
    /// # Errors
    ///
    /// `Memory` where memory is wanting.
    pub fn submit(
        &mut self,
        machine: &M,
        leg: M::Leg,
        pass: u64,
        wanted: u32,
    ) -> Result<Outcome<M>, Memory>
        requires { M.is_leg leg }
    {
        let (submitted, waste) = machine.submit(&mut self.book, leg, pass, wanted)?;
        Ok(Outcome::new(self.number, submitted, waste))
    }

    pub fn ended(&self, machine: &M) -> bool
        ensures { result ≡ M.ended self.now }
    {
        machine.ended(&self.book)
    }

    /// What an attempt that has ended is to the book of the task that opened it.
    ///
    /// # Errors
    ///
    /// `Memory` where memory is wanting.
    pub fn finish(self, machine: &M) -> Result<Due<M>, Memory>
        requires { M.ended self ≡ true }
    {
        let Attempt {
            parent,
            at,
            book,
            ..
        } = self;
        match machine.finish(at, book)? {
            Some(leg) => Ok(Due::Leg(parent.book, Sound::new(leg))),
            None => Ok(Due::Left(parent)),
        }
    }
}
