//! Shelves: the attempts that one worker opened, under one lock.
ghost use Rattle.std.specs.Prelude.{◌≡◌, ◌<◌, length, true, IfOk, IfSome};

use crate::attempt::Attempt;
use crate::lent::{Back, Lent};
use crate::outcome::Outcome;
use fort_base::{BookId, Memory};
use fort_deck::Job;
use fort_hall_machine::{Found, Machine};
use std::alloc::Global;

/// Attempts on which several workers may work.
#[derive(Drop)]
pub struct Shelf<M: Machine> {
    attempts: Vec<Attempt<M>>,
}

/// What a shelf answers to a leg.
#[derive(Drop)]
pub struct Answer<M: Machine> {
    /// What the leg came to, or the leg itself where no such attempt is there.
    pub came: Result<Outcome<M>, M::Leg>,
    /// The attempt, where it has ended and came off the shelf.
    pub over: Option<Attempt<M>>,
}

impl<M: Machine> Shelf<M> {
    pub fn new(alloc: Global) -> Shelf<M> {
        Shelf {
            attempts: Vec::new(alloc),
        }
    }

    // Where the attempt of this number stands.
    fn place(&self, number: BookId) -> Option<usize>
        ensures { IfSome result (λ i. i < length self.now.attempts.items) }
    {
        for i in 0..self.attempts.len() {
            if self.attempts[i].number() == number {
                return Some(i);
            }
        }
        None
    }

    /// Puts an attempt on the shelf.
    ///
    /// # Errors
    ///
    /// `Memory` where memory is wanting; the attempt is dropped.
    pub fn put(&mut self, attempt: Attempt<M>) -> Result<(), Memory> {
        self.attempts.push(attempt)?;
        Ok(())
    }

    /// Lends a task of an attempt that is there.
    ///
    /// # Errors
    ///
    /// `Memory` where memory is wanting.
    pub fn checkout(&mut self, machine: &M, job: Job) -> Result<Lent<M>, Memory> {
        match self.place(job.book) {
            Some(i) => self.attempts[i].checkout(machine, job.task),
            None => Ok(Lent::new(job, Found::Nothing)),
        }
    }

    /// Lends a task that can be lent, of any attempt that is there.
    ///
    /// # Errors
    ///
    /// `Memory` where memory is wanting.
    pub fn seek(&mut self, machine: &M, from: u64) -> Result<Option<Lent<M>>, Memory> {
        for attempt in &mut self.attempts {
            if let Some(lent) = attempt.seek(machine, from)? {
                return Ok(Some(lent));
            }
        }
        Ok(None)
    }

    /// Submits a leg to the attempt of this number. An attempt that has ended comes off the shelf.
    ///
    /// # Errors
    ///
    /// `Memory` where memory is wanting.
    pub fn submit(
        &mut self,
        machine: &M,
        number: BookId,
        leg: M::Leg,
        pass: u64,
        wanted: u32,
    ) -> Result<Answer<M>, Memory>
        requires { M.is_leg leg }
        ensures { IfOk result (λ a. IfSome a.over (λ attempt. M.ended attempt ≡ true)) }
    {
        let Some(i) = self.place(number) else {
            return Ok(Answer {
                came: Err(leg),
                over: None,
            });
        };
        let outcome = self.attempts[i].submit(machine, leg, pass, wanted)?;
        let over = self.take_ended(machine, i);
        Ok(Answer {
            came: Ok(outcome),
            over,
        })
    }

    /// Takes a lent task back. The attempt comes off the shelf where it has ended.
    pub fn take_back(&mut self, machine: &M, job: Job, back: Back) -> Option<Attempt<M>>
        ensures { IfSome result (λ a. M.ended a ≡ true) }
    {
        let i = self.place(job.book)?;
        self.attempts[i].take_back(machine, job.task, back);
        self.take_ended(machine, i)
    }

    // Takes an attempt off that has ended.
    fn take_ended(&mut self, machine: &M, i: usize) -> Option<Attempt<M>>
        requires { i < length self.old.attempts.items }
        ensures { IfSome result (λ a. M.ended a ≡ true) }
    {
        if !self.attempts[i].ended(machine) {
            return None;
        }
        Some(self.attempts.swap_remove(i))
    }
}
