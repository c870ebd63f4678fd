//! What a worker has in hand between two locks: a task that it was lent, or a leg.
ghost use Rattle.std.specs.Prelude.{◌≡◌};
ghost use Rattle.fort_hall_machine.specs.Words.{IsFound};
ghost use Rattle.fort_hall_machine.specs.declared.parts.Found.{Found};

use fort_base::TaskId;
use fort_deck::Job;
use fort_hall_machine::{Found, Machine};
use std::marker::Model;

/// A task that was lent, and what its book had for it. The state in it is good: contracts see it as
/// what was found.
#[derive(Drop)]
pub struct Lent<M: Machine> {
    job: Job,
    found: Found<M::State>,
}

impl<M: Machine> Model for Lent<M> {
    ghost Value = { Found M.State };

    ghost view = { λ l. l.found };

    ghost invariant = { λ l. IsFound M.good l.found };
}

impl<M: Machine> Lent<M> {
    pub fn new(job: Job, found: Found<M::State>) -> Lent<M>
        requires { IsFound M.good found }
        ensures { result ≡ found }
    {
        Lent { job, found }
    }

    /// Whether anything was lent.
    pub fn is_some(&self) -> bool {
        !matches!(&self.found, Found::Nothing)
    }

    pub fn task(&self) -> TaskId {
        self.job.task
    }

    /// The job, and what was found.
    pub fn into_parts(self) -> (Job, Found<M::State>)
        ensures { IsFound M.good result.1 }
    {
        let Lent { job, found } = self;
        (job, found)
    }
}

/// A leg, which some worker has still to submit. Contracts see it as the leg.
#[derive(Drop)]
pub struct Sound<M: Machine> {
    leg: M::Leg,
}

impl<M: Machine> Model for Sound<M> {
    ghost Value = { M.Leg };

    ghost view = { λ s. s.leg };

    ghost invariant = { λ s. M.is_leg s.leg };
}

impl<M: Machine> Sound<M> {
    pub fn new(leg: M::Leg) -> Sound<M>
        requires { M.is_leg leg }
        ensures { result ≡ leg }
    {
        Sound { leg }
    }

    pub fn into_leg(self) -> M::Leg
        ensures same { result ≡ self }
        ensures is_leg { M.is_leg result }
    {
        let Sound { leg } = self;
        leg
    }
}

/// How a task goes back of which no leg was made.
#[derive(Clone, Copy, Debug, PartialEq, Eq)]
pub enum Back {
    /// It may be lent again.
    Put,
    /// It is left to others than the hall.
    Left,
}

impl Back {
    /// Gives a lent task back to its book.
    pub fn give<M: Machine>(self, machine: &M, book: &mut M::Book, task: u64)
        requires { M.keeps book.old }
        ensures keeps { M.keeps book.new }
        ensures same { (M.origin book.new ≡ M.origin book.old)
            × (M.history book.new ≡ M.history book.old) }
    {
        match self {
            Back::Put => machine.put_back(book, task),
            Back::Left => machine.leave(book, task),
        }
    }
}
