//! What a worker has for itself.
ghost use Rattle.std.specs.Prelude.{◌≡◌};

use crate::attempt::{Attempt, Due};
use crate::decks::{Own, Victim};
use crate::lent::Lent;
use crate::seat::Seat;
use fort_base::BookId;
use fort_deck::Job;
use fort_hall_machine::{Machine, Room};

// After so many turns with nothing to do a worker looks even where nothing was offered.
const OFTEN: u32 = 256;

/// How a worker looks for work where no deck has any.
#[derive(Drop, Clone, Copy, Debug, PartialEq, Eq)]
pub struct Looks {
    /// From where it looks through a book.
    pub from: u64,
    /// How often something had been offered when its last look found nothing.
    pub missed: Option<u64>,
    /// Turns in a row with nothing to do.
    pub idle: u32,
}

/// One worker: its seat in the turn, its deck, those from which it steals, and what it has in hand.
#[derive(Drop)]
pub struct Worker<M: Machine> {
    pub seat: Seat<M>,
    pub own: Own,
    pub victims: Vec<Victim>,
    /// What it goes on with.
    pub lent: Option<Lent<M>>,
    /// What it owes to the parent of an attempt that has ended.
    pub due: Option<Due<M>>,
    /// An attempt that no other worker knows: it has one task, which this worker has.
    pub alone: Option<Attempt<M>>,
    pub looks: Looks,
    /// How many attempts it opened.
    pub opened: u64,
    /// The next number for a new location.
    pub fresh: u64,
}

impl Looks {
    // Whether a look may find something that the last one didn't.
    pub fn may_find(&self, offers: u64) -> bool {
        match self.missed {
            Some(missed) => missed != offers || self.idle % OFTEN == OFTEN - 1,
            None => true,
        }
    }
}

impl<M: Machine> Worker<M> {
    /// A worker with nothing in hand, whose new locations have numbers from `fresh` on.
    pub fn new(seat: Seat<M>, own: Own, victims: Vec<Victim>, fresh: u64) -> Worker<M>
        ensures { result.seat ≡ seat }
    {
        Worker {
            seat,
            own,
            victims,
            lent: None,
            due: None,
            alone: None,
            looks: Looks {
                from: 0,
                missed: None,
                idle: 0,
            },
            opened: 0,
            fresh,
        }
    }

    /// Its seat; all else is dropped.
    pub fn into_seat(self) -> Seat<M>
        ensures { result ≡ self.seat }
    {
        let Worker { seat, .. } = self;
        seat
    }

    /// Its own job, else a stolen one.
    pub fn at_hand(&mut self) -> Option<Job>
        ensures { self.new.seat ≡ self.old.seat }
    {
        if let Some(job) = self.own.own() {
            return Some(job);
        }
        for victim in &mut self.victims {
            if let Some(job) = victim.steal() {
                return Some(job);
            }
        }
        None
    }

    /// What it may use for a leg.
    pub fn room(&self, worker: u32, most: u64) -> Room {
        Room {
            from: self.fresh,
            most,
            worker,
        }
    }

    /// The number of the next attempt that it opens. Of `count` workers each has its own.
    pub fn next_number(&mut self, worker: u32, count: u64) -> BookId
        ensures { self.new.seat ≡ self.old.seat }
    {
        self.opened = self.opened.wrapping_add(1);
        BookId(
            self.opened
                .wrapping_mul(count)
                .wrapping_add(u64::from(worker)),
        )
    }
}
