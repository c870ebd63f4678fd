//! A deck, its owner, its thieves and its rest, as they lie in memory.
ghost use Rattle.fort_deck.specs.Resting.{RestsOwner, RestsAlone, IsThief};

use crate::job::Job;
use crate::rule::Dealing;
use crate::view::View;
use crossbeam_deque::{Pass, Stealer, Worker};
use std::alloc::Global;

/// So many jobs a deck takes before a `put` may be refused.
pub const CAPACITY: usize = 64;

/// Jobs in a row. The deck is shared by reference between its owner and its thieves.
#[derive(Drop)]
pub struct Deck {
    pub(crate) handle: Stealer<Job, Global, View, Dealing>,
}

/// The right to put jobs on a deck, and to take them back at the same end.
#[derive(Drop)]
pub struct Owner {
    pub(crate) worker: Worker<Job, Global, View, Dealing>,
    ghost rests: { RestsOwner worker },
}

/// The right to take jobs at the other end.
#[derive(Drop)]
pub struct Thief {
    pub(crate) pass: Pass<Job, View>,
    ghost steals: { IsThief pass },
}

/// What is left of a deck, for its owner alone.
#[derive(Drop)]
pub struct Rest {
    pub(crate) worker: Worker<Job, Global, View, Dealing>,
    ghost alone: { RestsAlone worker },
}
