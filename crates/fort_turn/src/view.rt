//! What a seat of the turn's table knows, for the proofs alone: no value of these types is made.
use std::collections::LinkedList;

/// Where a pass stands between two steps.
pub enum Stage {
    /// It has no place and no book.
    Idle,
    /// It has drawn this place.
    Waiting(u64),
    /// This place, its own, is served, and the slot is out with it.
    Holding(u64),
    /// This place, its own, is still served, and the slot is back.
    Leaving(u64),
}

/// What one pass knows.
pub struct View<B> {
    pub stage: Stage,
    /// The number that its entries name.
    pub number: u64,
    /// Its own number, and those of the passes that it took in.
    pub numbers: LinkedList<u64>,
    /// The last book that it saw, or none.
    pub seen: Option<B>,
    /// What the pass that is being taken in had seen.
    pub told: Option<B>,
    /// The numbers of the pass that is being taken in.
    pub told_numbers: LinkedList<u64>,
    /// Whether it is the first pass.
    pub root: bool,
    /// Of the first pass: how many passes there have been, itself counted.
    pub made: u64,
}
