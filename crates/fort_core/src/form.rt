//! The small words of terms.
use fort_base::Loc;

/// Whether the items of a generator may go beside each other, or go one after the other.
#[derive(Clone, Copy, Debug, PartialEq, Eq)]
pub enum Order {
    /// `x <- e`
    Parallel,
    /// `x <- seq(e)`
    Seq,
}

/// Which items of its source a generator goes over.
#[derive(Clone, Copy, Debug, PartialEq, Eq)]
pub enum Span {
    /// All of them, as it is written.
    Whole,
    /// The first of them, counted from 0, and how many there are: what is left to one part of a
    /// generator that runs.
    Part(u64, u64),
}

/// A mutable variable: by its number as it is written, by its location once it has one.
#[derive(Clone, Copy, Debug, PartialEq, Eq)]
pub enum Slot {
    Variable(u32),
    Location(Loc),
}

/// What an atomic form does where its attempt is aborted.
#[derive(Clone, Copy, Debug, PartialEq, Eq)]
pub enum Mode {
    /// `atomic`: it sleeps.
    Atomic,
    /// `tryatomic`: it throws.
    Try,
}
