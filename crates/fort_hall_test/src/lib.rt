//! Callers that show what the turn, the deck and the pool promise, proved from their public clauses
//! alone.
#![tactic(auto)]

mod book;
mod closing;
mod counters;
mod decked;
mod relay;
#[cfg(test)]
mod tests;
mod writers;

pub use book::{Book, Line};
pub use counters::{Counter, Counting, Rounds, begin, count_up};
pub use decked::{Row, worked_row};
pub use relay::{Sums, share};
pub use writers::two_writers;
