//! A deck of jobs, over a work-stealing deque: its owner puts and takes at one end, and thieves
//! take at the other. docs/THREADS.md.
#![tactic(auto)]

mod close;
mod deck;
mod held;
mod job;
mod rule;
mod view;

pub use held::{CAPACITY, Deck, Owner, Rest, Thief};
pub use job::Job;
