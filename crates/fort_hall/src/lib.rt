//! A run of a hall of workers: they are made, work side by side, and are taken in. The chapter "The
//! hall" of docs/THREADS.md.
#![tactic(auto)]

mod call;
mod crew;
mod decks;
mod settle;
mod writer;

pub use call::run;
pub use settle::Settled;
