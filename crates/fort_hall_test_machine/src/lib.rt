//! A machine of counters, whose legs a hall of workers makes: that the clauses of a machine can be
//! met together, and what becomes of them where workers meet. The chapter "The hall" of
//! docs/THREADS.md.
#![tactic(auto)]

mod book;
mod counters;
mod meeting;
mod printing;
#[cfg(test)]
mod tests;

pub use book::{Book, Entry, Task};
pub use counters::{Counters, Leg, State};
pub use meeting::Meeting;
pub use printing::printed;
