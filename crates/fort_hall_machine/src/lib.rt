//! What a hall of workers asks of the machine whose legs it makes: books, tasks, legs and attempts.
//! The chapter "The hall" of docs/THREADS.md.
#![tactic(auto)]

mod machine;
mod parts;

pub use machine::Machine;
pub use parts::{After, Found, Made, Room, Submitted};
