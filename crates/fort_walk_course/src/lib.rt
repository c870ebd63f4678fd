//! How far a run has come: the picks of each machine, what they did, and what carries a run on.
//! The chapters "Runs", "Atomic" and "Journals" of docs/MACHINE.md.
#![tactic(auto)]

mod attempts;
mod course;
mod ending;
mod execution;
mod first;
mod fuel;
mod steps;
mod take;

pub use attempts::{Standing, Tried, single};
pub use course::{Course, Going, Turn, Waiting};
pub use ending::Ran;
pub use execution::Execution;
