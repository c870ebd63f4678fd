//! A pool of workers, each with a state of its own, which take turns until each has answered that
//! it is over. docs/THREADS.md.
#![tactic(auto)]

mod crew;
mod jobs;
mod pause;
mod turned;

pub use crew::work;
pub use jobs::{First, Work};
pub use turned::Turned;
