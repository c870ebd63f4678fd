//! The tasks of the walk that makes terms of typed forms, what each of them means, and what changes
//! a walk's state.
#![tactic(auto)]

mod build;
mod names;
mod numbers;
mod state;
mod task;

pub use build::{Build, Leaf, One, Three, Two, Whole};
pub use names::Names;
pub use numbers::Numbers;
pub use state::State;
pub use task::{Row, Task, Test};
