//! The program of the machine that a component's typed forms become.
#![tactic(auto)]

mod bodies;
mod declarations;
mod program;
mod sets;

pub use program::elaborate;
