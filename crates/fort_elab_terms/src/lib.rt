//! The term of a typed form: a walk over the form with a stack of tasks.
#![tactic(auto)]

mod blocks;
mod inside;
mod pushing;
mod rows;
mod targets;
mod types;
mod walk;

pub use walk::term;
