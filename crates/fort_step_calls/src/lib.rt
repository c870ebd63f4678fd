//! Rows of the table of steps: what a call does, and the forms that ask a value's type. No store
//! is looked at.
#![tactic(auto)]

mod answers;
mod bodies;
mod clauses;
mod objects;

pub use bodies::{called, called_by};
pub use clauses::{try_throw_row, try_value_row, typecase_row};
