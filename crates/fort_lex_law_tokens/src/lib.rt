//! The tokens of a file stand at places of their own, and its numbers are ZZ64 at most.
//!
//! Nothing is computed here. Each function names a law by its clause and does nothing.
#![tactic(auto)]

mod laws;

pub use laws::{file_names_are_in, file_numbers_fit, file_stands_on_lines, tokens_stand_apart};
