//! The program of a component is as it is written.
//!
//! Nothing is computed here. The function names a law by its clause and does nothing.
#![tactic(auto)]

mod laws;

pub use laws::program_is_written;
