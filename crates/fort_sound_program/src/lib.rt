//! The program of a component that keeps all the rules is sound and complete.
//!
//! Nothing is computed here. Each function names a law by its clause.
#![tactic(auto)]

mod laws;

pub use laws::{program_has_bodies, program_is_complete, program_is_sound, program_sets_keep};
