//! The program of a component that the check accepts is sound: what acceptance is worth.
//!
//! Nothing is computed here. Each function names a law by its clause.
#![tactic(auto)]

mod laws;

pub use laws::{
    accepted_component_is_sound, accepted_is_sound, accepted_runs_well, accepted_tree_is_sound,
    file_is_in_order, founded_runs_well, keepers_are_sound,
};
