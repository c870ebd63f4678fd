//! What a thread does at its next step: its form's row, for a call what the declaration does that
//! it runs, and as what the form goes on by what it reads or makes. The chapters "Steps and costs"
//! and "Calls" of docs/MACHINE.md.
#![tactic(auto)]

mod made;
mod thread;

pub use made::{made_by, makes_count, new_values, next_by};
pub use thread::{acting, acting_by};
