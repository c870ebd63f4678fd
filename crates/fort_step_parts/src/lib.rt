//! Rows of the table of steps: throws, and the parallel forms, by how their parts stand. No store
//! is looked at.
#![tactic(auto)]

mod gathering;
mod parallel;
mod stands;
mod throws;

pub use gathering::{AllParts, both, together};
pub use parallel::{
    also_row, call_row, fn_row, for_halves_row, group_row, operator_row, reduce_halves_row,
};
pub use stands::{Stand, standing_of};
pub use throws::{throwing, thrown_row};
