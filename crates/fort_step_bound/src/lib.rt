//! Rows of the table of steps: the forms that put values into the places of variables. No store is
//! looked at.
#![tactic(auto)]

mod applied;
mod binding;
mod division;
mod generators;
mod going;
mod items;
mod reductions;

pub use applied::apply_row;
pub use binding::{bound, let_row};
pub use generators::for_row;
pub use going::{made, went};
pub use reductions::reduce_row;
