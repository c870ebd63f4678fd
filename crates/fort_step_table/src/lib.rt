//! The table of steps, whole: what a form does at its next step, by the row of its form. No store
//! is looked at.
#![tactic(auto)]

mod frames;
mod in_order;
mod operands;
mod parallel;
mod table;

pub use frames::{deal_at_throw, deal_at_value};
pub use operands::deal_of_operands;
pub use parallel::deal_of_node;
pub use table::deal_of;
