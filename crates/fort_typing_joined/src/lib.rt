//! What runs and juxtapositions are, from their elements.
#![tactic(auto)]

mod applied;
mod calls;
mod followed;
mod juxtapositions;
mod runs;
mod taking;
mod two;
mod values;
mod way;

pub use calls::{operation, operator_set};
pub use juxtapositions::beside;
pub use runs::run;
