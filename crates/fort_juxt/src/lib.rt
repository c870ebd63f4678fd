//! How what stands side by side is grouped, once it is known what each part is.
#![tactic(auto)]

mod chunks;
mod elements;
mod groupings;
mod laws;
mod places;
mod rewriting;
mod whole;

pub use elements::{Element, Grouping, Tight};
pub use laws::{one_grouping, one_rewriting};
pub use rewriting::tight;
pub use whole::loose;
