//! The overload rules of two declarations of a set: which of them the two break, if any.
#![tactic(auto)]

mod clashing;
mod counting;
mod covering;
mod judging;
mod listing;
mod order;

pub use judging::broken_rule;
pub use order::{all_below, are_below};
