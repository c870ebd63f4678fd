//! The flat expressions of a component, as rows of units.
#![tactic(auto)]

mod blocks;
mod clauses;
mod declarations;
mod expressions;
mod laid;
mod spots;
mod units;

pub use declarations::rows;
pub use laid::row;
