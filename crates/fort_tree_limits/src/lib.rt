//! The limits of a component: what there is too much of.
#![tactic(auto)]

mod blocks;
mod census;
mod crowded;
mod declarations;
mod exprs;
mod places;
mod types;
mod walk;

pub use crowded::first_crowded;
