//! The rules on several components and APIs.
#![tactic(auto)]

mod catalogue;
mod heads;
mod imported;
mod marks;
mod names;
mod places;
mod provided;
mod reports;
mod signatures;
mod spots;
mod symbols;
mod units;
mod whole;

pub use reports::{Broken, first_broken};
