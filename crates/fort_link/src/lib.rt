//! Several files as one component, or the first rule that they break.
#![tactic(auto)]

mod answer;
mod lines;
mod linking;
mod places;
mod reading;
mod whole;

pub use answer::{LinkFault, Linked, Spot};
pub use linking::linked;
pub use places::spot;
