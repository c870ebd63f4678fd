//! The values of the translation: constants, single objects, neutral values; and calls with widened
//! arguments.
#![tactic(auto)]

mod calls;
mod constants;
mod objects;
mod reductions;

pub use calls::{call, operated, operation, unit_term};
pub use constants::{constant, number, text};
pub use objects::{no_item, no_match, single};
pub use reductions::neutral;
