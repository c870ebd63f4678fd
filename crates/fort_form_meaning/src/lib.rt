//! What a component's trees become as forms: the definitions, the form of each tree as one level of
//! it, and what a walk looks up.
#![tactic(auto)]

mod lookup;
mod place;
mod written;

pub use lookup::Lookup;
pub use place::place_of;
pub use written::{parameter, parameters, type_place};
