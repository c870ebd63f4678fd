//! The overload sets and the variables of a component, beside the fields of its types.
#![tactic(auto)]

mod built_in;
mod checked;
mod entries;
mod functions;
mod laws;
mod methods;
mod sets;
mod variables;

pub use checked::members;
pub use laws::{built_ins_stand_first, sets_are_well_made};
