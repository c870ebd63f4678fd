//! What each typed form becomes for the machine, and the program of a component.
#![tactic(auto)]

mod counter;
mod given;
mod laws;

pub use counter::Counter;
pub use given::Known;
pub use laws::forms_are_worked;
