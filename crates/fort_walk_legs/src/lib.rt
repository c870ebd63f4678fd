//! Legs: steps that threads of a part take beside the run, and what they are to the run that takes
//! them in. Each law is named by a function that does nothing. The chapter "Legs" of
//! docs/MACHINE.md.
#![tactic(auto)]

mod laws;
mod under;

pub use laws::{
    course_is_in_reach, leg_is_framed, leg_keeps, leg_lifts, legs_join, part_is_in_reach,
};
pub use under::all_under;
