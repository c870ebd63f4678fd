//! A stretch of a run: steps that the threads of one part take beside the run, one after the other,
//! over the store to which it has come, which stays as it is meanwhile. The chapter "Legs" of
//! docs/MACHINE.md.
#![tactic(auto)]

mod in_turn;
mod laws;
mod leg;
mod steps;
mod stretch;

pub use in_turn::leaf;
pub use laws::leg_stays_below;
pub use leg::{Leg, Room};
