//! Moves of a state: into a part, out of one, across to the next one, until a form has its step.
//! No move changes the term. The chapter "Terms and threads" of docs/MACHINE.md.
#![tactic(auto)]

mod across;
mod enter;
mod leave;
mod stand;
mod turn;

pub use across::{Next, enter_part, part_at};
pub use stand::{Stand, standing_of};
pub use turn::{Ready, Stop, Turn, moved};
