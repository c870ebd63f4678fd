//! The turn of one thread of a run: its step, its attempt, or that it is passed. The chapters
//! "Runs" and "Atomic" of docs/MACHINE.md.
#![tactic(auto)]

mod attempts;
mod next;
mod sweep;
mod threads;
mod walked;

pub use attempts::{at_atomic, leave};
pub use next::{Next, Walking, at_form, closed, left, picked};
pub use sweep::Sweep;
pub use threads::at_thread;
pub use walked::Walked;
