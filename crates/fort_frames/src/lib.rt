//! States: a term taken apart into what stands at its step and a shared stack of frames round it.
//! The chapter "Terms and threads" of docs/MACHINE.md.
#![tactic(auto)]

mod around;
mod frame;
mod head;
mod laws;
mod node;
mod place;
mod stack;
mod state;

pub use frame::{Frame, share_clauses, share_last};
pub use head::Head;
pub use laws::{clock_marks, node_is_form, not_passed, same_term, same_thread};
pub use node::Node;
pub use place::Place;
pub use stack::Stack;
pub use state::{At, State};
