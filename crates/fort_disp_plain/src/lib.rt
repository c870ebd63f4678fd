//! The one declaration that a call of values runs, found by asking every declaration of its set.
#![tactic(auto)]

mod asking;
mod finding;

pub use finding::dispatched;
