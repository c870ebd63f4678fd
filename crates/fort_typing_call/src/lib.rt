//! What a call of a set has for the types of its arguments: a result, or a broken rule; over what
//! is known of a component.
#![tactic(auto)]

mod called;
mod fitting;

pub use called::{Called, call_of};
