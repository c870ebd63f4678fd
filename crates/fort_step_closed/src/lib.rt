//! Which variables stand in a term, whether a function holds all that it needs, and how deep a
//! value is.
#![tactic(auto)]

mod depths;
mod names;
mod scopes;
mod stands;

pub use depths::{is_shallow_function, may_stand};
pub use scopes::holds_all;
pub use stands::occurs;
