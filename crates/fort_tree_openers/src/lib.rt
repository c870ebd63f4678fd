//! How deep the tokens of a file stand in openers, the first one that stands too deep, and when a
//! form has too many parts.
#![tactic(auto)]

mod crowded;
mod openers;

pub use crowded::over;
pub use openers::first_deep;
