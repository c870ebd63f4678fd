//! The rules of typing: which form has which type, and which rule a form breaks, as relations that
//! the code is held against.
#![tactic(auto)]

mod choice;
mod laws;
mod part;

pub use choice::{Choice, Widening};
pub use laws::edition_one_is_kept;
pub use part::{Meaning, Part};
