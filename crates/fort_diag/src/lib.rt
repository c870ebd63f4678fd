//! The notes of a call: what it says on standard error.
#![tactic(auto)]

mod note;

pub use note::{fixed, refused, uncaught};
