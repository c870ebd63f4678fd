//! The longest expression, and the longest type, that begins at a token of a list.
#![tactic(auto)]

mod longest;
mod parts;
mod places;

pub use parts::{expr_at, type_at};
