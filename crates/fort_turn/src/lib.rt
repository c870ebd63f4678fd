//! A turn: a ticket lock over one book, in which each pass knows from hold to hold what the book's
//! history has become. docs/THREADS.md.
#![tactic(auto)]

mod grows;
mod held;
mod hold;
mod open;
mod passes;
mod rule;
mod view;

pub use grows::Grows;
pub use held::{Pass, Turn};
pub use open::new;
