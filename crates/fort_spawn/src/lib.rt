//! Components with spawned threads: the prelude before their declarations.
#![tactic(auto)]

mod laws;
mod rewriting;
mod starts;

pub use laws::{one_rewriting, rewritten_numbers_fit, rewritten_obeys, rewritten_stands_apart};
pub use rewriting::{has_spawn, rewritten};
