//! Operators: their spellings, the pairs of their precedence, and the sense of the relational ones.
#![tactic(auto)]

mod op;
mod precedence;
mod senses;
mod spellings;

pub use op::{Op, Sense};
pub use precedence::{over, pairs_have_no_cycle};
pub use senses::sense;
pub use spellings::{spelling_of, words_spell_one_operator};
