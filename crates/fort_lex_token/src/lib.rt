//! Tokens: the words, names, literals, operators and symbols that the grammar is over.
#![tactic(auto)]

mod marks;
mod reserved;
mod token;

pub use marks::Mark;
pub use reserved::Reserved;
pub use token::{Kind, Token, Tokens};
