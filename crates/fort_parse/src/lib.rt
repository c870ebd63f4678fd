//! Reading expressions and blocks, over what is left of a row of tokens.
#![tactic(auto)]

mod blocks;
mod flats;
mod grammar;
mod reader;
mod runs;

pub use reader::ExprGrammar;
