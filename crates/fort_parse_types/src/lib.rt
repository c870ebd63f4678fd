//! Reading types and parameters, over what is left of a row of tokens.
#![tactic(auto)]

mod grammar;
mod longest;

pub use grammar::TypeGrammar;
pub use longest::longest_type;
