//! The tokens of a source file, or the first rule of the chapter "Tokens" that it breaks.
#![tactic(auto)]

mod builder;
mod law;
mod marks;
mod meaning;
mod names;
mod reserved;
mod source;
mod text;

pub use fort_lex_scan::MOST_TOKENS;
pub use fort_lex_token::{Kind, Mark, Reserved, Token, Tokens};
pub use law::{no_symbol_is_a_name, one_answer};
pub use source::tokens;
