//! Single tokens of a tree, each put at the end of a token list.
#![tactic(auto)]

mod put;

pub use put::{put_mark, put_name, put_operator, put_semicolon, put_token, put_word};
