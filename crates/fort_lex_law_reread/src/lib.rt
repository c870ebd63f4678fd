//! Canonical text is read back: the laws that join the lexer and the text that is shown.
#![tactic(auto)]

mod laws;

pub use laws::{
    canonical_text_is_read_back, canonical_text_tells_tokens_apart, showing_twice_is_showing_once,
};
