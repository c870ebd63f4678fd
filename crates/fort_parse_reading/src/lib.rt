//! Reading: what is left of a row of tokens, with the law of what reads it, over the tokens and
//! trees.
#![tactic(auto)]

mod cursor;
mod fault;
mod lists;

pub use cursor::{
    Cursor, is_called, is_empty, is_eq, is_infix, is_line, is_mark, is_power, is_range, is_word,
    spot_of,
};
pub use fault::Fault;
pub use lists::{add, single};
