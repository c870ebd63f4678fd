//! The canonical text of tokens.
#![tactic(auto)]

mod laws;
mod spelling;
mod text;

pub use laws::{operators_are_written_by_the_table, places_play_no_part};
pub use text::shown;
