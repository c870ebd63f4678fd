//! White space, comments and words, over the characters of a text.
#![tactic(auto)]

ghost use Rattle.std.specs.Prelude.{◌≡◌, List};

mod gap;
mod laws;
mod place;
mod step;
mod word;

pub use gap::mark_len;
pub use laws::one_reading;
pub use place::{gap_kind, place_after};
pub use step::{Step, next_step};
pub use word::{Shape, is_name_character};

/// How many tokens a text may have.
pub const MOST_TOKENS: usize = 262_144;
