//! How far a text was written to an output, while the text itself still grows.
#![tactic(auto)]

mod laws;
mod nowhere;
mod progress;
mod whole;

pub use laws::{more_was_written, nothing_was_written, parts_were_written};
pub use nowhere::NoSink;
pub use progress::{Progress, write_next, write_on};
pub use whole::write_all;
