//! What the whole of several files is.
#![tactic(auto)]

mod laws;

pub use laws::{one_file_is_itself, whole_is_in_order};
