//! What typing gives of a component matches its members, and so its program is as it is written.
//!
//! Nothing is computed here. Each function names a law by its clause.
#![tactic(auto)]

mod laws;

pub use laws::{component_is_written, typed_matches_members};
