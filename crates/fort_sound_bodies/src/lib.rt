//! The terms of a component's bodies have their written results.
//!
//! Nothing is computed here. Each function names a law by its clause and does nothing.
#![tactic(auto)]

mod laws;

pub use laws::{bodies_have_types, members_have_bodies};
