//! The meets of two declared types: the highest declared types below both, over the rows of a
//! hierarchy.
#![tactic(auto)]

mod meeting;

pub use meeting::meets;
