//! The tokens of a tree.
#![tactic(auto)]

mod declarations;
mod delimited;
mod expr;
mod members;
mod put;
mod types;
mod yields;

pub use yields::yield_of;
