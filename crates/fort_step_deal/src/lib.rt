//! What a form does at its next step, as data: the acts of the written machine, before a store is
//! asked.
#![tactic(auto)]

mod deal;

pub use deal::{Deal, Goes, Makes};
