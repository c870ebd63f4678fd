//! The store of a run: a finite map from locations to values, which is shared in constant time. The
//! chapter "Store and effects" of docs/MACHINE.md.
#![tactic(auto)]

mod store;
mod tree;

pub use store::Store;
