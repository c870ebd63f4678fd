//! The one declaration that a call of values runs, in few steps: the declarations of each set in
//! an order, the more specific ones before those that are above them.
#![tactic(auto)]

mod finding;
mod ordering;
mod rows;
mod steps;
mod uncounted;

pub use finding::{found, pick};
pub use ordering::tables;
pub use rows::Tables;
pub use steps::Steps;
pub use uncounted::running;
