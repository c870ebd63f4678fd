//! The terms of the translation, built of the last finished ones.
#![tactic(auto)]

mod leaves;
mod lists;
mod ones;
mod taking;
mod threes;
mod twos;

pub use leaves::build_leaf;
pub use lists::build_list;
pub use ones::build_one;
pub use threes::build_three;
pub use twos::build_two;
