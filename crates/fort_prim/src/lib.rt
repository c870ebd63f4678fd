//! The built-in declarations, computed on machine numbers.
#![tactic(auto)]

mod answer;
mod applied;
mod arguments;
mod computed;
mod counts;
mod divide;
mod divisors;
mod numbers;
mod operation;
mod outcome;
mod plain;
mod powers;
mod results;
mod shift;
mod table;
mod words;

pub use answer::Answer;
pub use applied::{answered, apply};
