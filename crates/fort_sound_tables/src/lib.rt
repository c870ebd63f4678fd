//! Whether the program of a component with spawned threads has all that the laws on its runs take
//! of it.
#![tactic(auto)]

mod apart;
mod calls;
mod check;
mod forms;
mod leaves;
mod numbers;
mod opening;
mod texts;
mod types;

pub use check::has_threads;
