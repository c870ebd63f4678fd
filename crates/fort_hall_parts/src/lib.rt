//! The parts of a term that tasks are told by: the part at a path, what it becomes in its term, and
//! the parts into which it is divided. The chapter "Books" of docs/THREADS.md.
#![tactic(auto)]

mod divide;
mod find;
mod node;
mod order;
mod put;

pub use divide::{Division, open_parts};
pub use find::part_at;
pub use put::put_in;
