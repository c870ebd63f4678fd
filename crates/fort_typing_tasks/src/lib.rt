//! What is still to be done of a walk over forms: tasks, which stand on a stack.
#![tactic(auto)]

mod asking;
mod binding;
mod branches;
mod forms;
mod task;

pub use asking::{ask, ask_below, ask_each, elements, sides};
pub use binding::{items, sources};
pub use branches::{arms, cases, clauses};
pub use forms::inside;
pub use task::{Asking, Branching, Casing, Listing, Scoping, Taking, Task};
