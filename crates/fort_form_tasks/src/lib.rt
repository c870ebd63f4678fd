//! What the walk over a component's trees has still to do: the parts of a tree that have a form
//! each, and the tasks that see them.
#![tactic(auto)]

mod blocks;
mod expressions;
mod further;
mod task;
mod units;

pub use blocks::{see_in_form, see_items};
pub use expressions::see_in_expr;
pub use further::see;
pub use task::{Part, Task};
pub use units::{see_in_atom, see_in_group, see_in_postfix, see_in_run};
