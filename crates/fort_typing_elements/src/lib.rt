//! The elements of runs and juxtapositions: what goes together next, and how all are grouped, as
//! the judge of typing has it.
#![tactic(auto)]

mod asked;
mod groupings;
mod rewritings;

pub use asked::elements;
pub use groupings::grouping;
pub use rewritings::rewriting;
