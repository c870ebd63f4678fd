//! The walk over forms: what each form is, and the first broken rule, by one loop over a stack of
//! tasks.
#![tactic(auto)]

mod bodies;
mod compares;
mod elements;
mod flags;
mod keeps;
mod lists;
mod names;
mod scopes;
mod takes;
mod walk;

pub use bodies::body;
pub use elements::typed_below;
