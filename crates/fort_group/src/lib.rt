//! The one grouping of a flat expression, and those of a component.
#![tactic(auto)]

mod answer;
mod chains;
mod components;
mod form;
mod join;
mod joint;
mod number;
mod part;
mod spacing;

pub use answer::{group, groupings_are_in_order, one_answer, one_grouping_at_most};
pub use components::groups;
