//! The forms of a component, over the groupings of its flat expressions.
#![tactic(auto)]

mod bodies;
mod component;
mod groupings;
mod initials;
mod methods;
mod places;
mod spawning;
mod tables;
mod walk;
mod written;

pub use component::forms;
