//! The overload rules of a component: which pairs of declarations break one, and which objects lack
//! a method, over its sets.
#![tactic(auto)]

mod covering;
mod overloading;
mod pairs;
mod places;
mod uncovered;

pub use overloading::overloads;
