//! Typed forms: forms with their types, each name told and each call with its set.
#![tactic(auto)]

mod component;
mod typed_form;

pub use component::{Typed, TypedBody};
pub use typed_form::{Chosen, TypedForm};
