//! A law: the forms of trees whose types are a component's are as the laws of typing ask.
#![tactic(auto)]

mod laws;

pub use laws::forms_are_fit;
