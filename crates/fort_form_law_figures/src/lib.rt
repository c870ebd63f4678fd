//! The figures of a component's forms are as the grammar and the tokens of a file have them.
//!
//! Nothing is computed here. The function names a law by its clause and does nothing.
#![tactic(auto)]

mod laws;

pub use laws::forms_have_figures;
