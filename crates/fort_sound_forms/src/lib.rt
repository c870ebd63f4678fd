//! The term of a typed form has the form's type.
//!
//! Nothing is computed here. The function names a law by its clause and does nothing.
#![tactic(auto)]

mod laws;

pub use laws::forms_have_types;
