//! The names in scope, as a list of bindings.
#![tactic(auto)]

mod binding;
mod scopes;

pub use binding::Binding;
pub use scopes::Scope;
