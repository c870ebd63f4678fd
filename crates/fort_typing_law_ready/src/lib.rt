//! Laws: the forms of a component that keeps the rules before typing are ready for typing.
#![tactic(auto)]

mod laws;

pub use laws::{accepted_before_typing, component_is_exact, forms_are_ready};
