//! The fields of a component's types, declared and inherited, and the two rules on them, over the
//! hierarchy.
#![tactic(auto)]

mod checked;
mod duplicates;
mod gathering;
mod heights;
mod inherited;
mod lacking;
mod own;
mod repeats;
mod written;

pub use checked::fields;
pub use own::field_of_variable;
pub use written::{type_id, written_type};
