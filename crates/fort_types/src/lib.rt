//! The order of types: which type is below which, and which types are apart, over the words of
//! every crate.
#![tactic(auto)]

mod closing;
mod hierarchy;
mod laws;
mod parting;
mod square;
mod supertypes;
mod terms;

pub use closing::rows;
pub use hierarchy::{DeclaredType, TypeKind};
pub use laws::{apart_is_symmetric, below_is_an_order, no_type_below_two, relation_is_below};
pub use square::set_at;
pub use terms::{apart, below};
