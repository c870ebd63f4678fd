//! Overload sets and their rules, over the types: what each crate that makes, judges or reads them
//! means by them.
#![tactic(auto)]

mod field;
mod laws;
mod member;

pub use field::Field;
pub use laws::one_most_specific;
pub use member::{Member, MemberKind, MemberSet, Members};
