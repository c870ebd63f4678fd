//! What is wanted of the parts of a form, and the first broken rule.
#![tactic(auto)]

mod faults;
mod outcomes;
mod place;
mod tests;
mod types;

pub use faults::breaks;
pub use fort_types_builtin::{BOOLEAN, EXCEPTION, STRING, ZZ32, ZZ64};
pub use outcomes::{refused, untyped, value};
pub use place::place_of;
pub use tests::{as_wanted, suits, taken, valued, widest};
pub use types::{is_nothing, type_of, types_of, unit};
