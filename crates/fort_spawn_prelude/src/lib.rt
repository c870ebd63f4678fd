//! The prelude: the declarations that stand before those of a component with spawned threads.
#![tactic(auto)]

mod laws;
mod numbers;
mod reading;
mod table;
mod tokens;

pub use laws::{one_prelude, prelude_is_read};
pub use numbers::{id_of, number_of};
pub use reading::{PreludeParts, prelude};
