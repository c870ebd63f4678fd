//! What is asked of values, whatever the step: the text of one, its type, whether it has a type,
//! and whether two are the same; and the order of types, as the machine's definitions compute it
//! from a program's rows.
#![tactic(auto)]

mod equal;
mod kind;
mod order;
mod texts;

pub use equal::same;
pub use kind::{all_have, has_type, type_of};
pub use order::are_below;
pub use texts::text;
