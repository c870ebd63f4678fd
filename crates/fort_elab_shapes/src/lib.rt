//! What the declared types of a component are made of, and the opening store of its program.
#![tactic(auto)]

mod initials;
mod made_of;
mod store;

pub use initials::Initial;
pub use made_of::shapes;
pub use store::{opening, opening_types};
