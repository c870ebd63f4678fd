//! The words that every crate shares: lists and boxes that contracts see as what they hold, places,
//! rules, numbers and types.
#![tactic(auto)]

mod boxed;
mod ids;
mod list;
mod place;
mod refusal;
pub mod rules;
mod shared;
mod table;
mod ty;

pub use boxed::Boxed;
pub use ids::{BookId, DeclId, Loc, NameId, SetId, TaskId, TypeId};
pub use list::{Bytes, List};
pub use place::{earlier, earlier_of};
pub use refusal::{CheckFault, Gap, Memory, Place, Rule};
pub use shared::Shared;
pub use table::TypeTable;
pub use ty::Ty;
