//! Values and locations in the places of variables; what doesn't change is shared with the old
//! term.
#![tactic(auto)]

mod functions;
mod groups;
mod held;
mod parts;
mod places;
mod put;
mod puts;
mod slots;

pub use functions::function;
pub use groups::{group, values};
pub use places::placed;
pub use put::Put;
pub use puts::{put_all, put_location, put_one, put_value};
