//! What typing knows of a component: what a name stands for, the fields, the sets by name and
//! number, and what a call has.
#![tactic(auto)]

mod below;
mod fault;
mod index;
mod known;
mod names;
mod operators;
mod places;
mod sets;
mod standing;

pub use below::{are_below, is_below};
pub use fault::Fault;
pub use index::{Index, index_of};
pub use known::Known;
pub use names::{binding, field_in, field_of, number_in, own_field, type_number};
pub use operators::operator_spelling;
pub use sets::{is_function, is_method, set_among, set_of, spelled};
pub use standing::{Standing, is_visible, stands_for};
