//! Rows of the table of steps: forms that go from left to right and put no value into the place of
//! a variable. No store is looked at.
#![tactic(auto)]

mod arrays;
mod choices;
mod fields;
mod numbers;
mod variables;

pub use arrays::{fill_row, read_element_row, size_row, write_element_row};
pub use choices::{if_row, then_row, while_row};
pub use fields::{read_field_row, write_field_row};
pub use variables::{mutable_row, read_row, write_row};
