//! The tokens of files over one table of names and texts, on lines behind one another.
#![tactic(auto)]

mod laws;
mod numbers;
mod table;

pub use laws::{
    first_is_as_it_is, joined_names_are_in, joined_numbers_fit, joined_stands_apart,
    joined_stands_behind, joined_texts_are_in, names_go_on, names_stay_once,
};
pub use table::Table;
