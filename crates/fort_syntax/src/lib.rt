//! The one component that a file's tokens are, or the first broken rule of the grammar, with its
//! place.
#![tactic(auto)]

mod answer;
mod laws;

pub use answer::component;
pub use fort_parse_declarations::Parsed;
pub use laws::{at_most_one_tree, tree_goes_over};
