//! The checks of a component, one phase after another.
#![tactic(auto)]

mod checking;
mod laws;

pub use checking::{check, check_component, check_grammar, check_tree};
pub use laws::{
    accepted_is_written, never_both, never_both_in_grammar, one_declaration_for_each_call,
    one_program,
};
