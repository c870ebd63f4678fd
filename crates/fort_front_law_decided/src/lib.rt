//! Laws: each file, each token list and each component is accepted or breaks a rule.
#![tactic(auto)]

mod laws;
mod phases;

pub use laws::one_of_two;
pub use phases::{
    each_is_rewritten, each_is_translated, fields_decide, grammar_decides, grouping_decides,
    hierarchy_decides, overloads_decide,
};
