//! Laws of typing: what the rules say is what the judge answers.
#![tactic(auto)]

mod laws;

pub use laws::{
    accepted_is_decided, beside_is_computed, forms_are_exact, has_is_answered,
    juxtaposition_is_computed, run_is_computed, shaped_are_exact, widest_is_computed,
};
