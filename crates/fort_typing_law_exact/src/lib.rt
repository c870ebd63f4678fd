//! Laws of typing: what a whole component becomes by the rules, or the broken rule that is
//! reported, is what is computed.
#![tactic(auto)]

mod laws;

pub use laws::typing_is_exact;
