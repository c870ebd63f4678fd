//! Laws: the phases before typing, and the translation after it, give one answer each.
#![tactic(auto)]

mod laws;

pub use laws::{one_grouping, one_hierarchy, one_membership, one_translation};
