//! A broken rule, and where it is broken.
use fort_base::{Place, Rule};

/// A broken rule, and where it is broken.
#[derive(Clone, Copy, Debug, PartialEq, Eq)]
pub struct Fault {
    pub rule: Rule,
    pub place: Place,
}
