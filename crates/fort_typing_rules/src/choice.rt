//! What a set has for the types of a call, and the two types of widening.
use fort_base::TypeId;

/// What asking all declarations of a set comes to.
#[derive(Clone, Copy, Debug, PartialEq, Eq)]
pub enum Choice {
    /// The declaration at this position of the set, counted from 0, is the one.
    At(usize),
    /// Declarations are applicable, and none of them is the one.
    Unclear,
    /// No declaration is applicable.
    NoneApplicable,
}

/// The two types that a call widens between, by their numbers.
#[derive(Clone, Copy, Debug, PartialEq, Eq)]
pub struct Widening {
    /// ZZ32.
    pub from: TypeId,
    /// ZZ64.
    pub to: TypeId,
}
