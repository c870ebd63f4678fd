//! The law of overloading, as the contract of a function that does nothing.
ghost use Rattle.fort_types_sets.specs.Best.{ExactlyOne, NeverAbstract};

/// A law: where a set keeps the overload rules, then for all types of values to which one of its
/// declarations is applicable, exactly one declaration is most specific, and it isn't abstract. For
/// types that an expression has, traits among them, there is exactly one too.
pub fn one_most_specific()
    ensures one { ExactlyOne }
    ensures concrete { NeverAbstract }
{}
