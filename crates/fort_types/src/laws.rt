//! The laws of below and apart, each as the contract of a function that does nothing.
ghost use Rattle.fort_types.specs.Laws.{BelowItself, BelowThrough, BelowBothWays, NeverBelowTwo, ApartEitherWay, ApartGoesDown, NothingIsApart, RelationIsBelow};

/// A law: below is reflexive and transitive, and in an accepted hierarchy antisymmetric.
pub fn below_is_an_order()
    ensures reflexive { BelowItself }
    ensures transitive { BelowThrough }
    ensures antisymmetric { BelowBothWays }
{}

/// A law: in an accepted hierarchy no solid type is below two types that are apart, so no value has
/// both.
pub fn no_type_below_two()
    ensures { NeverBelowTwo }
{}

/// A law: apart is symmetric and goes down, and `Nothing` is apart from each type but `Any`.
pub fn apart_is_symmetric()
    ensures symmetric { ApartEitherWay }
    ensures down { ApartGoesDown }
    ensures nothing { NothingIsApart }
{}

/// A law: in an accepted hierarchy, below of types whose numbers are the hierarchy's is the truth
/// that a run computes from the rows.
pub fn relation_is_below()
    ensures { RelationIsBelow }
{}
