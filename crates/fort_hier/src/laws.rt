//! The laws of an accepted component, each as the contract of a function that does nothing.
ghost use Rattle.fort_hier.specs.Laws.{AcceptedIsSound, NeverBelowTwo};

/// A law: the declared types of an accepted component are a sound hierarchy.
pub fn accepted_is_sound()
    ensures { AcceptedIsSound }
{}

/// A law: in an accepted component no solid type is below two types that are apart, so no value has
/// both.
pub fn no_type_below_two()
    ensures { NeverBelowTwo }
{}
