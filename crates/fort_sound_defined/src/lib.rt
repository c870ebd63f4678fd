//! Overload sets that keep the rules give their program's calls one definition each.
//!
//! Nothing is computed here. The function names a law by its clause and does nothing.
#![tactic(auto)]

ghost use Rattle.fort_sound_defined.specs.Sets.{SetsKeepRules};

/// Where the sets of a program come from overload sets that keep the rules, over the program's
/// hierarchy, exactly one declaration is most specific for types of values to which one is
/// applicable, and that one isn't abstract.
pub fn sets_keep_rules()
    ensures { SetsKeepRules }
{}
