//! Laws of the answers of the phases.
ghost use Rattle.fort_front_law_phases.specs.Phases.{OneGrouping, OneHierarchy, OneMembership, OneTranslation};

/// A law: flat expressions that break no rule have one grouping each, in one order.
pub fn one_grouping()
    ensures { OneGrouping }
{}

/// A law: a component that keeps the rules on types has one hierarchy.
pub fn one_hierarchy()
    ensures { OneHierarchy }
{}

/// A law: a component that keeps the rules on fields has one list of its fields, sets and
/// variables.
pub fn one_membership()
    ensures { OneMembership }
{}

/// A law: what typing gives of a component is translated to one program.
pub fn one_translation()
    ensures { OneTranslation }
{}
