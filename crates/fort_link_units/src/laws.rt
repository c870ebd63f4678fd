ghost use Rattle.fort_link_units.specs.Answer.{AtMostOneUnit, NeverBoth};

use fort_syntax::at_most_one_tree;

/// A token list has at most one unit. The chapter is "Components and APIs".
pub fn one_unit()
    ensures { AtMostOneUnit }
{
    at_most_one_tree();
}

/// No tokens both are a unit and break a rule. The chapter is "Components and APIs".
pub fn never_both()
    ensures { NeverBoth }
{}
