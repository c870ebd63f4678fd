//! The laws of grouping, as the contracts of functions that do nothing.
ghost use Rattle.fort_juxt.specs.Tight.{OneRewriting};
ghost use Rattle.fort_juxt.specs.Loose.{OneGrouping};

/// A law: a run has at most one next rewriting, or one refusal, and never both.
pub fn one_rewriting()
    ensures { OneRewriting }
{}

/// A law: elements that stand side by side have at most one grouping, or one refusal, and never
/// both.
pub fn one_grouping()
    ensures { OneGrouping }
{}
