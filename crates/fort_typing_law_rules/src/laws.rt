//! Laws of typing.
ghost use Rattle.fort_typing_law_rules.specs.Deciding.{IsDecided};
ghost use Rattle.fort_typing_law_rules.specs.Exact.{ExactIsOne, FormsAreExact};
ghost use Rattle.fort_typing_law_rules.specs.Shaped.{ShapedAreExact};
ghost use Rattle.fort_typing_law_rules.specs.Laws.{BesideIsComputed, GroupingIsComputed, HasIsAnswered, OneBeside, OneRun, OneTypedForm, RewritingIsComputed, RunIsComputed, WidestIsComputed};

/// A law: the next rewriting of a run, the grouping of elements, and the refusals of both are those
/// that the judge computes.
pub fn juxtaposition_is_computed()
    ensures rewriting { RewritingIsComputed }
    ensures grouping { GroupingIsComputed }
{}

/// A law: of an accepted component, what is computed of two of its types and of a call with
/// arguments of its types is what the rules say of them.
pub fn accepted_is_decided()
    ensures { IsDecided }
{}

/// A law, of an accepted component: a run that becomes a typed form is answered with it, and so it
/// becomes one at most.
pub fn run_is_computed()
    ensures answered { RunIsComputed }
    ensures one { OneRun }
{}

/// A law: likewise of a juxtaposition.
pub fn beside_is_computed()
    ensures answered { BesideIsComputed }
    ensures one { OneBeside }
{}

/// A law: the widest type of several, or that there is none, is what the judge computes.
pub fn widest_is_computed()
    ensures { WidestIsComputed }
{}

/// A law: likewise of a whole form: one that becomes a typed form by the rules is answered with it,
/// and no broken rule is found in it; and so in the same bindings it becomes one at most.
pub fn has_is_answered()
    ensures answered { HasIsAnswered }
    ensures one { OneTypedForm }
{}

/// A law, of an accepted component: a form answers exactly where its parts do: with a type that it
/// has, as the function set's name that it is, or with none where it breaks a rule; and what is
/// found is the first of the rules that it breaks. An exact expression has a type, is such a name,
/// or breaks a rule; and what has a type breaks none.
pub fn forms_are_exact()
    ensures steps { FormsAreExact }
    ensures one { ExactIsOne }
{}

/// A law, of an accepted component: so each expression of a shape that the grammar gives answers
/// exactly, where the types that are written in it are the component's.
pub fn shaped_are_exact()
    ensures { ShapedAreExact }
{}
