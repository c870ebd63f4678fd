//! A law of the figures of a component's forms.
ghost use Rattle.fort_form_law_figures.specs.Components.{FormsHaveFigures};

/// A law: where each number among the tokens of a component is a ZZ64, the figures of each body and
/// of each initial are as the grammar has them. The chapter is "Typing", forms.
pub fn forms_have_figures()
    ensures { FormsHaveFigures }
{}
