//! Laws of a component that keeps the rules before typing, and of its forms.
ghost use Rattle.fort_typing_law_ready.specs.Fit.{KeepersAreAccepted};
ghost use Rattle.fort_typing_law_ready.specs.Component.{ComponentIsExact, ComponentIsOneOfTwo, FormsAreReady};

use fort_form_law_shapes::forms_are_fit;
use fort_typing_law_exact::typing_is_exact;

/// A law: what is known of a component that keeps the rules of the hierarchy, of members and of
/// overloading is made of an accepted component, as the laws of typing ask.
pub fn accepted_before_typing()
    ensures { KeepersAreAccepted }
{}

/// A law: the forms of a component that keeps the rules of operators, of the hierarchy, of members
/// and of overloading are as the laws of typing ask: their types are the component's, and its
/// bodies are of shapes that the grammar gives. The chapter is "Typing".
pub fn forms_are_ready()
    ensures { FormsAreReady }
{
    accepted_before_typing();
    forms_are_fit();
}

/// A law, of such a component: its forms have a typing by the rules exactly where one is computed,
/// and then that one; and a broken rule is reported by the rules exactly where it is computed. One
/// of the two is always so. The chapter is "Typing".
pub fn component_is_exact()
    ensures computed { ComponentIsExact }
    ensures one { ComponentIsOneOfTwo }
{
    forms_are_ready();
    typing_is_exact();
}
