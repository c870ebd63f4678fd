//! Laws of typed forms and their terms.
ghost use Rattle.fort_sound_forms.specs.Forms.{FormsHaveTypes};

/// A law: of an accepted component and a program that suits it, where a form becomes a typed form
/// by the rules of typing, the term of the typed form has its type, over the types of the opening
/// store.
pub fn forms_have_types()
    ensures { FormsHaveTypes }
{}
