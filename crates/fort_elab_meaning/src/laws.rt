//! Laws of the translation.
ghost use Rattle.fort_elab_meaning.specs.Worked.{FormsAreWorked};

/// A law: a chain, a block, the update of an element, a `case` with a widened clause, and a
/// function have the terms that the chapter "Forms" of docs/TRANSLATION.md says.
pub fn forms_are_worked()
    ensures { FormsAreWorked }
{}
