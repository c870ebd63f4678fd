//! A law of the forms of trees.
ghost use Rattle.fort_form_law_shapes.specs.Fits.{FormsAreFit};

/// A law: what an expression becomes as a form is an expression of a shape that the grammar gives,
/// and the types that are written in it have numbers of a hierarchy, where the names in the tree
/// are known, types of known names have such numbers, and flat expressions are grouped as the
/// grammar says.
pub fn forms_are_fit()
    ensures { FormsAreFit }
{}
