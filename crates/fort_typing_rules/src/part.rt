//! What is known of the elements of a run or of a juxtaposition.
use fort_base::{List, NameId, Place};
use fort_form_typed::TypedForm;

/// An element of a run or of a juxtaposition, as far as it has been asked.
#[derive(Drop)]
pub struct Part {
    /// Where it begins.
    pub place: Place,
    /// Whether it is an atom in parentheses.
    pub parens: bool,
    /// Whether it is a list in parentheses, of none or of two or more.
    pub listed: bool,
    /// Whether it is a postfix, and so no atom.
    pub postfix: bool,
    pub meaning: Meaning,
}

/// What an element is.
#[derive(Drop)]
pub enum Meaning {
    /// It has no type, since a rule is broken in it.
    Unknown,
    /// It has a type, which isn't `Nothing` unless the element is the whole.
    Value(TypedForm),
    /// The name of a function set.
    Functions(NameId),
    /// `[i]`, with an index below ZZ32.
    Index(TypedForm),
    /// `^e`
    Exponent(TypedForm),
    /// `.f`, with the place of the name.
    Field(Place, NameId),
    /// `.m(e, ..)`, with the place of the name.
    Method(Place, NameId, List<TypedForm>),
}
