//! How far the parts of a form have come.
use fort_base::{List, Place, Ty};
use fort_form_typed::{Chosen, TypedForm};
use fort_typing_known::Fault;
use fort_typing_rules::{Meaning, Part};

/// What is wanted of a part.
#[derive(Clone, Copy)]
pub enum Want<'a> {
    /// Any value.
    Value,
    /// A value that isn't `Nothing`.
    Operand,
    /// A value of a type below this one.
    Below(&'a Ty),
    /// A value below `()`.
    Unit,
    /// A value below ZZ32.
    Small,
    /// A `Boolean`.
    Truth,
    /// A ZZ32 or a ZZ64.
    Number,
    /// A value of a type below `Exception`.
    Exception,
}

/// Where a form keeps a part.
#[derive(Clone, Copy, Debug, PartialEq, Eq)]
pub enum Slot {
    Head,
    First,
    Second,
    Last,
}

/// What a comparison has at its left: the place, and the type.
#[derive(Drop)]
pub struct Side {
    pub place: Place,
    pub ty: Ty,
}

/// How far the parts of a form have come.
#[derive(Drop)]
pub struct Frame {
    /// A part has no type.
    pub broken: bool,
    /// The scope behind isn't known, and nothing in it is asked.
    pub lost: bool,
    /// One part, as the subject of a `case` or the target of an assignment.
    pub head: Option<TypedForm>,
    /// Several parts, as the items of a block or the conditions of an `if`.
    pub first: List<TypedForm>,
    /// Several more, as the blocks of an `if`.
    pub second: List<TypedForm>,
    /// One more, as what stands behind `else`.
    pub last: Option<TypedForm>,
    /// The comparisons of a chain or of a `case`.
    pub calls: List<Chosen>,
    /// The left side of the next comparison.
    pub side: Option<Side>,
    /// The elements of a run or of a juxtaposition.
    pub parts: List<Part>,
}

/// What a form is, and the first broken rule so far.
#[derive(Drop)]
pub struct Outcome {
    pub seen: Meaning,
    pub found: Option<Fault>,
}

/// What a part has become, where it has a type as wanted, and the first broken rule so far.
#[derive(Drop)]
pub struct Valued {
    pub node: Option<TypedForm>,
    pub found: Option<Fault>,
}

/// What comes of two elements.
#[derive(Drop)]
pub enum Made {
    /// A typed form.
    Gives(TypedForm),
    /// A broken rule.
    Breaks(Fault),
    /// Nothing: one of the two has no type.
    Stops,
}
