//! What is grouped, and what it is grouped to.
use fort_base::{Boxed, Place};

/// What grouping asks about a part: an atom or a postfix of a run, or a unit of a flat expression.
/// The chapter "Juxtaposition".
#[derive(Clone, Copy, Debug, PartialEq, Eq)]
pub struct Element {
    /// Where it begins.
    pub place: Place,
    /// Whether it is the name of a function set, or has an arrow type.
    pub function: bool,
    /// Whether it is the name of a function set.
    pub named: bool,
    /// Whether it is an atom in parentheses.
    pub parens: bool,
    /// Whether it is a postfix, and so no atom.
    pub postfix: bool,
}

/// The next rewriting of a run. Elements are counted from 0.
#[derive(Clone, Copy, Debug, PartialEq, Eq)]
pub enum Tight {
    /// The element with this number is applied to the one behind it.
    Apply(usize),
    /// The postfix with this number is applied to the element before it.
    Postfix(usize),
    /// The first two elements are joined by juxtaposition.
    Left,
    /// One element is left.
    Whole,
}

/// A grouping of elements, or of some that stand side by side. Elements are counted from 0.
#[derive(Drop)]
pub enum Grouping {
    /// An element by itself.
    One(usize),
    /// The first grouping applied to the second one.
    Apply(Boxed<Grouping>, Boxed<Grouping>),
    /// Two groupings joined by juxtaposition.
    Pair(Boxed<Grouping>, Boxed<Grouping>),
}
