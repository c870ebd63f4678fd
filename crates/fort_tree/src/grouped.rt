//! Flat expressions as rows of units, and their groupings.
use crate::spot::Sign;
use fort_base::{Boxed, Gap, List, Place};
use fort_ops::Op;

/// How a unit of a flat expression stands to the one before it.
#[derive(Clone, Copy, Debug, PartialEq, Eq)]
pub enum Joint {
    /// Beside it, without an operator.
    Beside,
    /// Behind an infix operator, with the gap between that and the unit.
    Behind(Sign, Gap),
}

/// What the grouping of a flat expression depends on: the place of its first token, and how each
/// unit but the first stands to the one before it.
#[derive(Drop)]
pub struct Row {
    pub place: Place,
    pub joints: List<Joint>,
}

/// A grouping of a flat expression, or of a part of it; its numbers are places of units, counted
/// from 0.
#[derive(Drop)]
pub enum Grouped {
    /// A unit.
    Unit(usize),
    /// An infix operator that is no relation, with its left and its right side.
    Binary(Op, Boxed<Grouped>, Boxed<Grouped>),
    /// Relational operators, one or more, with their sides, one more than operators.
    Chain(List<Op>, List<Grouped>),
    /// Two or more neighbouring units without an operator between them.
    Juxt(List<usize>),
}

/// The grouping of each flat expression of a component.
#[derive(Drop)]
pub struct Groups {
    pub list: List<FlatGrouping>,
}

/// The grouping of one flat expression, by the place of its first token.
#[derive(Drop)]
pub struct FlatGrouping {
    pub place: Place,
    pub grouped: Grouped,
}
