//! What the walk has still to do.
use fort_tree::{Atom, BlockItem, Delimited, Expr, Flat, Grouped, Operand, Postfix, Run, Spot};

/// A part of a tree that has one form.
#[derive(Clone, Copy)]
pub enum Part<'a> {
    /// An expression.
    Expr(&'a Expr),
    /// A flat expression.
    Flat(&'a Flat),
    /// A flat expression, or a part of it, that is grouped so.
    Group(&'a Flat, &'a Grouped),
    /// A unit, with its prefix operator.
    Unit(&'a Operand),
    /// A run.
    Run(&'a Run),
    /// An atom.
    Atom(&'a Atom),
    /// A postfix.
    Postfix(&'a Postfix),
    /// A form that ends with `end`.
    Form(&'a Delimited),
    /// A block, behind the word that stands there.
    Block(Spot, &'a [BlockItem]),
}

/// What is to be done with a part.
#[derive(Clone, Copy)]
pub enum Task<'a> {
    /// Put its form on the stack.
    See(Part<'a>),
    /// Make its form of the forms of its parts, which lie on the stack, the first on the top.
    Build(Part<'a>),
}
