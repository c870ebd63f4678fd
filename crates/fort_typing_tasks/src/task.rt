//! What is still to be done of a walk over forms.
use fort_base::{NameId, Place, Ty};
use fort_form::{Branch, Form, Generator, Item, Parameter, TypeBranch};
use fort_ops::Op;
use fort_typing_meaning::{Frame, Slot, Want};

/// What is still to be done of a walk over forms. The chapter "Typing".
///
/// What stands in a scope that isn't known isn't asked.
#[derive(Drop)]
pub enum Task<'a> {
    /// Ask what a form is.
    See(&'a Form),
    /// Take the form that was asked.
    Take(Taking<'a>, &'a Form),
    /// Ask a part.
    Ask(Asking<'a>, &'a Form),
    /// Ask parts in their order.
    AskEach(Listing<'a>, &'a [Form]),
    /// Go through the items of a block, unless the scope isn't known.
    Items(&'a [Item]),
    /// Go through generators, unless the scope isn't known.
    Sources(&'a [Generator]),
    /// Go through the clauses of an `if` or of a `case`.
    Branches(Branching<'a>, &'a [Branch]),
    /// Go through the clauses of a `typecase` or of a `catch`.
    Cases(Casing, &'a [TypeBranch]),
    /// Bind names, or leave their scope.
    Scope(Scoping<'a>),
    /// Close a form: with the frame around it, and the mark of the scope around it.
    Close(&'a Form, Frame, usize),
}

/// What the form that was asked is taken as.
#[derive(Clone, Copy)]
pub enum Taking<'a> {
    /// A part that is kept there, as wanted.
    Kept(Slot, Want<'a>),
    /// The last part, below a type.
    Below(&'a Ty),
    /// The initial of a local variable: its name, whether it is mutable, its written type.
    Initial(NameId, bool, &'a Ty),
    /// The initial of several: the place of the `(`, the names, the written type.
    Initials(Place, &'a [(Place, NameId)], &'a Ty),
    /// The source of a generator: the place and the name that it binds.
    Source(Place, NameId),
    /// The next side of a chain, behind an operator or none.
    Compared(Option<Op>),
    /// The subject of a `case`.
    Subject,
    /// What the subject of a `case` is compared with.
    Test,
    /// An element of a run or of a juxtaposition.
    Element,
    /// The target of an assignment.
    Target,
    /// An assigned value.
    Assigned,
}

/// How a part is asked.
#[derive(Clone, Copy)]
pub enum Asking<'a> {
    /// As wanted, and kept there, unless the scope isn't known.
    Kept(Slot, Want<'a>),
    /// As the last part, below a type, unless the scope isn't known.
    Below(&'a Ty),
    /// As what a clause gives, where the name, if there is one, has this type.
    Case(Option<(Place, NameId)>, &'a Ty),
    /// As what stands behind the `else` of a `typecase`, where the name has the subject's type,
    /// unless the scope isn't known.
    Otherwise(Place, NameId),
}

/// How parts are asked.
#[derive(Clone, Copy)]
pub enum Listing<'a> {
    /// As wanted, and kept there.
    Kept(Slot, Want<'a>),
    /// As the elements of a run or of a juxtaposition.
    Elements,
    /// As the sides of a chain: the operator before the first one, if there is one, and the
    /// operators between them.
    Sides(Option<Op>, &'a [Op]),
}

/// Whose clauses they are.
#[derive(Clone, Copy)]
pub enum Branching<'a> {
    /// Those of an `if`, whose blocks are as wanted.
    Arms(Want<'a>),
    /// Those of a `case`.
    Clauses,
}

/// How the clauses of a `typecase` or of a `catch` are gone through.
#[derive(Clone, Copy)]
pub enum Casing {
    /// Their types have to be exceptions.
    Exceptions,
    /// What they give is asked; in each of them the name, if there is one, has the clause's type.
    Values(Option<(Place, NameId)>),
    /// The same, unless the scope isn't known.
    KnownValues(Option<(Place, NameId)>),
}

/// How bindings change.
#[derive(Clone, Copy)]
pub enum Scoping<'a> {
    /// A name is bound: its place, itself, whether it is mutable, its type.
    Name(Place, NameId, bool, &'a Ty),
    /// The names of a local tuple are bound, with the parts of its type.
    Names(&'a [(Place, NameId)], &'a Ty),
    /// Names are bound, each with the type at its place.
    Typed(&'a [(Place, NameId)], &'a [Ty]),
    /// Parameters are bound.
    Parameters(&'a [Parameter]),
    /// A name has to be free where it is to be bound later.
    Watch(Place, NameId),
    /// The scope isn't known where a part has no type.
    LoseIfBroken,
    /// As many bindings are kept as there were.
    Leave(usize),
}
