//! What is known of a term but for its parts, which are the terms that were finished last.
use fort_base::{NameId, SetId, Ty, TypeId};
use fort_core::Mode;
use fort_form::{Parameter, Reduction};
use fort_form_typed::Chosen;

/// A term without parts.
#[derive(Clone, Copy)]
pub enum Leaf<'a> {
    /// A number.
    Number(u64),
    /// A text.
    Text(u32),
    /// `true`, `false`
    Truth(bool),
    /// The variable of the newest number, and whether it is mutable.
    Variable(bool),
    /// A variable at the top.
    Top(u32),
    /// A single object.
    Single(TypeId),
    /// `self`
    Receiver,
    /// `()`
    Unit,
    /// The throw of `MatchFailure`.
    NoMatch,
    /// The comparisons of a chain, joined by a set; its sides are so many of the newest numbers.
    Comparisons(SetId, &'a [Chosen], usize),
}

/// A term of one part.
#[derive(Clone, Copy)]
pub enum One<'a> {
    /// `o.f`
    ReadField(NameId),
    /// `a.size()`
    Size,
    /// `atomic e`, `tryatomic e`
    Atomic(Mode),
    /// `throw e`
    Throw,
    /// `x := e` of a variable at the top.
    WriteTop(u32),
    /// `x := e` of the variable of the newest number.
    Write,
    /// `x += e` of a variable at the top.
    RaiseTop(&'a Chosen, u32),
    /// `x += e` of the variable of the newest number.
    Raise(&'a Chosen),
    /// The comparison of the variable of the newest number, which stays, with a clause of a `case`.
    Compare(&'a Chosen),
    /// A function, by its parameters and the type of its body; the newest numbers are those of its
    /// first parameter and of the function.
    Function(&'a [Parameter], &'a Ty),
}

/// A term of two parts. A variable that it binds has the newest number.
#[derive(Clone, Copy)]
pub enum Two<'a> {
    /// `a[i]`
    ReadElement,
    /// `array⟦T⟧(n).fill(v)`
    Fill(&'a Ty),
    /// An application of a function value.
    Apply,
    /// `while c do b end`
    While,
    /// `a; b`
    Then,
    /// `o.f := e`
    WriteField(NameId),
    /// An immutable local, and the rest.
    Let(&'a Ty),
    /// The parts of a tuple as locals, and the rest; the newest number is that of the first.
    Lets(&'a [(NameId, Ty)]),
    /// A mutable local, and the rest.
    Mutable(&'a Ty),
    /// A generator, with whether it is in order.
    For(bool),
    /// A reduction: whether it is in order, its set, what it joins by, and its type.
    Reduce(bool, SetId, Reduction, &'a Ty),
    /// `o.f += e`: the type of o, the call, and f.
    UpdateField(&'a Ty, &'a Chosen, NameId),
}

/// A term of three parts.
#[derive(Clone, Copy)]
pub enum Three<'a> {
    /// `if`
    If,
    /// `a[i] := e`
    WriteElement,
    /// `a[i] += e`: the types of a and i, and the call; the newest numbers are those of i and a.
    UpdateElement(&'a Ty, &'a Ty, &'a Chosen),
}

/// A term with a list of parts.
#[derive(Clone, Copy)]
pub enum Whole<'a> {
    /// A tuple.
    Group,
    /// A call.
    Call(&'a Chosen),
    /// A call of an operator.
    Operation(&'a Chosen),
    /// Blocks beside each other.
    Also,
    /// A `typecase`, of its subject and its `else` too; its variable has the newest number.
    Typecase(&'a [Ty]),
    /// A `try` without `finally`, of its block too; its variable has the newest number.
    Try(&'a [Ty]),
    /// A `try` with a `finally`, of its block and that too.
    TryFinally(&'a [Ty]),
}

/// A term, by the number of its parts.
#[derive(Clone, Copy)]
pub enum Build<'a> {
    Leaf(Leaf<'a>),
    One(One<'a>),
    Two(Two<'a>),
    Three(Three<'a>),
    Whole(Whole<'a>),
}
