//! Forms of expressions. The chapter "Typing" of docs/LANGUAGE.md has a row for each.
use fort_base::{Boxed, List, NameId, Place, Ty};
use fort_ops::Op;

/// A form of an expression, with the place of its first token first.
///
/// Groupings are applied, written types are resolved, and what is written in one way alone is one
/// form alone: a flat expression of one unit is its run, a run of one atom is that atom.
#[cycle(form)]
#[derive(Drop)]
pub enum Form {
    /// A number.
    Number(Place, u64),
    /// A text, by its number in the component's texts.
    Text(Place, u32),
    /// `true`, `false`
    Truth(Place, bool),
    /// `self`
    Receiver(Place),
    /// A name.
    Name(Place, NameId),
    /// `(e)`
    Parens(Place, Boxed<Form>),
    /// `()`, or `(e, f, ..)` of two parts or more.
    Tuple(Place, List<Form>),
    /// A prefix operator and its operand, or an infix operator that is no relation and its two
    /// sides.
    Operator(Place, Op, List<Form>),
    /// Relations, one or more, and their sides, one more than operators.
    Chain(Place, List<Op>, List<Form>),
    /// Two units or more beside each other, without an operator: a loose juxtaposition.
    Beside(Place, List<Form>),
    /// An atom, and behind it atoms and postfixes, one of them or more: a tight run.
    Run(Place, List<Form>),
    /// `[e]`: a postfix, which stands only in a run, behind its first element.
    Subscript(Place, Boxed<Form>),
    /// `^e`: a postfix; the place is that of the `^`.
    Power(Place, Boxed<Form>),
    /// `.f`: a postfix, with the place of the dot, then that of the name.
    Field(Place, Place, NameId),
    /// `.m(e, ..)`: a postfix, with the place of the dot, then that of the name.
    Method(Place, Place, NameId, List<Form>),
    /// `array⟦T⟧(n).fill(v)`: T, n, v.
    Fill(Place, Ty, Boxed<Form>, Boxed<Form>),
    /// The items of a block; its place is that of its first item, or where it has none that of the
    /// word before it.
    Block(Place, List<Item>),
    /// `do b end`, or `do b also do c .. end`: its blocks, one or more, each a `Block`.
    Do(Place, List<Form>),
    /// `if c then b elif d then e .. else f end`: each condition with its `Block`, one or more, and
    /// the `Block` behind `else`.
    If(Place, List<Branch>, Option<Boxed<Form>>),
    /// `while c do b end`: the condition, the `Block`.
    While(Place, Boxed<Form>, Boxed<Form>),
    /// `for g, h, .. do b end`: its generators, one or more, and the `Block`.
    For(Place, List<Generator>, Boxed<Form>),
    /// `case s of e => v .. else => w end`: the subject, each clause, one or more, and what stands
    /// behind `else`.
    Case(Place, Boxed<Form>, List<Branch>, Option<Boxed<Form>>),
    /// `typecase x = s of T => v .. else => w end`: the place and the name of x, the subject, each
    /// clause, one or more, and what stands behind `else`.
    Typecase(Place, Place, NameId, Boxed<Form>, List<TypeBranch>, Option<Boxed<Form>>),
    /// `try b catch x T => v .. finally c end`: the `Block`, the place and the name of x where
    /// there is a `catch`, its clauses, none where there is no `catch`, and the `Block` behind
    /// `finally`.
    Try(Place, Boxed<Form>, Option<(Place, NameId)>, List<TypeBranch>, Option<Boxed<Form>>),
    /// `atomic e`
    Atomic(Place, Boxed<Form>),
    /// `tryatomic e`
    Tryatomic(Place, Boxed<Form>),
    /// `throw e`
    Throw(Place, Boxed<Form>),
    /// `fn (x: T, ..) => e`: its parameters, and e.
    Fn(Place, List<Parameter>, Boxed<Form>),
    /// `SUM[g] e` and its like: the word, the generator, and e.
    Reduce(Place, Reduction, Boxed<Generator>, Boxed<Form>),
    /// `t := e`, `t += e`, `t -= e`: t, the sign, and e.
    Assign(Place, Boxed<Form>, Update, Boxed<Form>),
}

/// An item of a block.
#[cycle(form)]
#[derive(Drop)]
pub enum Item {
    /// `x: T = e`, with `var` or `:=` where it is mutable: the place and the name of x, whether it
    /// is mutable, T, e.
    Local(Place, NameId, bool, Ty, Form),
    /// `(x, y, ..): T = e`: the place of the `(`, the places and the names, two or more, T, e.
    Locals(Place, List<(Place, NameId)>, Ty, Form),
    /// An expression.
    Expression(Form),
}

/// A clause of an `if` or of a `case`: its condition or what the subject is compared with, and what
/// it gives.
#[cycle(form)]
#[derive(Drop)]
pub struct Branch {
    pub test: Form,
    pub value: Form,
}

/// A clause of a `typecase` or of a `catch`: the place of its type, the type, and what it gives.
#[cycle(form)]
#[derive(Drop)]
pub struct TypeBranch {
    pub place: Place,
    pub ty: Ty,
    pub value: Form,
}

/// `x <- s`, or `x <- seq(s)`: the place and the name of x, whether it is in order, s.
#[cycle(form)]
#[derive(Drop)]
pub struct Generator {
    pub place: Place,
    pub name: NameId,
    pub sequential: bool,
    pub source: Form,
}

/// A parameter: the place and the name, and its written type.
#[derive(Drop)]
pub struct Parameter {
    pub place: Place,
    pub name: NameId,
    pub ty: Ty,
}

/// What a reduction joins by.
#[derive(Clone, Copy, Debug, PartialEq, Eq)]
pub enum Reduction {
    /// `SUM`
    Sum,
    /// `PROD`
    Product,
    /// `BIG MAX`
    Maximum,
    /// `BIG MIN`
    Minimum,
    /// `BIG AND`
    Conjunction,
    /// `BIG OR`
    Disjunction,
}

/// The sign of an assignment.
#[derive(Clone, Copy, Debug, PartialEq, Eq)]
pub enum Update {
    /// `:=`
    Becomes,
    /// `+=`
    Adds,
    /// `-=`
    Subtracts,
}
