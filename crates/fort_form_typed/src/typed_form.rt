//! Forms with types. The chapter "Typing" of docs/LANGUAGE.md.
use fort_base::{Boxed, List, NameId, SetId, Ty, TypeId};
use fort_form::{Parameter, Reduction};

/// A form with its type, which stands first.
///
/// Lists that go together have one length. A name that is bound by a form is in scope where the
/// chapter "Names in scope" has it.
#[cycle(typed)]
#[derive(Drop)]
pub enum TypedForm {
    /// A number, a ZZ32 or a ZZ64.
    Number(Ty, u64),
    /// A text, by its number in the component's texts.
    Text(Ty, u32),
    /// `true`, `false`
    Truth(Ty, bool),
    /// A tuple; of no parts it is `()`.
    Tuple(Ty, List<TypedForm>),
    /// A variable in scope, and whether it is mutable.
    Local(Ty, NameId, bool),
    /// A variable at the top, by its number in source order, counted from 0.
    Top(Ty, u32),
    /// A single object.
    Single(Ty, TypeId),
    /// `self`
    Receiver(Ty),
    /// A field of an object.
    ReadField(Ty, Boxed<TypedForm>, NameId),
    /// An element of an array: the array, the index.
    ReadElement(Ty, Boxed<TypedForm>, Boxed<TypedForm>),
    /// `a.size()` of an array.
    Size(Ty, Boxed<TypedForm>),
    /// `array⟦T⟧(n).fill(v)`: T, n, v.
    Fill(Ty, Ty, Boxed<TypedForm>, Boxed<TypedForm>),
    /// A call of a function, a method or a constructor; a receiver is its first argument.
    Call(Ty, Chosen, List<TypedForm>),
    /// A call of an operator, juxtaposition and `^` among them; its operands from left to right.
    Operation(Ty, Chosen, List<TypedForm>),
    /// A chain of relations: the set that joins its comparisons, the call of each comparison, the
    /// sides.
    Chain(Ty, SetId, List<Chosen>, List<TypedForm>),
    /// A function value and its argument.
    Apply(Ty, Boxed<TypedForm>, Boxed<TypedForm>),
    /// A function: its parameters and its body.
    Fn(Ty, List<Parameter>, Boxed<TypedForm>),
    /// The items of a block in their order.
    Block(Ty, List<TypedForm>),
    /// An item of a block: a local variable, whether it is mutable, its written type, its initial.
    Bind(Ty, NameId, bool, Ty, Boxed<TypedForm>),
    /// An item of a block: local variables for the parts of a tuple, with their types, and the
    /// tuple.
    Binds(Ty, List<(NameId, Ty)>, Boxed<TypedForm>),
    /// Blocks that run in parallel, two or more.
    Also(Ty, List<TypedForm>),
    /// The conditions, the block of each, and the block behind `else`.
    If(Ty, List<TypedForm>, List<TypedForm>, Option<Boxed<TypedForm>>),
    /// The condition and the block.
    While(Ty, Boxed<TypedForm>, Boxed<TypedForm>),
    /// The names of the generators and whether each is in order, their sources, and the block.
    For(Ty, List<(NameId, bool)>, List<TypedForm>, Boxed<TypedForm>),
    /// The subject, the call of `=` of each clause, what each compares with, what each gives, and
    /// the `else`.
    Case(
        Ty,
        Boxed<TypedForm>,
        List<Chosen>,
        List<TypedForm>,
        List<TypedForm>,
        Option<Boxed<TypedForm>>,
    ),
    /// The name, the subject, the type of each clause, what each gives, and the `else`.
    Typecase(Ty, NameId, Boxed<TypedForm>, List<Ty>, List<TypedForm>, Option<Boxed<TypedForm>>),
    /// The block, the name where there is a `catch`, the type of each clause, what each gives, and
    /// the `finally`.
    Try(Ty, Boxed<TypedForm>, Option<NameId>, List<Ty>, List<TypedForm>, Option<Boxed<TypedForm>>),
    /// `atomic e`
    Atomic(Ty, Boxed<TypedForm>),
    /// `tryatomic e`
    Tryatomic(Ty, Boxed<TypedForm>),
    /// `throw e`
    Throw(Ty, Boxed<TypedForm>),
    /// What it joins by and the set of that operator, the generator's name and whether it is in
    /// order, its source, the body.
    Reduce(Ty, Reduction, SetId, NameId, bool, Boxed<TypedForm>, Boxed<TypedForm>),
    /// `t := e`: the target, which is a `Local`, a `Top`, a `ReadField` or a `ReadElement`, and e.
    Assign(Ty, Boxed<TypedForm>, Boxed<TypedForm>),
    /// `t += e`, `t -= e`: the target, as above, the call of `+` or `-` of it and e, and e.
    Update(Ty, Boxed<TypedForm>, Chosen, Boxed<TypedForm>),
}

/// A call: its set, by its number among the component's sets, and which of its arguments are
/// widened from ZZ32 to ZZ64.
#[derive(Drop)]
pub struct Chosen {
    pub set: SetId,
    /// For each argument, in their order.
    pub widened: List<bool>,
}
