//! Forms of terms, made of their parts.
ghost use Rattle.std.specs.Prelude.{◌≡◌, ◌∷◌, [], IfOk, None};
ghost use Rattle.fort_core.specs.declared.form.Mode.TheVariants as mode;
ghost use Rattle.fort_core.specs.declared.form.Slot.TheVariants as slot;
ghost use Rattle.fort_core.specs.declared.term.Term as term;
ghost use Rattle.fort_core.specs.declared.value.Value.{Small};
ghost use Rattle.fort_machine.specs.Acts.{unit as unit_value};

use fort_base::{List, Loc, Memory, NameId, SetId, Shared, Ty};
use fort_core::{Mode, Slot, Term, Value};
use std::alloc::Global;

/// A list of one type.
pub(crate) fn one_type(alloc: Global, ty: Ty) -> Result<List<Ty>, Memory>
    ensures { IfOk result (λ list. list ≡ ty ∷ []) }
{
    let mut list = List::new(alloc);
    list.push(ty)?;
    Ok(list)
}

/// A list of two types.
pub(crate) fn two_types(alloc: Global, first: Ty, second: Ty) -> Result<List<Ty>, Memory>
    ensures { IfOk result (λ list. list ≡ first ∷ second ∷ []) }
{
    let mut list = List::new(alloc);
    list.push(first)?;
    list.push(second)?;
    Ok(list)
}

/// A list of one part.
pub(crate) fn one(alloc: Global, a: Term) -> Result<List<Shared<Term>>, Memory>
    ensures { IfOk result (λ list. list ≡ a ∷ []) }
{
    let mut list = List::new(alloc);
    list.push(Shared::new(alloc, a)?)?;
    Ok(list)
}

/// A list of two parts.
pub(crate) fn two(alloc: Global, a: Term, b: Term) -> Result<List<Shared<Term>>, Memory>
    ensures { IfOk result (λ list. list ≡ a ∷ b ∷ []) }
{
    let mut list = List::new(alloc);
    list.push(Shared::new(alloc, a)?)?;
    list.push(Shared::new(alloc, b)?)?;
    Ok(list)
}

/// A ZZ32.
pub(crate) fn number(n: i32) -> Term
    ensures { result ≡ term.Value (Small n) }
{
    Term::Value(Value::Small(n))
}

/// `()`.
pub(crate) fn nothing(alloc: Global) -> Result<Term, Memory>
    ensures { IfOk result (λ t. t ≡ term.Value unit_value) }
{
    Ok(Term::Value(Value::unit(alloc)?))
}

/// The value of the variable at a location.
pub(crate) fn read(l: Loc) -> Term
    ensures { result ≡ term.Read (slot.Location l) }
{
    Term::Read(Slot::Location(l))
}

/// `x := a` of the variable at a location.
pub(crate) fn write(alloc: Global, l: Loc, a: Term) -> Result<Term, Memory>
    ensures { IfOk result (λ t. t ≡ term.Write (slot.Location l) a) }
{
    Ok(Term::Write(Slot::Location(l), Shared::new(alloc, a)?))
}

/// A call without arguments.
pub(crate) fn call_none(alloc: Global, set: SetId) -> Term
    ensures { result ≡ term.Call set [] }
{
    Term::Call(set, List::new(alloc))
}

/// A call with one argument.
pub(crate) fn call(alloc: Global, set: SetId, a: Term) -> Result<Term, Memory>
    ensures { IfOk result (λ t. t ≡ term.Call set (a ∷ [])) }
{
    Ok(Term::Call(set, one(alloc, a)?))
}

/// A call of an operator.
pub(crate) fn operator(alloc: Global, set: SetId, a: Term, b: Term) -> Result<Term, Memory>
    ensures { IfOk result (λ t. t ≡ term.Operator set (a ∷ b ∷ [])) }
{
    Ok(Term::Operator(set, two(alloc, a, b)?))
}

/// A function's call.
pub(crate) fn apply(alloc: Global, a: Term, b: Term) -> Result<Term, Memory>
    ensures { IfOk result (λ t. t ≡ term.Apply a b) }
{
    Ok(Term::Apply(Shared::new(alloc, a)?, Shared::new(alloc, b)?))
}

/// `o.f`.
pub(crate) fn read_field(alloc: Global, o: Term, f: NameId) -> Result<Term, Memory>
    ensures { IfOk result (λ t. t ≡ term.ReadField o f) }
{
    Ok(Term::ReadField(Shared::new(alloc, o)?, f))
}

/// `o.f := a`.
pub(crate) fn write_field(alloc: Global, o: Term, f: NameId, a: Term) -> Result<Term, Memory>
    ensures { IfOk result (λ t. t ≡ term.WriteField o f a) }
{
    Ok(Term::WriteField(Shared::new(alloc, o)?, f, Shared::new(alloc, a)?))
}

/// `a; b`.
pub(crate) fn then(alloc: Global, a: Term, b: Term) -> Result<Term, Memory>
    ensures { IfOk result (λ t. t ≡ term.Then a b) }
{
    Ok(Term::Then(Shared::new(alloc, a)?, Shared::new(alloc, b)?))
}

/// `if c then a else b`.
pub(crate) fn choice(alloc: Global, c: Term, a: Term, b: Term) -> Result<Term, Memory>
    ensures { IfOk result (λ t. t ≡ term.If c a b) }
{
    Ok(Term::If(
        Shared::new(alloc, c)?,
        Shared::new(alloc, a)?,
        Shared::new(alloc, b)?,
    ))
}

/// `throw a`.
pub(crate) fn throw(alloc: Global, a: Term) -> Result<Term, Memory>
    ensures { IfOk result (λ t. t ≡ term.Throw a) }
{
    Ok(Term::Throw(Shared::new(alloc, a)?))
}

/// `atomic a`.
pub(crate) fn atomic(alloc: Global, a: Term) -> Result<Term, Memory>
    ensures { IfOk result (λ t. t ≡ term.Atomic mode.Atomic a) }
{
    Ok(Term::Atomic(Mode::Atomic, Shared::new(alloc, a)?))
}

/// A local, and the rest of its block.
pub(crate) fn local(alloc: Global, x: u32, ty: Ty, a: Term, b: Term) -> Result<Term, Memory>
    ensures { IfOk result (λ t. t ≡ term.Let ((x, ty) ∷ []) a b) }
{
    let mut variables = List::new(alloc);
    variables.push((x, ty))?;
    Ok(Term::Let(
        Shared::new(alloc, variables)?,
        Shared::new(alloc, a)?,
        Shared::new(alloc, b)?,
    ))
}

// One clause.
fn clause(alloc: Global, a: Term, ty: Ty) -> Result<List<(Shared<Term>, Shared<Ty>)>, Memory>
    ensures { IfOk result (λ list. list ≡ (a, ty) ∷ []) }
{
    let mut clauses = List::new(alloc);
    clauses.push((Shared::new(alloc, a)?, Shared::new(alloc, ty)?))?;
    Ok(clauses)
}

/// A `typecase` with one clause, whose variable has the number 1.
pub(crate) fn typecase(
    alloc: Global,
    subject: Term,
    a: Term,
    ty: Ty,
    other: Term,
) -> Result<Term, Memory>
    ensures { IfOk result (λ t. t ≡ term.Typecase 1 subject ((a, ty) ∷ []) other) }
{
    Ok(Term::Typecase(
        1,
        Shared::new(alloc, subject)?,
        clause(alloc, a, ty)?,
        Shared::new(alloc, other)?,
    ))
}

/// A `try` with one clause, whose variable has the number 2, and without a `finally`.
pub(crate) fn try_with(alloc: Global, body: Term, a: Term, ty: Ty) -> Result<Term, Memory>
    ensures { IfOk result (λ t. t ≡ term.Try body 2 ((a, ty) ∷ []) None) }
{
    Ok(Term::Try(Shared::new(alloc, body)?, 2, clause(alloc, a, ty)?, None))
}
