//! Terms of two parts. The chapter "Forms" of docs/TRANSLATION.md.
ghost use Rattle.std.specs.Prelude.{◌≡◌, ◌∷◌, [], IfOk, OnOk};
ghost use Rattle.fort_elab_tasks.specs.Builds.{field_update, local as local_term, two_built};
ghost use Rattle.fort_elab_meaning.specs.Items.{order_of, typed_variables};
ghost use Rattle.fort_elab_meaning.specs.Read.{given_of};

use crate::taking::{put, take_two, take_two_by_number};
use fort_base::{List, Memory, NameId, Shared, Ty};
use fort_core::{Order, Span, Term};
use fort_elab_constants::{neutral, operated};
use fort_elab_meaning::Known;
use fort_elab_tasks::{State, Two};
use fort_form_typed::Chosen;
use std::alloc::Global;

/// A term of two parts is finished.
pub fn build_two(alloc: Global, known: &Known, two: Two, state: &mut State) -> Result<(), Memory>
    ensures { OnOk result (state.new ≡ two_built (given_of known.now) two.entry state.old) }
{
    match two {
        Two::ReadElement => {
            let (array, index) = take_two(state)?;
            put(alloc, Term::ReadElement(array, index), state)
        }
        Two::Fill(ty) => {
            let (size, value) = take_two(state)?;
            let ty = Shared::new(alloc, ty.copy(alloc)?)?;
            put(alloc, Term::Fill(ty, size, value), state)
        }
        Two::Apply => {
            let (function, argument) = take_two(state)?;
            put(alloc, Term::Apply(function, argument), state)
        }
        Two::While => {
            let (test, body) = take_two(state)?;
            put(alloc, Term::While(test, body), state)
        }
        Two::Then => {
            let (first, rest) = take_two(state)?;
            put(alloc, Term::Then(first, rest), state)
        }
        Two::WriteField(field) => {
            let (object, value) = take_two(state)?;
            put(alloc, Term::WriteField(object, field, value), state)
        }
        Two::Let(ty) => {
            let (n, first, rest) = take_two_by_number(state)?;
            put(alloc, local(alloc, n, ty, first, rest)?, state)
        }
        Two::Lets(names) => {
            let (n, first, rest) = take_two_by_number(state)?;
            let variables = Shared::new(alloc, variables_from(alloc, n, names)?)?;
            put(alloc, Term::Let(variables, first, rest), state)
        }
        Two::Mutable(ty) => {
            let (n, first, rest) = take_two_by_number(state)?;
            let ty = Shared::new(alloc, ty.copy(alloc)?)?;
            put(alloc, Term::Mutable(n, ty, first, rest), state)
        }
        Two::For(sequential) => {
            let (n, source, body) = take_two_by_number(state)?;
            put(
                alloc,
                Term::For(order(sequential), Span::Whole, n, source, body),
                state,
            )
        }
        Two::Reduce(sequential, set, reduction, ty) => {
            let (n, source, body) = take_two_by_number(state)?;
            let empty = Shared::new(alloc, neutral(alloc, known, reduction, ty)?)?;
            let order = order(sequential);
            put(
                alloc,
                Term::Reduce(order, Span::Whole, set, empty, n, source, body),
                state,
            )
        }
        Two::UpdateField(ty, chosen, field) => {
            let (n, object, value) = take_two_by_number(state)?;
            put(
                alloc,
                update(alloc, known, n, ty, chosen, field, object, value)?,
                state,
            )
        }
    }
}

/// The order of a generator.
fn order(sequential: bool) -> Order
    ensures { result ≡ order_of sequential }
{
    if sequential {
        Order::Seq
    } else {
        Order::Parallel
    }
}

/// An immutable local variable, and the rest.
pub(crate) fn local(
    alloc: Global,
    number: u32,
    ty: &Ty,
    first: Shared<Term>,
    rest: Shared<Term>,
) -> Result<Term, Memory>
    ensures { IfOk result (λ term. term ≡ local_term number ty.now first rest) }
{
    let mut variables = List::new(alloc);
    variables.push((number, ty.copy(alloc)?))?;
    Ok(Term::Let(Shared::new(alloc, variables)?, first, rest))
}

/// Variables for names with their types, from a number on.
fn variables_from(
    alloc: Global,
    first: u32,
    names: &[(NameId, Ty)],
) -> Result<List<(u32, Ty)>, Memory>
    ensures { IfOk result (λ list. list ≡ typed_variables first names.now) }
{
    let mut list = List::new(alloc);
    let mut number = first;
    for name in names {
        list.push((number, name.1.copy(alloc)?))?;
        number = match number.checked_add(1) {
            Some(next) => next,
            None => return Err(Memory),
        };
    }
    Ok(list)
}

/// `x.f + e` is written to `x.f`, where x is a local of this number.
fn update(
    alloc: Global,
    known: &Known,
    number: u32,
    ty: &Ty,
    chosen: &Chosen,
    field: NameId,
    object: Shared<Term>,
    value: Shared<Term>,
) -> Result<Term, Memory>
    ensures { IfOk result (λ term. term
        ≡ field_update (given_of known.now) number ty.now chosen.now field object value) }
{
    let variable = Shared::new(alloc, Term::Variable(number))?;
    let read = Shared::new(alloc, Term::ReadField(variable.share()?, field))?;
    let sum = Shared::new(alloc, operated(alloc, known, chosen, read, value)?)?;
    let write = Shared::new(alloc, Term::WriteField(variable, field, sum))?;
    local(alloc, number, ty, object, write)
}
