//! Terms of one part. The chapter "Forms" of docs/TRANSLATION.md.
ghost use Rattle.std.specs.Prelude.{◌≡◌, ◌∷◌, [], IfOk, OnOk, map};
ghost use Rattle.fort_core.specs.declared.term.Term.{Variable};
ghost use Rattle.fort_elab_tasks.specs.Builds.{function_term, one_built};
ghost use Rattle.fort_elab_meaning.specs.Calls.{operated as operated_of};
ghost use Rattle.fort_elab_meaning.specs.Items.{parameter, typed_variables};
ghost use Rattle.fort_elab_meaning.specs.Read.{given_of};
ghost use Rattle.fort_elab_meaning.specs.Targets.{raised};

use crate::taking::{put, take_by_number};
use fort_base::{List, Loc, Memory, Shared, Ty};
use fort_core::{Closure, Slot, Term};
use fort_elab_constants::operated;
use fort_elab_meaning::Known;
use fort_elab_tasks::{One, State};
use fort_form::Parameter;
use fort_form_typed::Chosen;
use fort_step_subst::function;
use std::alloc::Global;

/// A term of one part is finished.
pub fn build_one(alloc: Global, known: &Known, one: One, state: &mut State) -> Result<(), Memory>
    ensures { OnOk result (state.new ≡ one_built (given_of known.now) one.entry state.old) }
{
    match one {
        One::ReadField(field) => {
            let object = state.take()?;
            put(alloc, Term::ReadField(object, field), state)
        }
        One::Size => {
            let array = state.take()?;
            put(alloc, Term::Size(array), state)
        }
        One::Atomic(mode) => {
            let body = state.take()?;
            put(alloc, Term::Atomic(mode, body), state)
        }
        One::Throw => {
            let thrown = state.take()?;
            put(alloc, Term::Throw(thrown), state)
        }
        One::WriteTop(n) => {
            let value = state.take()?;
            put(
                alloc,
                Term::Write(Slot::Location(Loc(n as u64)), value),
                state,
            )
        }
        One::Write => {
            let (n, value) = take_by_number(state)?;
            put(alloc, Term::Write(Slot::Variable(n), value), state)
        }
        One::RaiseTop(chosen, n) => {
            let value = state.take()?;
            let slot = Slot::Location(Loc(n as u64));
            put(alloc, raise(alloc, known, chosen, slot, value)?, state)
        }
        One::Raise(chosen) => {
            let (n, value) = take_by_number(state)?;
            put(
                alloc,
                raise(alloc, known, chosen, Slot::Variable(n), value)?,
                state,
            )
        }
        One::Compare(chosen) => {
            let n = state.numbers.newest();
            let compared = state.take()?;
            put(alloc, compare(alloc, known, chosen, n, compared)?, state)
        }
        One::Function(parameters, ty) => {
            let first = state.take_number()?;
            let (number, body) = take_by_number(state)?;
            put(
                alloc,
                function_of(alloc, number, first, parameters, ty, body)?,
                state,
            )
        }
    }
}

/// A variable with the sum of what it holds and another term.
fn raise(
    alloc: Global,
    known: &Known,
    chosen: &Chosen,
    slot: Slot,
    value: Shared<Term>,
) -> Result<Term, Memory>
    ensures { IfOk result (λ term. term ≡ raised (given_of known.now) chosen.now slot value) }
{
    let read = Shared::new(alloc, Term::Read(slot))?;
    let sum = operated(alloc, known, chosen, read, value)?;
    Ok(Term::Write(slot, Shared::new(alloc, sum)?))
}

/// The comparison of a variable with a term.
fn compare(
    alloc: Global,
    known: &Known,
    chosen: &Chosen,
    number: u32,
    compared: Shared<Term>,
) -> Result<Term, Memory>
    ensures { IfOk result (λ term. term
        ≡ operated_of (given_of known.now) chosen.now (Variable number) compared) }
{
    let subject = Shared::new(alloc, Term::Variable(number))?;
    operated(alloc, known, chosen, subject, compared)
}

/// The variables of parameters, from a number on.
fn variables_of(
    alloc: Global,
    first: u32,
    parameters: &[Parameter],
) -> Result<List<(u32, Ty)>, Memory>
    ensures { IfOk result (λ list. list ≡ typed_variables first (map parameter parameters.now)) }
{
    let mut list = List::new(alloc);
    let mut number = first;
    for parameter in parameters {
        list.push((number, parameter.ty.copy(alloc)?))?;
        number = match number.checked_add(1) {
            Some(next) => next,
            None => return Err(Memory),
        };
    }
    Ok(list)
}

/// A function by its number, the number of its first parameter, its parameters, the type of its
/// body, and that.
fn function_of(
    alloc: Global,
    number: u32,
    first: u32,
    parameters: &[Parameter],
    ty: &Ty,
    body: Shared<Term>,
) -> Result<Term, Memory>
    ensures { IfOk result (λ term. term
        ≡ function_term number first (map parameter parameters.now) ty.now body) }
{
    let parameters = Shared::new(alloc, variables_of(alloc, first, parameters)?)?;
    let result = Shared::new(alloc, ty.copy(alloc)?)?;
    let closure = Closure {
        number,
        parameters,
        result,
        body,
        held: List::new(alloc),
    };
    function(alloc, closure)
}
