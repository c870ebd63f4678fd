//! Terms with a list of parts. The chapter "Forms" of docs/TRANSLATION.md.
ghost use Rattle.std.specs.Prelude.{◌≡◌, ◌++◌, ◌∷◌, IfOk, OnOk, drop};
ghost use Rattle.fort_elab_tasks.specs.Builds.{list_built};
ghost use Rattle.fort_elab_meaning.specs.Choices.{with_types as clauses_of};
ghost use Rattle.fort_elab_meaning.specs.Read.{given_of};

use crate::taking::{put, take_list_by_number, take_two};
use fort_base::{List, Memory, Shared, Ty};
use fort_core::Term;
use fort_elab_constants::{call, operation};
use fort_elab_meaning::Known;
use fort_elab_tasks::{State, Whole};
use fort_step_subst::group;
use std::alloc::Global;

/// A term with a list of parts is finished.
pub fn build_list(
    alloc: Global,
    known: &Known,
    whole: Whole,
    state: &mut State,
) -> Result<(), Memory>
    ensures { OnOk result (state.new ≡ list_built (given_of known.now) whole.entry state.old) }
{
    match whole {
        Whole::Group => {
            let parts = state.take_list()?;
            put(alloc, group(alloc, parts)?, state)
        }
        Whole::Call(chosen) => {
            let arguments = state.take_list()?;
            put(alloc, call(alloc, known, chosen, &arguments)?, state)
        }
        Whole::Operation(chosen) => {
            let operands = state.take_list()?;
            put(alloc, operation(alloc, known, chosen, &operands)?, state)
        }
        Whole::Also => {
            let blocks = state.take_list()?;
            put(alloc, Term::Also(blocks), state)
        }
        Whole::Typecase(types) => {
            let (n, list) = take_list_by_number(state)?;
            let (subject, other) = take_two(state)?;
            let clauses = with_types(alloc, list.as_slice(), types)?;
            put(alloc, Term::Typecase(n, subject, clauses, other), state)
        }
        Whole::Try(types) => {
            let (n, list) = take_list_by_number(state)?;
            let body = state.take()?;
            let clauses = with_types(alloc, list.as_slice(), types)?;
            put(alloc, Term::Try(body, n, clauses, None), state)
        }
        Whole::TryFinally(types) => {
            let (n, list) = take_list_by_number(state)?;
            let (body, last) = take_two(state)?;
            let clauses = with_types(alloc, list.as_slice(), types)?;
            put(alloc, Term::Try(body, n, clauses, Some(last)), state)
        }
    }
}

/// What clauses give, each with its type.
#[tactic(auto, using(crate::proofs::Rows::one_clause, crate::proofs::Rows::no_terms, crate::proofs::Rows::no_types))]
fn with_types(
    alloc: Global,
    terms: &[Shared<Term>],
    types: &[Ty],
) -> Result<List<(Shared<Term>, Shared<Ty>)>, Memory>
    ensures { IfOk result (λ list. list ≡ clauses_of terms.now types.now) }
{
    let mut list = List::new(alloc);
    for at in 0..terms.len() {
        if types.len() <= at {
            return Ok(list);
        }
        let term = terms[at].share()?;
        let ty = Shared::new(alloc, types[at].copy(alloc)?)?;
        list.push((term, ty))?;
    }
    Ok(list)
}
