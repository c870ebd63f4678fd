//! Terms of three parts. The chapter "Forms" of docs/TRANSLATION.md.
ghost use Rattle.std.specs.Prelude.{◌≡◌, ◌∷◌, IfOk, OnOk};
ghost use Rattle.fort_elab_tasks.specs.Builds.{element_write, three_built};
ghost use Rattle.fort_elab_meaning.specs.Read.{given_of};

use crate::taking::{put, take_two};
use crate::twos::local;
use fort_base::{Memory, Shared, Ty};
use fort_core::Term;
use fort_elab_constants::operated;
use fort_elab_meaning::Known;
use fort_elab_tasks::{State, Three};
use fort_form_typed::Chosen;
use std::alloc::Global;

/// A term of three parts is finished.
pub fn build_three(
    alloc: Global,
    known: &Known,
    three: Three,
    state: &mut State,
) -> Result<(), Memory>
    ensures { OnOk result (state.new ≡ three_built (given_of known.now) three.entry state.old) }
{
    match three {
        Three::If => {
            let no = state.take()?;
            let (test, yes) = take_two(state)?;
            put(alloc, Term::If(test, yes, no), state)
        }
        Three::WriteElement => {
            let value = state.take()?;
            let (array, index) = take_two(state)?;
            put(alloc, Term::WriteElement(array, index, value), state)
        }
        Three::UpdateElement(ty, of, chosen) => {
            let m = state.take_number()?;
            let n = state.take_number()?;
            let value = state.take()?;
            let (array, index) = take_two(state)?;
            let write = written(alloc, known, n, m, chosen, value)?;
            let inner = Shared::new(alloc, local(alloc, m, of, index, write)?)?;
            put(alloc, local(alloc, n, ty, array, inner)?, state)
        }
    }
}

/// `x[y] + e` is written to `x[y]`, where x and y have these numbers.
fn written(
    alloc: Global,
    known: &Known,
    array: u32,
    index: u32,
    chosen: &Chosen,
    value: Shared<Term>,
) -> Result<Shared<Term>, Memory>
    ensures { IfOk result (λ term. term
        ≡ element_write (given_of known.now) array index chosen.now value) }
{
    let array = Shared::new(alloc, Term::Variable(array))?;
    let index = Shared::new(alloc, Term::Variable(index))?;
    let read = Shared::new(alloc, Term::ReadElement(array.share()?, index.share()?))?;
    let sum = Shared::new(alloc, operated(alloc, known, chosen, read, value)?)?;
    Shared::new(alloc, Term::WriteElement(array, index, sum))
}
