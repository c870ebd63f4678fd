//! The last finished terms are taken, and a new one is put in their place.
ghost use Rattle.std.specs.Prelude.{◌≡◌, ◌∷◌, IfOk, OnOk};
ghost use Rattle.fort_elab_tasks.specs.States.{put as put_term};

use fort_base::{List, Memory, Shared};
use fort_core::Term;
use fort_elab_tasks::State;
use std::alloc::Global;

/// A term is finished.
pub(crate) fn put(alloc: Global, term: Term, state: &mut State) -> Result<(), Memory>
    ensures { OnOk result (state.new ≡ put_term term state.old) }
{
    let term = Shared::new(alloc, term)?;
    state.put(term)
}

/// Takes two parts; the second one is on top.
pub(crate) fn take_two(state: &mut State) -> Result<(Shared<Term>, Shared<Term>), Memory>
    ensures { IfOk result (λ parts. state.old
        ≡ record state.new { terms = parts.1 ∷ parts.0 ∷ state.new.terms }) }
{
    let second = state.take()?;
    let first = state.take()?;
    Ok((first, second))
}

/// Takes the newest number, and a part.
pub(crate) fn take_by_number(state: &mut State) -> Result<(u32, Shared<Term>), Memory>
    ensures { IfOk result (λ parts. state.old
        ≡ record state.new {
          numbers = parts.0 ∷ state.new.numbers;
          terms = parts.1 ∷ state.new.terms;
        }) }
{
    let number = state.take_number()?;
    let part = state.take()?;
    Ok((number, part))
}

/// Takes the newest number, and two parts.
pub(crate) fn take_two_by_number(
    state: &mut State,
) -> Result<(u32, Shared<Term>, Shared<Term>), Memory>
    ensures { IfOk result (λ parts. state.old
        ≡ record state.new {
          numbers = parts.0 ∷ state.new.numbers;
          terms = parts.2 ∷ parts.1 ∷ state.new.terms;
        }) }
{
    let number = state.take_number()?;
    let (first, second) = take_two(state)?;
    Ok((number, first, second))
}

/// Takes the newest number, and the last list.
pub(crate) fn take_list_by_number(state: &mut State) -> Result<(u32, List<Shared<Term>>), Memory>
    ensures { IfOk result (λ parts. state.old
        ≡ record state.new {
          numbers = parts.0 ∷ state.new.numbers;
          lists = parts.1 ∷ state.new.lists;
        }) }
{
    let number = state.take_number()?;
    let list = state.take_list()?;
    Ok((number, list))
}
