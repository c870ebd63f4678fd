//! Terms without parts. The chapter "Forms" of docs/TRANSLATION.md.
ghost use Rattle.std.specs.Prelude.{◌≡◌, ◌∷◌, [], IfOk, OnOk};
ghost use Rattle.fort_elab_tasks.specs.Builds.{compared, leaf_built};
ghost use Rattle.fort_core.specs.declared.term.Term.{Operator, Variable};
ghost use Rattle.fort_elab_meaning.specs.Calls.{comparisons as comparisons_of, joined as joined_of, operated as operated_of};
ghost use Rattle.fort_elab_meaning.specs.Read.{given_of};
ghost use Rattle.fort_elab_meaning.specs.Targets.{variable_term};

use crate::taking::put;
use fort_base::{List, Loc, Memory, SetId, Shared};
use fort_core::{Slot, Term, Value};
use fort_elab_constants::{no_match, number, operated, single, text, unit_term};
use fort_elab_meaning::Known;
use fort_elab_tasks::{Leaf, State};
use fort_form_typed::Chosen;
use std::alloc::Global;

/// A term without parts is finished.
pub fn build_leaf(alloc: Global, known: &Known, leaf: Leaf, state: &mut State) -> Result<(), Memory>
    ensures { OnOk result (state.new ≡ leaf_built (given_of known.now) leaf.entry state.old) }
{
    match leaf {
        Leaf::Number(n) => put(alloc, Term::Value(number(n)?), state),
        Leaf::Text(n) => put(alloc, Term::Value(text(alloc, known.texts, n)?), state),
        Leaf::Truth(truth) => put(alloc, Term::Value(Value::Truth(truth)), state),
        Leaf::Variable(mutable) => {
            let n = state.take_number()?;
            put(alloc, variable(mutable, n), state)
        }
        Leaf::Top(n) => put(alloc, Term::Read(Slot::Location(Loc(n as u64))), state),
        Leaf::Single(id) => put(alloc, Term::Value(single(known, id)), state),
        Leaf::Receiver => put(alloc, Term::Variable(state.receiver), state),
        Leaf::Unit => put(alloc, unit_term(alloc)?, state),
        Leaf::NoMatch => put(alloc, no_match(alloc, known)?, state),
        Leaf::Comparisons(set, calls, count) => {
            let term = chained(alloc, known, set, calls, state.numbers.latest(count))?;
            put(alloc, term, state)
        }
    }
}

/// An immutable variable stands for its value, a mutable one is read.
fn variable(mutable: bool, number: u32) -> Term
    ensures { result ≡ variable_term mutable number }
{
    if mutable {
        Term::Read(Slot::Variable(number))
    } else {
        Term::Variable(number)
    }
}

/// The comparison of two variables.
fn comparison(
    alloc: Global,
    known: &Known,
    chosen: &Chosen,
    left: u32,
    right: u32,
) -> Result<Shared<Term>, Memory>
    ensures { IfOk result (λ term. term
        ≡ operated_of (given_of known.now) chosen.now (Variable left) (Variable right)) }
{
    let left = Shared::new(alloc, Term::Variable(left))?;
    let right = Shared::new(alloc, Term::Variable(right))?;
    Shared::new(alloc, operated(alloc, known, chosen, left, right)?)
}

/// The comparisons of a chain, each of a variable and the next one.
#[tactic(auto, using(crate::proofs::Rows::one_more, crate::proofs::Rows::no_calls, crate::proofs::Rows::no_sides))]
fn comparisons(
    alloc: Global,
    known: &Known,
    calls: &[Chosen],
    sides: &[u32],
) -> Result<List<Shared<Term>>, Memory>
    ensures { IfOk result (λ list. list ≡ comparisons_of (given_of known.now) calls.now sides.now) }
{
    let mut list = List::new(alloc);
    for at in 0..calls.len() {
        let next = at + 1;
        if sides.len() <= next {
            return Ok(list);
        }
        let term = comparison(alloc, known, &calls[at], sides[at], sides[next])?;
        list.push(term)?;
    }
    Ok(list)
}

/// Two terms joined by a set.
fn pair(
    alloc: Global,
    set: SetId,
    first: Shared<Term>,
    second: Shared<Term>,
) -> Result<Shared<Term>, Memory>
    ensures { IfOk result (λ term. term ≡ Operator set (first ∷ second ∷ [])) }
{
    let mut operands = List::new(alloc);
    operands.push(first)?;
    operands.push(second)?;
    Shared::new(alloc, Term::Operator(set, operands))
}

/// Comparisons joined to the right.
#[tactic(auto, using(crate::proofs::Joins::last_two))]
fn joined(alloc: Global, set: SetId, terms: List<Shared<Term>>) -> Result<Term, Memory>
    ensures { IfOk result (λ term. term ≡ joined_of set terms) }
{
    let mut terms = terms;
    let mut last = match terms.pop() {
        None => return unit_term(alloc),
        Some(term) => term,
    };
    'terms: while let Some(term) = terms.pop() {
        last = pair(alloc, set, term, last)?;
    }
    last.get().copy(alloc)
}

/// The comparisons of a chain joined to the right, by the variables of its sides.
fn chained(
    alloc: Global,
    known: &Known,
    set: SetId,
    calls: &[Chosen],
    sides: &[u32],
) -> Result<Term, Memory>
    ensures { IfOk result (λ term. term ≡ compared (given_of known.now) set calls.now sides.now) }
{
    joined(alloc, set, comparisons(alloc, known, calls, sides)?)
}
