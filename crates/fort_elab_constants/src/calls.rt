//! Calls with their widened arguments. The chapter "Forms" of docs/TRANSLATION.md.
ghost use Rattle.std.specs.Prelude.{◌≡◌, IfOk, false, get_or};
ghost use Rattle.fort_elab_meaning.specs.Calls.{argument, call, operated, operation, widened};
ghost use Rattle.fort_elab_meaning.specs.Read.{given_of};
ghost use Rattle.fort_elab_meaning.specs.Values.{unit_term};

use fort_base::{List, Memory, Shared};
use fort_core::{Term, Value};
use fort_elab_meaning::Known;
use fort_form_typed::Chosen;
use std::alloc::Global;

/// The term `()`.
pub fn unit_term(alloc: Global) -> Result<Term, Memory>
    ensures { IfOk result (λ term. term ≡ unit_term) }
{
    Ok(Term::Value(Value::unit(alloc)?))
}

/// Whether the argument of that number is widened.
fn is_widened(flags: &[bool], at: usize) -> bool
    ensures { result ≡ get_or flags.now at false }
{
    match flags.get(at) {
        Some(flag) => *flag,
        None => false,
    }
}

/// An argument, with a call of `widen` round it where it is widened.
fn argument(
    alloc: Global,
    known: &Known,
    is_widened: bool,
    term: &Shared<Term>,
) -> Result<Shared<Term>, Memory>
    ensures { IfOk result (λ made. made ≡ argument (given_of known.now) is_widened term.now) }
{
    if !is_widened {
        return term.share();
    }
    let mut arguments = List::new(alloc);
    arguments.push(term.share()?)?;
    Shared::new(alloc, Term::Call(known.widen, arguments))
}

/// The arguments of a call.
#[tactic(auto, using(crate::proofs::Widening::one_more))]
fn widened(
    alloc: Global,
    known: &Known,
    flags: &[bool],
    terms: &[Shared<Term>],
) -> Result<List<Shared<Term>>, Memory>
    ensures { IfOk result (λ list. list ≡ widened (given_of known.now) flags.now terms.now) }
{
    let mut all = List::new(alloc);
    for i in 0..terms.len() {
        all.push(argument(alloc, known, is_widened(flags, i), &terms[i])?)?;
    }
    Ok(all)
}

/// A call of a set.
pub fn call(
    alloc: Global,
    known: &Known,
    chosen: &Chosen,
    terms: &List<Shared<Term>>,
) -> Result<Term, Memory>
    ensures { IfOk result (λ term. term ≡ call (given_of known.now) chosen.now terms.now) }
{
    let arguments = widened(alloc, known, chosen.widened.as_slice(), terms.as_slice())?;
    Ok(Term::Call(chosen.set, arguments))
}

/// A call of an operator's set.
pub fn operation(
    alloc: Global,
    known: &Known,
    chosen: &Chosen,
    terms: &List<Shared<Term>>,
) -> Result<Term, Memory>
    ensures { IfOk result (λ term. term ≡ operation (given_of known.now) chosen.now terms.now) }
{
    let operands = widened(alloc, known, chosen.widened.as_slice(), terms.as_slice())?;
    Ok(Term::Operator(chosen.set, operands))
}

/// A call of an operator of two terms.
pub fn operated(
    alloc: Global,
    known: &Known,
    chosen: &Chosen,
    left: Shared<Term>,
    right: Shared<Term>,
) -> Result<Term, Memory>
    ensures { IfOk result (λ term. term ≡ operated (given_of known.now) chosen.now left right) }
{
    let mut operands = List::new(alloc);
    operands.push(left)?;
    operands.push(right)?;
    operation(alloc, known, chosen, &operands)
}
