//! The parts of a form, of which some have changed.
ghost use Rattle.std.specs.Prelude.{◌≡◌, IfOk};
ghost use Rattle.fort_step_subst.specs.Changes.{Changes, ChangesChoice, ChangesClauses, ChangesLast, ChangesThree, ChangesTry, ChangesTwo};
ghost use Rattle.fort_step_subst.specs.Places.{placed as placed_of};

use crate::put::Put;
use fort_base::{List, Memory, Shared, Ty};
use fort_core::Term;
use std::alloc::Global;

/// The clauses of a form, each with its type.
pub(crate) type Clauses = List<(Shared<Term>, Shared<Ty>)>;

fn shared_clauses(alloc: Global, clauses: &Clauses) -> Result<Clauses, Memory>
    ensures { IfOk result (λ made. made ≡ clauses.now) }
{
    let mut all = List::new(alloc);
    for clause in clauses.as_slice() {
        all.push((clause.0.share()?, clause.1.share()?))?;
    }
    Ok(all)
}

// Two parts as they are now, where one of them has changed.
pub(crate) fn two(
    first: &Shared<Term>,
    one: Option<Shared<Term>>,
    second: &Shared<Term>,
    other: Option<Shared<Term>>,
    _put: &Put,
) -> Result<Option<(Shared<Term>, Shared<Term>)>, Memory>
    requires one { Changes (placed_of _put.now) first.now one }
    requires other { Changes (placed_of _put.now) second.now other }
    ensures { IfOk result (λ found. ChangesTwo (placed_of _put.now) first.now second.now found) }
{
    match (one, other) {
        (None, None) => Ok(None),
        (Some(one), None) => Ok(Some((one, second.share()?))),
        (None, Some(other)) => Ok(Some((first.share()?, other))),
        (Some(one), Some(other)) => Ok(Some((one, other))),
    }
}

// Three parts as they are now, where one of them has changed.
pub(crate) fn three(
    first: &Shared<Term>,
    second: &Shared<Term>,
    both: Option<(Shared<Term>, Shared<Term>)>,
    third: &Shared<Term>,
    last: Option<Shared<Term>>,
    _put: &Put,
) -> Result<Option<(Shared<Term>, Shared<Term>, Shared<Term>)>, Memory>
    requires both { ChangesTwo (placed_of _put.now) first.now second.now both }
    requires last { Changes (placed_of _put.now) third.now last }
    ensures { IfOk result
        (λ found. ChangesThree (placed_of _put.now) first.now second.now third.now found) }
{
    match (both, last) {
        (None, None) => Ok(None),
        (Some((first, second)), None) => Ok(Some((first, second, third.share()?))),
        (None, Some(last)) => Ok(Some((first.share()?, second.share()?, last))),
        (Some((first, second)), Some(last)) => Ok(Some((first, second, last))),
    }
}

// Two parts and clauses as they are now, where one of them has changed.
pub(crate) fn choice(
    alloc: Global,
    first: &Shared<Term>,
    second: &Shared<Term>,
    both: Option<(Shared<Term>, Shared<Term>)>,
    clauses: &Clauses,
    found: Option<Clauses>,
    _put: &Put,
) -> Result<Option<(Shared<Term>, Shared<Term>, Clauses)>, Memory>
    requires both { ChangesTwo (placed_of _put.now) first.now second.now both }
    requires found { ChangesClauses (placed_of _put.now) clauses.now found }
    ensures { IfOk result
        (λ made. ChangesChoice (placed_of _put.now) first.now second.now clauses.now made) }
{
    match (both, found) {
        (None, None) => Ok(None),
        (Some((first, second)), None) => {
            Ok(Some((first, second, shared_clauses(alloc, clauses)?)))
        }
        (None, Some(found)) => Ok(Some((first.share()?, second.share()?, found))),
        (Some((first, second)), Some(found)) => Ok(Some((first, second, found))),
    }
}

/// A body, clauses and a `finally`.
pub(crate) type Handled = (Shared<Term>, Clauses, Option<Shared<Term>>);

// A body, clauses and a `finally` as they are now, where one of them has changed.
pub(crate) fn guarded(
    alloc: Global,
    body: &Shared<Term>,
    one: Option<Shared<Term>>,
    clauses: &Clauses,
    found: Option<Clauses>,
    last: &Option<Shared<Term>>,
    other: Option<Option<Shared<Term>>>,
    _put: &Put,
) -> Result<Option<Handled>, Memory>
    requires one { Changes (placed_of _put.now) body.now one }
    requires found { ChangesClauses (placed_of _put.now) clauses.now found }
    requires other { ChangesLast (placed_of _put.now) last.now other }
    ensures { IfOk result
        (λ made. ChangesTry (placed_of _put.now) body.now clauses.now last.now made) }
{
    match (one, found, other) {
        (None, None, None) => Ok(None),
        (None, None, Some(last)) => {
            Ok(Some((body.share()?, shared_clauses(alloc, clauses)?, last)))
        }
        (None, Some(clauses), None) => { Ok(Some((body.share()?, clauses, shared_last(last)?))) }
        (None, Some(clauses), Some(last)) => Ok(Some((body.share()?, clauses, last))),
        (Some(body), None, None) => {
            Ok(Some((body, shared_clauses(alloc, clauses)?, shared_last(last)?)))
        }
        (Some(body), None, Some(last)) => {
            Ok(Some((body, shared_clauses(alloc, clauses)?, last)))
        }
        (Some(body), Some(clauses), None) => Ok(Some((body, clauses, shared_last(last)?))),
        (Some(body), Some(clauses), Some(last)) => Ok(Some((body, clauses, last))),
    }
}

// A `try` with its body, clauses and `finally` as they are now.
#[tactic(auto, using(crate::proofs::Tries::tries))]
pub(crate) fn tried(
    alloc: Global,
    _body: &Shared<Term>,
    variable: u32,
    _clauses: &Clauses,
    _last: &Option<Shared<Term>>,
    found: Option<Handled>,
    _put: &Put,
) -> Result<Option<Shared<Term>>, Memory>
    requires { ChangesTry (placed_of _put.now) _body.now _clauses.now _last.now found }
    ensures { IfOk result
        (λ made. Changes (placed_of _put.now) (Term.Try _body.now variable _clauses.now _last.now)
        made) }
{
    match found {
        None => Ok(None),
        Some((body, clauses, last)) => {
            let made = Term::Try(body, variable, clauses, last);
            Ok(Some(Shared::new(alloc, made)?))
        }
    }
}

fn shared_last(last: &Option<Shared<Term>>) -> Result<Option<Shared<Term>>, Memory>
    ensures { IfOk result (λ made. made ≡ last.now) }
{
    match last {
        None => Ok(None),
        Some(term) => Ok(Some(term.share()?)),
    }
}
