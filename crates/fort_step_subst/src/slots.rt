//! The forms that a substitution changes themselves, and parts of lists.
ghost use Rattle.std.specs.Prelude.{◌≡◌, false, IfOk, MatchOption};
ghost use Rattle.fort_step_subst.specs.Changes.{Changes};
ghost use Rattle.fort_step_subst.specs.Places.{placed as placed_of, slot_placed, variable_placed};

use crate::put::Put;
use fort_base::{List, Loc, Memory, Shared};
use fort_core::{Slot, Term, Value};
use std::alloc::Global;

pub(crate) fn in_variable(
    alloc: Global,
    other: u32,
    put: &Put,
) -> Result<Option<Shared<Term>>, Memory>
    ensures { IfOk result
        (λ found. Changes (λ _. variable_placed put.now other) (Term.Variable other) found) }
{
    match put {
        Put::Given(variable, value) => {
            if *variable == other {
                Ok(Some(Shared::new(alloc, Term::Value(value.share()?))?))
            } else {
                Ok(None)
            }
        }
        Put::Located(_, _) => Ok(None),
    }
}

// The slot with its location, where it gets one.
fn in_slot(slot: Slot, put: &Put) -> Option<Slot>
    ensures { MatchOption result (slot_placed put.now slot ≡ slot) (λ changed. changed
        ≡ slot_placed put.now slot) }
{
    match put {
        Put::Given(_, _) => None,
        Put::Located(variable, loc) => match slot {
            Slot::Variable(other) => {
                if *variable == other {
                    Some(Slot::Location(Loc(loc.0)))
                } else {
                    None
                }
            }
            Slot::Location(_) => None,
        },
    }
}

pub(crate) fn in_read(alloc: Global, slot: Slot, put: &Put) -> Result<Option<Shared<Term>>, Memory>
    ensures { IfOk result
        (λ found. Changes (λ _. Term.Read (slot_placed put.now slot)) (Term.Read slot) found) }
{
    match in_slot(slot, put) {
        None => Ok(None),
        Some(slot) => Ok(Some(Shared::new(alloc, Term::Read(slot))?)),
    }
}

pub(crate) fn in_write(
    alloc: Global,
    slot: Slot,
    value: &Shared<Term>,
    found: Option<Shared<Term>>,
    put: &Put,
) -> Result<Option<Shared<Term>>, Memory>
    requires { Changes (placed_of put.now) value.now found }
    ensures { IfOk result
        (λ made. Changes (λ _. Term.Write (slot_placed put.now slot) (placed_of put.now value.now))
        (Term.Write slot value.now) made) }
{
    match (in_slot(slot, put), found) {
        (None, None) => Ok(None),
        (None, Some(value)) => Ok(Some(Shared::new(alloc, Term::Write(slot, value))?)),
        (Some(slot), None) => Ok(Some(Shared::new(alloc, Term::Write(slot, value.share()?))?)),
        (Some(slot), Some(value)) => Ok(Some(Shared::new(alloc, Term::Write(slot, value))?)),
    }
}

// A part, and whether it is another one than before.
pub(crate) fn in_part(
    term: &Shared<Term>,
    found: Option<Shared<Term>>,
    _put: &Put,
) -> Result<(Shared<Term>, bool), Memory>
    requires { Changes (placed_of _put.now) term.now found }
    ensures part { IfOk result (λ made. made.0 ≡ placed_of _put.now term.now) }
    ensures kept { IfOk result (λ made. made.1 ≡ false → made.0 ≡ term.now) }
{
    match found {
        None => Ok((term.share()?, false)),
        Some(part) => Ok((part, true)),
    }
}

pub(crate) fn shared_marks(
    alloc: Global,
    marks: &List<(Loc, Value)>,
) -> Result<List<(Loc, Value)>, Memory>
    ensures { IfOk result (λ made. made ≡ marks.now) }
{
    let mut all = List::new(alloc);
    for mark in marks.as_slice() {
        all.push((mark.0, mark.1.share()?))?;
    }
    Ok(all)
}
