//! The term of a tuple.
ghost use Rattle.std.specs.Prelude.{◌≡◌, Some, IfOk};
ghost use Rattle.fort_machine.specs.Ends.{group as group_of, tuple_of, values_of};
ghost use Rattle.fort_step_subst.specs.Changes.{Changes};

use fort_base::{List, Memory, Shared};
use fort_core::{Term, Value};
use fort_step_closed::may_stand;
use std::alloc::Global;

/// The term of a tuple: the tuple itself where all its parts are values and it isn't too deep. The
/// chapter "Terms and threads".
///
/// # Errors
///
/// `Memory` where memory is wanting.
pub fn group(alloc: Global, parts: List<Shared<Term>>) -> Result<Term, Memory>
    ensures { IfOk result (λ term. term ≡ group_of parts) }
{
    match values(alloc, &parts)? {
        None => Ok(Term::Group(parts)),
        Some(values) => tuple(alloc, parts, values),
    }
}

fn tuple(alloc: Global, parts: List<Shared<Term>>, values: List<Value>) -> Result<Term, Memory>
    ensures { IfOk result (λ term. term ≡ tuple_of parts (Some values)) }
{
    if may_stand(&values) {
        Ok(Term::Value(Value::Tuple(Shared::new(alloc, values)?)))
    } else {
        Ok(Term::Group(parts))
    }
}

/// The values of terms that all are values, or `None` where one of them isn't. The chapter "Terms
/// and threads".
///
/// # Errors
///
/// `Memory` where memory is wanting.
pub fn values(alloc: Global, parts: &List<Shared<Term>>) -> Result<Option<List<Value>>, Memory>
    ensures { IfOk result (λ found. found ≡ values_of parts.now) }
{
    let mut all = List::new(alloc);
    for part in parts.as_slice() {
        match part.get() {
            Term::Value(value) => all.push(value.share()?)?,
            _ => return Ok(None),
        }
    }
    Ok(Some(all))
}

// A tuple none of whose parts has changed: it may be a value all the same.
pub(crate) fn same_group(
    alloc: Global,
    parts: &List<Shared<Term>>,
) -> Result<Option<Shared<Term>>, Memory>
    ensures { IfOk result
        (λ found. Changes (λ _. group_of parts.now) (Term.Group parts.now) found) }
{
    match values(alloc, parts)? {
        None => Ok(None),
        Some(values) => same_tuple(alloc, parts, values),
    }
}

fn same_tuple(
    alloc: Global,
    _parts: &List<Shared<Term>>,
    values: List<Value>,
) -> Result<Option<Shared<Term>>, Memory>
    ensures { IfOk result
        (λ found. Changes (λ _. tuple_of _parts.now (Some values)) (Term.Group _parts.now) found) }
{
    if may_stand(&values) {
        let tuple = Value::Tuple(Shared::new(alloc, values)?);
        Ok(Some(Shared::new(alloc, Term::Value(tuple))?))
    } else {
        Ok(None)
    }
}
