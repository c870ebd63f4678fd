//! Single objects, and the throws of built-in exceptions. The chapter "Values" of
//! docs/TRANSLATION.md.
ghost use Rattle.std.specs.Prelude.{◌≡◌, IfOk};
ghost use Rattle.fort_elab_meaning.specs.Read.{given_of};
ghost use Rattle.fort_elab_meaning.specs.Values.{base_of_kind, no_item, no_match, single};

use fort_base::{Loc, Memory, Shared, TypeId};
use fort_core::{CoreKind, Term, Value};
use fort_elab_meaning::Known;
use fort_types_builtin::{EMPTY_REDUCTION, MATCH_FAILURE};
use std::alloc::Global;

/// The base of a type's single object.
fn base_of_kind(kind: CoreKind) -> Loc
    ensures { result ≡ base_of_kind kind }
{
    match kind {
        CoreKind::Single(base) => base,
        _ => Loc(0),
    }
}

/// The single object of a type.
pub fn single(known: &Known, id: TypeId) -> Value
    ensures { result ≡ single (given_of known.now) id }
{
    match known.shapes.get(id.0 as usize) {
        Some(shape) => Value::Object(id, base_of_kind(shape.kind)),
        None => Value::Object(id, Loc(0)),
    }
}

/// The throw where no clause matches.
pub fn no_match(alloc: Global, known: &Known) -> Result<Term, Memory>
    ensures { IfOk result (λ term. term ≡ no_match (given_of known.now)) }
{
    let thrown = Term::Value(single(known, MATCH_FAILURE));
    Ok(Term::Throw(Shared::new(alloc, thrown)?))
}

/// The throw of a reduction over no item.
pub fn no_item(alloc: Global, known: &Known) -> Result<Term, Memory>
    ensures { IfOk result (λ term. term ≡ no_item (given_of known.now)) }
{
    let thrown = Term::Value(single(known, EMPTY_REDUCTION));
    Ok(Term::Throw(Shared::new(alloc, thrown)?))
}
