//! What a reduction gives over no item. The chapter "Forms" of docs/TRANSLATION.md.
ghost use Rattle.std.specs.Prelude.{◌≡◌, IfOk};
ghost use Rattle.fort_elab_meaning.specs.Read.{given_of};
ghost use Rattle.fort_elab_meaning.specs.Values.{is_large_at, neutral, number_as};
ghost use Rattle.fort_base.specs.declared.ty.Ty.{out-Ty};

use crate::objects::no_item;
use fort_base::{Memory, Ty};
use fort_core::{Term, Value};
use fort_elab_meaning::Known;
use fort_form::Reduction;
use fort_types_builtin::ZZ64;
use std::alloc::Global;

/// Whether a type is ZZ64.
fn is_large(ty: &Ty) -> bool
    ensures { result ≡ is_large_at (out-Ty ty.now) }
{
    match ty {
        Ty::Named(id) => id.0 == ZZ64.0,
        _ => false,
    }
}

/// A number as a ZZ64 where that is the type, else as a ZZ32.
fn number_as(ty: &Ty, n: u16) -> Term
    ensures { result ≡ number_as ty.now n }
{
    if is_large(ty) {
        Term::Value(Value::Large(n as i64))
    } else {
        Term::Value(Value::Small(n as i32))
    }
}

/// What a reduction of a type gives over no item: the neutral value of its operator, or a throw
/// where there is none.
pub fn neutral(alloc: Global, known: &Known, reduction: Reduction, ty: &Ty) -> Result<Term, Memory>
    ensures { IfOk result (λ term. term ≡ neutral (given_of known.now) reduction ty.now) }
{
    match reduction {
        Reduction::Sum => Ok(number_as(ty, 0)),
        Reduction::Product => Ok(number_as(ty, 1)),
        Reduction::Maximum => no_item(alloc, known),
        Reduction::Minimum => no_item(alloc, known),
        Reduction::Conjunction => Ok(Term::Value(Value::Truth(true))),
        Reduction::Disjunction => Ok(Term::Value(Value::Truth(false))),
    }
}
