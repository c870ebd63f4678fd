//! How a form goes on by a value that was read, or by a location that was made.
ghost use Rattle.std.specs.Prelude.{◌≡◌, IfOk};
ghost use Rattle.fort_step_deal.specs.Deals.{made_by, next_by};

use fort_base::{Loc, Memory, Shared};
use fort_core::{Term, Value};
use fort_step_deal::{Goes, Makes};
use fort_step_subst::{put_location, put_value};
use std::alloc::Global;

/// The term as which a form goes on by a value that it reads. The chapter "Steps and costs".
///
/// # Errors
///
/// `Memory` where memory is wanting.
pub fn went(alloc: Global, goes: Goes, value: Value) -> Result<Shared<Term>, Memory>
    ensures { IfOk result (λ term. term ≡ next_by goes value) }
{
    match goes {
        Goes::Value => Shared::new(alloc, Term::Value(value)),
        Goes::Body(variable, body) => put_value(alloc, &body, variable, &value),
        Goes::First(variable, body, rest) => {
            let first = put_value(alloc, &body, variable, &value)?;
            Shared::new(alloc, Term::Then(first, rest))
        }
    }
}

/// The term as which a form goes on by the first location that it makes. The chapter "Steps and
/// costs".
///
/// # Errors
///
/// `Memory` where memory is wanting.
pub fn made(alloc: Global, makes: &Makes, at: Loc) -> Result<Shared<Term>, Memory>
    ensures { IfOk result (λ term. term ≡ made_by makes.now at.0) }
{
    match makes {
        Makes::Local(_, variable, rest) => put_location(alloc, rest, *variable, at),
        Makes::Object(id, _) => Shared::new(alloc, Term::Value(Value::Object(*id, Loc(at.0)))),
        Makes::Array(ty, _, count) => {
            let array = Value::Array(ty.share()?, Loc(at.0), *count as u64);
            Shared::new(alloc, Term::Value(array))
        }
    }
}
