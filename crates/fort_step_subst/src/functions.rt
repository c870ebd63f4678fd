//! The term of a function.
ghost use Rattle.std.specs.Prelude.{◌≡◌, ◌&&◌, nat_le, IfOk};
ghost use Rattle.fort_machine.specs.Scopes.{function as function_of, holds_all as holds_all_of};
ghost use Rattle.fort_machine.specs.Substitution.{held_by};
ghost use Rattle.fort_machine.specs.Texts.{closure_depth, deepest};
ghost use Rattle.fort_step_subst.specs.Changes.{Changes};
ghost use Rattle.fort_step_subst.specs.Places.{function_with};

use crate::held::put_held;
use fort_base::{List, Memory, Shared};
use fort_core::{Closure, Term, Value};
use fort_step_closed::{holds_all, is_shallow_function, occurs};
use std::alloc::Global;

/// The term of a function: the function itself where it holds all that it needs and isn't too
/// deep. The chapter "Substitution".
///
/// # Errors
///
/// `Memory` where memory is wanting.
pub fn function(alloc: Global, closure: Closure) -> Result<Term, Memory>
    ensures { IfOk result (λ term. term ≡ function_of closure) }
{
    let is_value = is_value(alloc, &closure)?;
    let closure = Shared::new(alloc, closure)?;
    if is_value {
        Ok(Term::Value(Value::Function(closure)))
    } else {
        Ok(Term::Fn(closure))
    }
}

fn is_value(alloc: Global, closure: &Closure) -> Result<bool, Memory>
    ensures { IfOk result (λ is. is
        ≡ (holds_all_of closure.now && nat_le (closure_depth closure.now) deepest)) }
{
    Ok(holds_all(alloc, closure)? && is_shallow_function(closure))
}

// A function that hasn't changed: it may be a value all the same.
pub(crate) fn same_function(
    alloc: Global,
    closure: &Shared<Closure>,
) -> Result<Option<Shared<Term>>, Memory>
    ensures { IfOk result
        (λ found. Changes (λ _. function_of closure.now) (Term.Fn closure.now) found) }
{
    if is_value(alloc, closure.get())? {
        let function = Value::Function(closure.share()?);
        Ok(Some(Shared::new(alloc, Term::Value(function))?))
    } else {
        Ok(None)
    }
}

// A function that holds a value where its variable stands in the body.
pub(crate) fn holding(
    alloc: Global,
    closure: &Shared<Closure>,
    variable: u32,
    value: &Value,
) -> Result<Option<Shared<Term>>, Memory>
    ensures { IfOk result
        (λ found. Changes (λ _. function_of (held_by variable value.now closure.now))
        (Term.Fn closure.now) found) }
{
    if occurs(closure.get().body.get(), variable) {
        let held = put_held(alloc, variable, value, &closure.get().held)?;
        let made = function(alloc, with_held(closure.get(), held)?)?;
        Ok(Some(Shared::new(alloc, made)?))
    } else {
        same_function(alloc, closure)
    }
}

fn with_held(closure: &Closure, held: List<(u32, Value)>) -> Result<Closure, Memory>
    ensures { IfOk result (λ made. made ≡ record closure.now { held = held }) }
{
    let parameters = closure.parameters.share()?;
    let result = closure.result.share()?;
    Ok(Closure {
        number: closure.number,
        parameters,
        result,
        body: closure.body.share()?,
        held,
    })
}

// A function with another body.
#[tactic(auto, unfolding(crate::specs::Places::function_with))]
pub(crate) fn with_body(
    alloc: Global,
    closure: &Closure,
    body: Shared<Term>,
) -> Result<Option<Shared<Term>>, Memory>
    ensures { IfOk result
        (λ found. Changes (λ _. function_with closure.now body) (Term.Fn closure.now) found) }
{
    let mut made = closure.copy(alloc)?;
    made.body = body;
    Ok(Some(Shared::new(alloc, function(alloc, made)?)?))
}
