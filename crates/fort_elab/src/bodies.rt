//! The bodies of functions and methods. The chapter "Programs" of docs/TRANSLATION.md.
ghost use Rattle.std.specs.Prelude.{◌≡◌, ◌+◌, ◌++◌, [], IfOk, Some, drop, length};
ghost use Rattle.fort_elab_meaning.specs.Bodies.{bodies, body_at, body_made, parameter_names, position, same_place};
ghost use Rattle.fort_elab_meaning.specs.Read.{given_of};

use fort_base::{List, Memory, Place, Shared};
use fort_core::Term;
use fort_elab_meaning::{Counter, Known};
use fort_elab_tasks::Names;
use fort_elab_terms::term;
use fort_form::Parameter;
use fort_form_typed::TypedBody;
use std::alloc::Global;

/// The term of a body, with the place of its declaration.
pub(crate) type Placed = (Place, Shared<Term>);

/// The number behind one, or want of memory where there is none.
pub(crate) fn following(number: u32) -> Result<u32, Memory>
    ensures { IfOk result (λ next. next ≡ number + 1) }
{
    match number.checked_add(1) {
        Some(next) => Ok(next),
        None => Err(Memory),
    }
}

/// The variable of the parameter that stands at this position among those with names.
fn position(receiver: Option<u32>, at: u32) -> Result<u32, Memory>
    ensures { IfOk result (λ number. number ≡ position receiver at) }
{
    match receiver {
        None => Ok(at),
        Some(before) => {
            if before > at {
                return Ok(at);
            }
            following(at)
        }
    }
}

/// A number of 32 bits, or want of memory where it has more.
fn narrow(n: usize) -> Result<u32, Memory>
    ensures { IfOk result (λ number. number ≡ n) }
{
    if n > u32::MAX as usize {
        return Err(Memory);
    }
    Ok(n as u32)
}

/// The names of parameters, each with its position.
fn parameters_in_scope(
    alloc: Global,
    receiver: Option<u32>,
    parameters: &[Parameter],
) -> Result<Names, Memory>
    ensures { IfOk result (λ names. names ≡ parameter_names receiver 0 parameters.now []) }
{
    let mut names = Names::new(alloc);
    let mut at = 0;
    for parameter in parameters {
        names.bind(parameter.name, position(receiver, at)?)?;
        at = following(at)?;
    }
    Ok(names)
}

/// The term of a body whose first function gets this number, and the next number of a function
/// behind it.
fn body_term(
    alloc: Global,
    known: &Known,
    function: u32,
    body: &TypedBody,
) -> Result<(Shared<Term>, u32), Memory>
    ensures { IfOk result
        (λ made. (made.0 ≡ (body_made (given_of known.now) function body.now).term)
        × (made.1 ≡ (body_made (given_of known.now) function body.now).counter.function)) }
{
    let names = parameters_in_scope(alloc, body.receiver, body.parameters.as_slice())?;
    let receiver = body.receiver.unwrap_or(0);
    let variable = position(body.receiver, narrow(body.parameters.len())?)?;
    let counter = Counter { variable, function };
    term(alloc, known, names, receiver, counter, &body.body)
}

/// The terms of bodies, with the places of their declarations.
pub(crate) fn bodies(
    alloc: Global,
    known: &Known,
    list: &[TypedBody],
) -> Result<List<Placed>, Memory>
    ensures { IfOk result (λ terms. terms ≡ bodies (given_of known.now) 0 list.now) }
{
    let mut terms = List::new(alloc);
    let mut next = 0;
    for body in list {
        let (term, function) = body_term(alloc, known, next, body)?;
        next = function;
        terms.push((body.place, term))?;
    }
    Ok(terms)
}

/// Whether two places are one.
fn same_place(left: Place, right: Place) -> bool
    ensures { result ≡ same_place left right }
{
    left.line == right.line && left.column == right.column
}

/// The term of the body whose declaration stands at a place, or want of memory where none stands
/// there.
pub(crate) fn body_at(terms: &[Placed], place: Place) -> Result<Shared<Term>, Memory>
    ensures { IfOk result (λ term. body_at terms.now place ≡ Some term) }
{
    for one in terms {
        if same_place(one.0, place) {
            return one.1.share();
        }
    }
    Err(Memory)
}
