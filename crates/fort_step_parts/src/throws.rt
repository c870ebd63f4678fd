//! Throws.
ghost use Rattle.std.specs.Prelude.{◌≡◌, IfOk};
ghost use Rattle.fort_step_deal.specs.Deals.{act_of};
ghost use Rattle.fort_machine.specs.Acts.{becomes, throwing as throwing_of};
ghost use Rattle.fort_machine.specs.Ends.{throw_of};

use fort_base::{Memory, Shared, TypeId};
use fort_core::{CoreKind, Program, Term, Value};
use fort_step_deal::Deal;
use std::alloc::Global;

/// A form whose next part is a throw goes on as that throw. The chapter "Steps and costs".
///
/// # Errors
///
/// `Memory` where memory is wanting.
pub fn thrown_row(alloc: Global, thrown: Value) -> Result<Deal, Memory>
    ensures { IfOk result (λ deal. act_of deal ≡ becomes (throw_of thrown)) }
{
    let value = Shared::new(alloc, Term::Value(thrown))?;
    Ok(Deal::becomes(alloc, Shared::new(alloc, Term::Throw(value))?))
}

/// The throw of a built-in exception, or nothing where its type isn't one with one value. The
/// chapter "Built-in declarations".
///
/// # Errors
///
/// `Memory` where memory is wanting.
pub fn throwing(alloc: Global, program: &Program, id: TypeId) -> Result<Deal, Memory>
    ensures { IfOk result (λ deal. act_of deal ≡ throwing_of program.now id) }
{
    match program.shapes.get(id.0 as usize) {
        None => Ok(Deal::Stuck),
        Some(shape) => match shape.kind {
            CoreKind::Single(base) => thrown_row(alloc, Value::Object(id, base)),
            _ => Ok(Deal::Stuck),
        },
    }
}
