//! Parallel forms.
ghost use Rattle.std.specs.Prelude.{◌≡◌, [], ◌∷◌, IfOk, if◌then◌else◌};
ghost use Rattle.fort_core.specs.declared.term.Term as term_;
ghost use Rattle.fort_step_deal.specs.Deals.{act_of};
ghost use Rattle.fort_machine.specs.Acts.{becomes, calls, once_all, stuck, unit};
ghost use Rattle.fort_machine.specs.Forms.{too_deep};
ghost use Rattle.fort_machine.specs.Scopes.{holds_all as holds_all_of};
ghost use Rattle.fort_machine.specs.Texts.{closure_depth, depth};
ghost use Rattle.fort_step_parts.specs.Gathering.{by_parts};

use crate::gathering::{AllParts, both, together};
use crate::throws::{throwing, thrown_row};
use fort_base::{List, Memory, SetId, Shared};
use fort_core::{Closure, Program, Term, Value};
use fort_step_closed::{holds_all, is_shallow_function, may_stand};
use fort_step_deal::Deal;
use std::alloc::Global;

/// A call, by its arguments: the call of their values, or the leftmost throw. The chapter "Steps
/// and costs".
///
/// # Errors
///
/// `Memory` where memory is wanting.
pub fn call_row(alloc: Global, set: SetId, parts: &List<Shared<Term>>) -> Result<Deal, Memory>
    ensures { IfOk result (λ deal. act_of deal ≡ once_all parts.now (λ vs. calls set vs)) }
{
    calls_by(alloc, set, together(alloc, parts)?)
}

fn calls_by(alloc: Global, set: SetId, parts: AllParts) -> Result<Deal, Memory>
    ensures { IfOk result (λ deal. act_of deal ≡ by_parts parts (λ vs. calls set vs)) }
{
    match parts {
        AllParts::Values(values) => Ok(Deal::Calls(set, values)),
        AllParts::Throw(thrown) => thrown_row(alloc, thrown),
        AllParts::Still => Ok(Deal::Stuck),
        AllParts::Open => Ok(Deal::Stuck),
    }
}

/// An operator's call of the values of its operands. The chapter "Steps and costs".
pub fn operator_row(set: SetId, values: List<Value>) -> Deal
    ensures { act_of result ≡ calls set values }
{
    Deal::Calls(set, values)
}

/// Both halves of a reduction: the call of its operator, or the leftmost throw. The chapter "Steps
/// and costs".
///
/// # Errors
///
/// `Memory` where memory is wanting.
pub fn reduce_halves_row(
    alloc: Global,
    set: SetId,
    first: &Shared<Term>,
    second: &Shared<Term>,
) -> Result<Deal, Memory>
    ensures { IfOk result (λ deal. act_of deal
        ≡ once_all (first.now ∷ second.now ∷ []) (λ vs. calls set vs)) }
{
    calls_by(alloc, set, both(alloc, first, second)?)
}

/// Both halves of a `for`: `()`, or the leftmost throw. The chapter "Steps and costs".
///
/// # Errors
///
/// `Memory` where memory is wanting.
pub fn for_halves_row(
    alloc: Global,
    first: &Shared<Term>,
    second: &Shared<Term>,
) -> Result<Deal, Memory>
    ensures { IfOk result (λ deal. act_of deal
        ≡ once_all (first.now ∷ second.now ∷ []) (λ vs. becomes (term_.Value unit))) }
{
    unit_by(alloc, both(alloc, first, second)?)
}

/// Blocks beside each other: `()`, or the leftmost throw. The chapter "Steps and costs".
///
/// # Errors
///
/// `Memory` where memory is wanting.
pub fn also_row(alloc: Global, blocks: &List<Shared<Term>>) -> Result<Deal, Memory>
    ensures { IfOk result (λ deal. act_of deal
        ≡ once_all blocks.now (λ vs. becomes (term_.Value unit))) }
{
    unit_by(alloc, together(alloc, blocks)?)
}

fn unit_by(alloc: Global, parts: AllParts) -> Result<Deal, Memory>
    ensures { IfOk result (λ deal. act_of deal
        ≡ by_parts parts (λ vs. becomes (term_.Value unit))) }
{
    match parts {
        AllParts::Values(_) => {
            let unit = Shared::new(alloc, Term::Value(Value::unit(alloc)?))?;
            Ok(Deal::becomes(alloc, unit))
        }
        AllParts::Throw(thrown) => thrown_row(alloc, thrown),
        AllParts::Still => Ok(Deal::Stuck),
        AllParts::Open => Ok(Deal::Stuck),
    }
}

/// A tuple that isn't a value: the leftmost throw, or the throw of `DepthExceeded` where all its
/// parts are values. The chapter "Steps and costs".
///
/// # Errors
///
/// `Memory` where memory is wanting.
pub fn group_row(
    alloc: Global,
    program: &Program,
    parts: &List<Shared<Term>>,
) -> Result<Deal, Memory>
    ensures { IfOk result (λ deal. act_of deal
        ≡ once_all parts.now (λ vs. too_deep program.now (depth (Value.Tuple vs)))) }
{
    depth_by(alloc, program, together(alloc, parts)?)
}

fn depth_by(alloc: Global, program: &Program, parts: AllParts) -> Result<Deal, Memory>
    ensures { IfOk result (λ deal. act_of deal
        ≡ by_parts parts (λ vs. too_deep program.now (depth (Value.Tuple vs)))) }
{
    match parts {
        AllParts::Values(values) => {
            if may_stand(&values) {
                Ok(Deal::Stuck)
            } else {
                throwing(alloc, program, program.built_in.depth_exceeded)
            }
        }
        AllParts::Throw(thrown) => thrown_row(alloc, thrown),
        AllParts::Still => Ok(Deal::Stuck),
        AllParts::Open => Ok(Deal::Stuck),
    }
}

/// A function that isn't a value: the throw of `DepthExceeded` where it holds all that it needs.
/// The chapter "Steps and costs".
///
/// # Errors
///
/// `Memory` where memory is wanting.
pub fn fn_row(alloc: Global, program: &Program, closure: &Closure) -> Result<Deal, Memory>
    ensures { IfOk result (λ deal. act_of deal
        ≡ (if holds_all_of closure.now then too_deep program.now (closure_depth closure.now)
        else stuck)) }
{
    if holds_all(alloc, closure)? {
        if is_shallow_function(closure) {
            Ok(Deal::Stuck)
        } else {
            throwing(alloc, program, program.built_in.depth_exceeded)
        }
    } else {
        Ok(Deal::Stuck)
    }
}
