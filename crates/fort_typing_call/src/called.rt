//! What a call of a set has.
ghost use Rattle.std.specs.Prelude.{◌≡◌, IfOk, true, false, replicate};
ghost use Rattle.fort_typing_known.specs.Read.{facts};
ghost use Rattle.fort_typing_call.specs.Fitting.{first_best, any_fits, positions, widened_types};
ghost use Rattle.fort_typing_call.specs.Called.{called_widened, called_plain, called};

use crate::fitting::{any_fits, first_best, positions, widened_types};
use fort_base::rules::{NOT_APPLICABLE, WIDENING_UNCLEAR};
use fort_base::{List, Memory, Rule, SetId, Ty};
use fort_types_sets::Member;
use fort_typing_known::Known;
use std::alloc::Global;

/// What a call has.
#[derive(Drop)]
pub enum Called {
    /// A result, and which of the arguments are widened.
    Result(Ty, List<bool>),
    /// A broken rule.
    Refused(Rule),
}

/// Truths that are all false.
fn all_false(alloc: Global, count: usize) -> Result<List<bool>, Memory>
    ensures { IfOk result (λ list. list ≡ replicate count false) }
{
    let mut list = List::new(alloc);
    for number in 0..count {
        list.push(false)?;
    }
    Ok(list)
}

/// What a call has to which no declaration is applicable.
fn widened(
    alloc: Global,
    known: &Known,
    members: &[Member],
    types: &List<Ty>,
) -> Result<Called, Memory>
    ensures { IfOk result (λ called. called
        ≡ called_widened (facts known.now) members.now types.now
        (first_best (facts known.now) true types.now members.now members.now)) }
{
    let Some(least) = first_best(known, true, types, members) else {
        if any_fits(known, true, types, members) {
            return Ok(Called::Refused(WIDENING_UNCLEAR));
        }
        return Ok(Called::Refused(NOT_APPLICABLE));
    };
    let wide = widened_types(alloc, types.as_slice(), least.parameters.as_slice())?;
    match first_best(known, false, &wide, members) {
        Some(member) => {
            let places = positions(alloc, types.as_slice(), least.parameters.as_slice())?;
            Ok(Called::Result(member.result.copy(alloc)?, places))
        }
        None => Ok(Called::Refused(NOT_APPLICABLE)),
    }
}

/// What a call has of the set with these declarations.
fn plain(
    alloc: Global,
    known: &Known,
    members: &[Member],
    types: &List<Ty>,
) -> Result<Called, Memory>
    ensures { IfOk result (λ called. called
        ≡ called_plain (facts known.now) members.now types.now
        (first_best (facts known.now) false types.now members.now members.now)) }
{
    match first_best(known, false, types, members) {
        Some(member) => {
            let places = all_false(alloc, types.len())?;
            Ok(Called::Result(member.result.copy(alloc)?, places))
        }
        None => {
            if any_fits(known, false, types, members) {
                return Ok(Called::Refused(NOT_APPLICABLE));
            }
            widened(alloc, known, members, types)
        }
    }
}

/// What a call of a set with arguments of these types has. It answers `Memory` where memory is
/// wanting.
#[tactic(auto, unfolding(crate::specs::Called::called))]
pub fn call_of(alloc: Global, known: &Known, set: SetId, types: &List<Ty>) -> Result<Called, Memory>
    ensures { IfOk result (λ answer. answer ≡ called (facts known.now) set types.now) }
{
    match known.index.members.sets.get(set.0 as usize) {
        Some(found) => plain(alloc, known, found.members.as_slice(), types),
        None => Ok(Called::Refused(NOT_APPLICABLE)),
    }
}
