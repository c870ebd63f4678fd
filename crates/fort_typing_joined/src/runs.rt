//! What a run of elements is.
ghost use Rattle.std.specs.Prelude.{◌≡◌, ◌<◌, length, IfOk};
ghost use Rattle.fort_typing_known.specs.Read.{facts};
ghost use Rattle.fort_typing_meaning.specs.Joining.{around, replaced_in, rewritten as rewritten_run, run as run_of};
ghost use Rattle.fort_typing_joined.specs.Ways.{put_together};
ghost use Rattle.fort_typing_joined.specs.Steps.{end_of, further_of, IsTurn};

use crate::two::{Pair, Step, put, two};
use crate::way::{Way, combined};
use fort_base::{CheckFault, List, Memory};
use fort_juxt::Tight;
use fort_typing_elements::{elements, rewriting};
use fort_typing_known::{Fault, Known};
use fort_typing_meaning::Outcome;
use fort_typing_parts::{breaks, untyped};
use fort_typing_rules::Part;
use std::alloc::Global;

/// Two elements from a number on are put together.
#[tactic(auto, using(crate::proofs::Rewritings::none_there, crate::proofs::Rewritings::two_there))]
fn replaced(
    alloc: Global,
    known: &Known,
    way: Way,
    parts: List<Part>,
    at: usize,
    found: Option<Fault>,
) -> Result<Step, Memory>
    ensures { IfOk result (λ step. further_of step
        ≡ replaced_in (put_together (facts known.now) way) (around at parts) found) }
{
    let Some(pair) = two(alloc, parts, at)? else {
        return Ok(Step::Stop(found));
    };
    let Pair { one, other, rest } = pair;
    let place = one.get().place;
    let made = combined(alloc, known, way, one, other)?;
    put(alloc, known, rest, at, place, made, found)
}

/// The next rewriting of a run.
#[tactic(auto, using(crate::proofs::Rewritings::is_applied, crate::proofs::Rewritings::is_followed, crate::proofs::Rewritings::nothing_followed, crate::proofs::Rewritings::is_joined, crate::proofs::Rewritings::is_left, crate::proofs::Rewritings::is_refused, crate::proofs::Rewritings::is_lost))]
fn rewritten(
    alloc: Global,
    known: &Known,
    parts: List<Part>,
    found: Option<Fault>,
) -> Result<Step, Memory>
    ensures { IfOk result (λ step. further_of step ≡ rewritten_run (facts known.now) parts found) }
{
    let asked = elements(alloc, parts.as_slice())?;
    match rewriting(asked.as_slice()) {
        Ok(Tight::Apply(at)) => replaced(alloc, known, Way::Apply, parts, at, found),
        Ok(Tight::Postfix(behind)) => {
            if behind == 0 {
                return Ok(Step::Stop(found));
            }
            replaced(alloc, known, Way::Follow, parts, behind - 1, found)
        }
        Ok(Tight::Left) => replaced(alloc, known, Way::Join, parts, 0, found),
        Ok(Tight::Whole) => Ok(Step::Stop(found)),
        Err(CheckFault::Refused(rule, place)) => Ok(Step::Stop(breaks(rule, place, found))),
        Err(CheckFault::Memory) => Ok(Step::Stop(found)),
    }
}

/// Where a run has come to after one turn.
#[derive(Drop)]
pub enum Turned {
    /// It ends as this.
    Ends(Outcome),
    /// It goes on with these elements, and the first broken rule so far.
    Goes(List<Part>, Option<Fault>),
}

/// A run of one element is that; one of none has no type.
#[tactic(auto, using(crate::proofs::Steps::last_is))]
fn ended(parts: List<Part>, found: Option<Fault>) -> Outcome
    requires { length parts < 2 }
    ensures { result ≡ end_of parts found }
{
    let mut parts = parts;
    match parts.pop() {
        Some(part) => Outcome {
            seen: part.meaning,
            found,
        },
        None => untyped(found),
    }
}

/// One turn of a run: it ends, or its next rewriting is done.
#[tactic(auto, using(crate::proofs::Turns::turn_ends, crate::proofs::Turns::turn_stops, crate::proofs::Turns::turn_goes))]
fn turn(
    alloc: Global,
    known: &Known,
    parts: List<Part>,
    found: Option<Fault>,
) -> Result<Turned, Memory>
    ensures { IfOk result (λ turned. IsTurn (facts known.now) parts found turned) }
{
    if parts.len() < 2 {
        return Ok(Turned::Ends(ended(parts, found)));
    }
    match rewritten(alloc, known, parts, found)? {
        Step::On(parts, found) => Ok(Turned::Goes(parts, found)),
        Step::Stop(found) => Ok(Turned::Ends(untyped(found))),
    }
}

/// What a run of elements is, with the first broken rule so far.
///
/// Its rewritings are done one after another, as many at most as it has elements. It answers
/// `Memory` where memory is wanting. The chapter "Typing", runs and juxtapositions.
#[tactic(auto, using(crate::proofs::Steps::run_over, crate::proofs::Turns::ended_there, crate::proofs::Turns::gone_on), unfolding(fort_typing_meaning::specs::Joining::run))]
pub fn run(
    alloc: Global,
    known: &Known,
    parts: List<Part>,
    found: Option<Fault>,
) -> Result<Outcome, Memory>
    ensures { IfOk result (λ o. o ≡ run_of (facts known.now) parts found) }
{
    let most = parts.len();
    let mut rest = parts;
    let mut first = found;
    for count in 0..most {
        match turn(alloc, known, rest, first)? {
            Turned::Ends(outcome) => return Ok(outcome),
            Turned::Goes(parts, found) => {
                rest = parts;
                first = found;
            }
        }
    }
    Ok(untyped(first))
}
