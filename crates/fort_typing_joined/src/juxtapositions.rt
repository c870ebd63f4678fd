//! What a juxtaposition of elements is.
ghost use Rattle.std.specs.Prelude.{◌≡◌, ◌++◌, ◌-◌, length, IfOk, OnOk};
ghost use Rattle.fort_typing_known.specs.Read.{facts};
ghost use Rattle.fort_typing_meaning.specs.Joining.{beside as beside_of, grown_outcome};
ghost use Rattle.fort_typing_joined.specs.Taking.{taking};

use crate::taking::{Growth, taken};
use fort_base::{CheckFault, List, Memory};
use fort_base_stack::Stack;
use fort_juxt::Grouping;
use fort_typing_elements::{elements, grouping};
use fort_typing_known::{Fault, Known};
use fort_typing_meaning::Outcome;
use fort_typing_parts::{refused, untyped};
use fort_typing_rules::Part;
use std::alloc::Global;

/// Moves the last of some elements to the top of others.
#[tactic(auto, using(crate::proofs::InOrder::moved_over, crate::proofs::InOrder::one_less))]
fn moved(items: &mut List<Part>, stack: &mut Stack<Part>) -> Result<(), Memory>
    ensures all { OnOk result (items.new ++ stack.new ≡ items.old ++ stack.old) }
    ensures less { OnOk result (length items.new ≡ length items.old - 1) }
{
    let Some(part) = items.pop() else {
        return Ok(());
    };
    stack.push(part)?;
    Ok(())
}

/// The elements as a stack, the first at the top.
#[tactic(auto, using(crate::proofs::Stacks::emptied, crate::proofs::Stacks::one_more_over))]
fn stacked(alloc: Global, parts: List<Part>) -> Result<Stack<Part>, Memory>
    ensures { IfOk result (λ stack. stack ≡ parts) }
{
    let mut items = parts;
    let mut stack = Stack::new(alloc);
    for count in 0..items.len() {
        moved(&mut items, &mut stack)?;
    }
    Ok(stack)
}

/// What elements in a grouping are.
fn grouped(
    alloc: Global,
    known: &Known,
    grouping: &Grouping,
    parts: List<Part>,
    found: Option<Fault>,
) -> Result<Outcome, Memory>
    ensures { IfOk result (λ o. o
        ≡ grown_outcome (taking (facts known.now) grouping.now parts found).grown) }
{
    let mut rest = stacked(alloc, parts)?;
    let Growth { part, found } = taken(alloc, known, grouping, &mut rest, found)?;
    Ok(Outcome {
        seen: part.into_inner().meaning,
        found,
    })
}

/// What a juxtaposition of elements is, with the first broken rule so far.
///
/// It answers `Memory` where memory is wanting. The chapter "Typing", runs and juxtapositions.
#[tactic(auto, using(crate::proofs::InOrder::beside_grouped, crate::proofs::InOrder::beside_refused, crate::proofs::InOrder::beside_nothing))]
pub fn beside(
    alloc: Global,
    known: &Known,
    parts: List<Part>,
    found: Option<Fault>,
) -> Result<Outcome, Memory>
    ensures { IfOk result (λ o. o ≡ beside_of (facts known.now) parts found) }
{
    if parts.len() == 0 {
        return Ok(untyped(found));
    }
    let asked = elements(alloc, parts.as_slice())?;
    match grouping(alloc, asked.as_slice()) {
        Ok(way) => grouped(alloc, known, &way, parts, found),
        Err(CheckFault::Refused(rule, place)) => Ok(refused(rule, place, found)),
        Err(CheckFault::Memory) => Err(Memory),
    }
}
