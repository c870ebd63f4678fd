//! The chunks of a list, one after another.
ghost use Rattle.std.specs.Prelude.{◌≡◌, ◌≤◌, ◌<◌, ◌∷◌, [], length, drop, IfOk};
ghost use Rattle.fort_juxt.specs.Loose.{joined as joined_left};
ghost use Rattle.fort_juxt.specs.Walks.{IsRun, groups_from};

use crate::elements::{Element, Grouping};
use crate::groupings::{applied, joined, pair};
use fort_base::Memory;
use std::alloc::Global;

/// A grouping, and where it ends.
#[derive(Drop)]
struct Chunk {
    grouping: Grouping,
    end: usize,
}

/// The chunks' groupings joined to the left.
pub fn grouped(alloc: Global, elements: &[Element]) -> Result<Grouping, Memory>
    requires { 0 < length elements.now }
    ensures { IfOk result (λ g. joined_left (groups_from elements.now 0) ≡ g ∷ []) }
{
    let first = next_chunk(alloc, elements, 0)?;
    let mut grouping = first.grouping;
    let mut at = first.end;
    while at < elements.len() {
        let next = next_chunk(alloc, elements, at)?;
        grouping = pair(alloc, grouping, next.grouping)?;
        at = next.end;
    }
    Ok(grouping)
}

/// The chunk that begins at a place.
fn next_chunk(alloc: Global, elements: &[Element], from: usize) -> Result<Chunk, Memory>
    requires { from < length elements.now }
    ensures behind { IfOk result (λ chunk. from < chunk.end) }
    ensures within { IfOk result (λ chunk. chunk.end ≤ length elements.now) }
    ensures grouped { IfOk result (λ chunk. groups_from elements.now from
        ≡ chunk.grouping ∷ groups_from elements.now chunk.end) }
{
    let middle = run_end(elements, from, true);
    let end = run_end(elements, middle, false);
    let grouping = if middle < end {
        let argument = joined(alloc, middle, end)?;
        applied(alloc, from, middle, argument)?
    } else {
        applied(alloc, from, middle - 1, Grouping::One(middle - 1))?
    };
    Ok(Chunk { grouping, end })
}

/// Where the functions that stand from a place on end, or the others.
fn run_end(elements: &[Element], from: usize, function: bool) -> usize
    requires { from ≤ length elements.now }
    ensures { IsRun elements.now from result function }
{
    let mut at = from;
    while at < elements.len() && elements[at].function == function {
        at += 1;
    }
    at
}
