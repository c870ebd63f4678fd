//! The parts into which a part is divided.
ghost use Rattle.std.specs.Prelude.{◌≡◌, ◌<◌, ◌≤◌, ◌∷◌, length, IfNone, IfOk, IfSome};
ghost use Rattle.fort_frames_moves.specs.Turns.{raw_form};
ghost use Rattle.fort_hall_parts.specs.Parts.{AreOpen, GoesNowhere, IsDivided, IsNarrow, IsNode};

use crate::node::{ParallelForm, parallel, plain_at};
use crate::order::in_order;
use fort_base::{List, Memory, Shared};
use fort_core::{Path, Term};
use std::alloc::Global;

/// A form in a part that has two parts or more that may go on, of which tasks can be made.
#[derive(Drop)]
pub struct Division {
    /// The path of the form, from the part on that is divided.
    pub path: Path,
    /// The numbers of all its parts that may go on; they rise.
    pub numbers: List<u32>,
}

/// The first form in a part that has two parts or more that may go on: of those that `part_at`
/// finds, it tells their paths. It goes down through forms that go from left to right and into
/// parts that alone may go on.
///
/// `None` where there is no such form, as far as ways of `depth` frames lead.
///
/// # Errors
///
/// `Memory` where memory is wanting, or where a part's number is above 4,294,967,295.
#[cycle(divide)]
#[tactic(auto, using(crate::proofs::Divisions::narrow_here, crate::proofs::Divisions::divided_through, crate::proofs::Divisions::narrow_through))]
pub fn open_parts(
    alloc: Global,
    part: &Shared<Term>,
    depth: u32,
) -> Result<Option<Division>, Memory>
    ensures divided { IfOk result (λ found. IfSome found (IsDivided part.now)) }
    ensures none { IfOk result (λ found. IfNone found (IsNarrow part.now depth)) }
{
    if depth == 0 {
        return Ok(None);
    }
    match in_order(alloc, part.get())? {
        Some(form) => open_parts(alloc, &form.part, depth - 1),
        None => divided_beside(alloc, part, depth),
    }
}

// The same of a term that doesn't go from left to right.
#[cycle(divide)]
#[tactic(auto, using(crate::proofs::Divisions::narrow_nowhere, crate::proofs::Divisions::divided_same, crate::proofs::Divisions::narrow_same))]
fn divided_beside(
    alloc: Global,
    part: &Shared<Term>,
    depth: u32,
) -> Result<Option<Division>, Memory>
    requires deep { 1 ≤ depth }
    requires nowhere { GoesNowhere part.now }
    ensures divided { IfOk result (λ found. IfSome found (IsDivided part.now)) }
    ensures none { IfOk result (λ found. IfNone found (IsNarrow part.now depth)) }
{
    match parallel(alloc, part.get())? {
        None => Ok(None),
        Some(node) => divided(alloc, node, depth),
    }
}

// The same of a parallel form.
#[cycle(divide)]
#[tactic(auto, using(crate::proofs::Divisions::divided_here))]
fn divided(alloc: Global, node: ParallelForm, depth: u32) -> Result<Option<Division>, Memory>
    requires deep { 1 ≤ depth }
    requires node { IsNode (raw_form node.head node.parts) node }
    ensures divided { IfOk result
        (λ found. IfSome found (IsDivided (raw_form node.head node.parts))) }
    ensures none { IfOk result
        (λ found. IfNone found (IsNarrow (raw_form node.head node.parts) depth)) }
{
    let numbers = open_numbers(alloc, &node.parts)?;
    if numbers.len() < 2 {
        return divided_lone(alloc, node, numbers, depth);
    }
    let path = Path(List::new(alloc));
    Ok(Some(Division { path, numbers }))
}

// The same of a parallel form of which at most one part may go on: it is that part's.
#[cycle(divide)]
#[tactic(auto, using(crate::proofs::Divisions::narrow_none, crate::proofs::Divisions::narrow_gone, crate::proofs::Divisions::divided_into, crate::proofs::Divisions::narrow_into))]
fn divided_lone(
    alloc: Global,
    node: ParallelForm,
    numbers: List<u32>,
    depth: u32,
) -> Result<Option<Division>, Memory>
    requires deep { 1 ≤ depth }
    requires node { IsNode (raw_form node.head node.parts) node }
    requires open { AreOpen node.parts (length node.parts) numbers }
    requires lone { length numbers < 2 }
    ensures divided { IfOk result
        (λ found. IfSome found (IsDivided (raw_form node.head node.parts))) }
    ensures none { IfOk result
        (λ found. IfNone found (IsNarrow (raw_form node.head node.parts) depth)) }
{
    let Some(number) = numbers.get(0) else {
        return Ok(None);
    };
    let Some(next) = plain_at(&node.parts, *number as usize)? else {
        return Ok(None);
    };
    match open_parts(alloc, &next.part, depth - 1)? {
        None => Ok(None),
        Some(inner) => Ok(Some(within(alloc, *number, inner)?)),
    }
}

// A division in a part of a number.
fn within(alloc: Global, number: u32, inner: Division) -> Result<Division, Memory>
    ensures { IfOk result (λ outer. (outer.path.0 ≡ number ∷ inner.path.0)
        × (outer.numbers ≡ inner.numbers)) }
{
    let Division { path, numbers } = inner;
    let mut whole = List::new(alloc);
    whole.push(number)?;
    whole.push_slice(path.0.as_slice())?;
    Ok(Division {
        path: Path(whole),
        numbers,
    })
}

// The numbers of the parts that may go on.
#[tactic(auto, using(crate::proofs::Divisions::none_open, crate::proofs::Divisions::one_more_open, crate::proofs::Divisions::no_more_open, crate::proofs::Divisions::open_end))]
fn open_numbers(alloc: Global, parts: &List<Shared<Term>>) -> Result<List<u32>, Memory>
    ensures { IfOk result (AreOpen parts.now (length parts.now)) }
{
    let mut numbers = List::new(alloc);
    for at in 0..parts.len() {
        match plain_at(parts, at)? {
            None => {}
            Some(_part) => numbers.push(number_of(at)?)?,
        }
    }
    Ok(numbers)
}

fn number_of(at: usize) -> Result<u32, Memory>
    ensures { IfOk result (λ number. number ≡ at) }
{
    match u32::try_from(at) {
        Ok(number) => Ok(number),
        Err(_) => Err(Memory),
    }
}
