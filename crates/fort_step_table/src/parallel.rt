//! Parallel forms, by their heads.
ghost use Rattle.std.specs.Prelude.{◌≡◌, IfOk};
ghost use Rattle.fort_step_deal.specs.Deals.{act_of};
ghost use Rattle.fort_machine.specs.Forms.{act};
ghost use Rattle.fort_machine.specs.Frames.{on};
ghost use Rattle.fort_frames.specs.Frames.{frame_of_node};
ghost use Rattle.fort_frames.specs.Heads.{form_of, of_two};

use fort_base::{List, Memory, SetId, Shared};
use fort_core::{Program, Term};
use fort_frames::{Head, Node};
use fort_step_bound::apply_row;
use fort_step_deal::Deal;
use fort_step_parts::{also_row, call_row, for_halves_row, group_row, reduce_halves_row};
use std::alloc::Global;

/// What a parallel form does at its next step, by its head and its parts. The chapter "Steps and
/// costs".
///
/// # Errors
///
/// `Memory` where memory is wanting.
#[tactic(auto, using(crate::proofs::Groups::acts))]
pub fn deal_of_node(
    alloc: Global,
    program: &Program,
    head: Head,
    parts: &List<Shared<Term>>,
) -> Result<Deal, Memory>
    ensures { IfOk result (λ deal. act_of deal ≡ act program.now (form_of head parts.now)) }
{
    match head {
        Head::Group => group_row(alloc, program, parts),
        Head::Call(set) => call_row(alloc, set, parts),
        Head::Apply => deal_of_apply(alloc, program, parts),
        Head::Also => also_row(alloc, parts),
        Head::ForHalves => deal_of_for(alloc, program, parts),
        Head::ReduceHalves(set) => deal_of_reduction(alloc, program, set, parts),
    }
}

// An application, by its parts.
#[tactic(auto, using(crate::proofs::Groups::applies))]
fn deal_of_apply(
    alloc: Global,
    program: &Program,
    parts: &List<Shared<Term>>,
) -> Result<Deal, Memory>
    ensures { IfOk result (λ deal. act_of deal ≡ act program.now (of_two Term.Apply parts.now)) }
{
    let items = parts.as_slice();
    if items.len() == 2 {
        apply_row(alloc, &items[0], &items[1])
    } else {
        group_row(alloc, program, parts)
    }
}

// Both halves of a `for`, by its parts.
#[tactic(auto, using(crate::proofs::Groups::fors))]
fn deal_of_for(alloc: Global, program: &Program, parts: &List<Shared<Term>>) -> Result<Deal, Memory>
    ensures { IfOk result (λ deal. act_of deal
        ≡ act program.now (of_two Term.ForHalves parts.now)) }
{
    let items = parts.as_slice();
    if items.len() == 2 {
        for_halves_row(alloc, &items[0], &items[1])
    } else {
        group_row(alloc, program, parts)
    }
}

// Both halves of a reduction, by its parts.
#[tactic(auto, using(crate::proofs::Groups::reductions))]
fn deal_of_reduction(
    alloc: Global,
    program: &Program,
    set: SetId,
    parts: &List<Shared<Term>>,
) -> Result<Deal, Memory>
    ensures { IfOk result (λ deal. act_of deal
        ≡ act program.now (of_two (Term.ReduceHalves set) parts.now)) }
{
    let items = parts.as_slice();
    if items.len() == 2 {
        reduce_halves_row(alloc, set, &items[0], &items[1])
    } else {
        group_row(alloc, program, parts)
    }
}

/// What a parallel form does at its next step, with a part back in its place. The chapter "Steps
/// and costs".
///
/// # Errors
///
/// `Memory` where memory is wanting.
#[tactic(auto, using(crate::proofs::Groups::put_part))]
pub(crate) fn deal_with_part(
    alloc: Global,
    program: &Program,
    node: &Node,
    part: Shared<Term>,
) -> Result<Deal, Memory>
    ensures { IfOk result (λ deal. act_of deal
        ≡ act program.now (on (frame_of_node node.now) part)) }
{
    let mut parts = node.parts.share(alloc)?;
    parts.set(node.at, part);
    deal_of_node(alloc, program, node.head, &parts)
}
