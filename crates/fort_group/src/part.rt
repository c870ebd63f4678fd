ghost use Rattle.std.specs.Prelude.{◌<◌, ◌≤◌, length, IfOk};
ghost use Rattle.fort_group.specs.Joining.{IsWeakest, IsTheGrouping};

use crate::join::join;
use crate::joint::{operator_at, strength_at};
use fort_base::Memory;
use fort_tree::{Grouped, Joint};
use std::alloc::Global;

/// The last of the weakest operators between two units.
#[tactic(auto, using(crate::proofs::Weakest::one_place, crate::proofs::Weakest::keeps, crate::proofs::Weakest::moves))]
fn weakest(joints: &[Joint], from: usize, to: usize) -> usize
    requires { (from < to) × (to ≤ length joints.now) }
    ensures { IsWeakest joints.now from to result }
{
    let mut best = from;
    for at in from + 1..to {
        if strength_at(joints, at) <= strength_at(joints, best) {
            best = at;
        }
    }
    best
}

/// The one grouping of the units from one place to another, both included, or none where there is
/// none.
///
/// It divides at the last of the weakest operators, since no grouping has its root anywhere else.
pub fn part(
    alloc: Global,
    joints: &[Joint],
    from: usize,
    to: usize,
) -> Result<Option<Grouped>, Memory>
    requires { (from ≤ to) × (to ≤ length joints.now) }
    ensures { IfOk result (λ o. IsTheGrouping joints.now from to o) }
{
    if from == to {
        return Ok(Some(Grouped::Unit(from)));
    }
    let at = weakest(joints, from, to);
    let op = operator_at(joints, at);
    match part(alloc, joints, from, at)? {
        None => Ok(None),
        Some(left) => match part(alloc, joints, at + 1, to)? {
            None => Ok(None),
            Some(right) => join(alloc, op, left, right),
        },
    }
}
