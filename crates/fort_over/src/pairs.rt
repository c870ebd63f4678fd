//! The first pair that breaks a rule.
ghost use Rattle.std.specs.Prelude.{◌≡◌, ◌<◌, ◌≤◌, ◌^◌, IfOk, length, List as Seq};
ghost use Rattle.fort_types.specs.declared.hierarchy.DeclaredType.{DeclaredType};
ghost use Rattle.fort_types.specs.Hierarchy.{Sound};
ghost use Rattle.fort_types.specs.Table.{HasRows};
ghost use Rattle.fort_over.specs.Walks.{IsJudged, RowBest, SetBest, SetsBest};

use crate::places::{BrokenPair, sooner, standing};
use fort_base::{Memory, TypeTable};
use fort_over_pair::broken_rule;
use fort_types_sets::{Member, MemberSet};
use std::alloc::Global;

/// The first broken pair of all sets, by the later declaration's place and then by the earlier
/// one's; of pairs at the same two places the first in the order of the sets.
pub fn first_broken(
    alloc: Global,
    table: &TypeTable,
    sets: &[MemberSet],
) -> Result<Option<BrokenPair>, Memory>
    requires numbered { length table.now.below ≤ 2 ^ 32 }
    ensures { IfOk result (SetsBest table.now sets.now (length sets.now)) }
{
    let mut best = None;
    for set in sets {
        let next = first_of_set(alloc, table, set)?;
        best = sooner(best, next);
    }
    Ok(best)
}

/// The first broken pair of a set.
fn first_of_set(
    alloc: Global,
    table: &TypeTable,
    set: &MemberSet,
) -> Result<Option<BrokenPair>, Memory>
    requires numbered { length table.now.below ≤ 2 ^ 32 }
    ensures { IfOk result (SetBest table.now set.now (length set.now.members)) }
{
    let mut best = None;
    for later in 0..set.members.len() {
        let next = first_with(alloc, table, set, later)?;
        best = sooner(best, next);
    }
    Ok(best)
}

/// The first broken pair of a set whose later declaration is at this position.
fn first_with(
    alloc: Global,
    table: &TypeTable,
    set: &MemberSet,
    later: usize,
) -> Result<Option<BrokenPair>, Memory>
    requires numbered { length table.now.below ≤ 2 ^ 32 }
    requires within { later < length set.now.members }
    ensures { IfOk result (RowBest table.now set.now later later) }
{
    let members = set.members.as_slice();
    let mut best = None;
    for earlier in 0..later {
        let next = judged(alloc, table, set, &members[earlier], &members[later])?;
        best = sooner(best, next);
    }
    Ok(best)
}

/// What two declarations break, with their places.
fn judged(
    alloc: Global,
    table: &TypeTable,
    set: &MemberSet,
    first: &Member,
    second: &Member,
) -> Result<Option<BrokenPair>, Memory>
    requires numbered { length table.now.below ≤ 2 ^ 32 }
    ensures { IfOk result (λ pair. (h : Seq DeclaredType) → Sound h → HasRows h table.now
        → length first.now.parameters ≡ length second.now.parameters
        → IsJudged h set.now first.now second.now pair) }
{
    match broken_rule(alloc, table, set, first, second)? {
        Some(rule) => Ok(Some(BrokenPair {
            rule,
            later: standing(second.place),
            earlier: standing(first.place),
        })),
        None => Ok(None),
    }
}
