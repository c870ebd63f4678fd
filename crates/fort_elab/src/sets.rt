//! Overload sets. The chapter "Programs" of docs/TRANSLATION.md.
ghost use Rattle.std.specs.Prelude.{◌≡◌, ◌+◌, IfOk, length};
ghost use Rattle.fort_elab_meaning.specs.Programs.{core_sets, numbers};

use crate::bodies::following;
use fort_base::{DeclId, List, Memory};
use fort_core::CoreSet;
use fort_types_sets::{Member, MemberSet};
use std::alloc::Global;

/// The numbers of declarations, from one on, and the next one behind them.
fn numbers(alloc: Global, first: u32, members: &[Member]) -> Result<(List<DeclId>, u32), Memory>
    ensures { IfOk result (λ made. (made.0 ≡ numbers first members.now)
        × (made.1 ≡ first + length members.now)) }
{
    let mut list = List::new(alloc);
    let mut next = first;
    for _member in members {
        list.push(DeclId(next))?;
        next = following(next)?;
    }
    Ok((list, next))
}

/// The sets, whose declarations are numbered set by set, in their order.
pub(crate) fn core_sets(alloc: Global, sets: &[MemberSet]) -> Result<List<CoreSet>, Memory>
    ensures { IfOk result (λ list. list ≡ core_sets 0 sets.now) }
{
    let mut list = List::new(alloc);
    let mut next = 0;
    for set in sets {
        let (decls, behind) = numbers(alloc, next, set.members.as_slice())?;
        next = behind;
        list.push(CoreSet { decls })?;
    }
    Ok(list)
}
