//! The part at a path of a term.
ghost use Rattle.std.specs.Prelude.{IfNone, IfOk, IfSome};
ghost use Rattle.fort_hall_parts.specs.Parts.{HasNoneAt, IsPartAt};

use crate::node::{Onward, may_go, step_down};
use fort_base::{Memory, Shared};
use fort_core::Term;
use std::alloc::Global;

/// The part at a path of a term, without its mark: the numbers lead into the parts of parallel
/// forms, and forms that go from left to right are gone through. The empty path's is the term
/// itself.
///
/// `None` where no part stands there that is open and no mark, where it is passed over since one
/// beside it, or beside a part on the way, is a throw, and where the way to it has more frames than
/// `depth`: frames of parallel forms, of those that go from left to right, and of marks. A step
/// down takes one frame, or two with a mark, so that parts may be found somewhat below that.
///
/// # Errors
///
/// `Memory` where memory is wanting.
#[cycle(find)]
#[tactic(auto, using(crate::proofs::Finds::part_here, crate::proofs::Finds::none_here, crate::proofs::Finds::none_below, crate::proofs::Finds::none_onward, crate::proofs::Finds::found_through, crate::proofs::Finds::none_through, crate::proofs::Finds::found_into, crate::proofs::Finds::none_into))]
pub fn part_at(
    alloc: Global,
    whole: &Shared<Term>,
    path: &[u32],
    depth: u32,
) -> Result<Option<Shared<Term>>, Memory>
    ensures part { IfOk result (λ found. IfSome found (IsPartAt whole.now path.now)) }
    ensures none { IfOk result (λ found. IfNone found (HasNoneAt whole.now path.now depth)) }
{
    let Some((number, rest)) = path.split_first() else {
        if may_go(whole.get()) {
            return Ok(Some(whole.share()?));
        }
        return Ok(None);
    };
    if depth == 0 {
        return Ok(None);
    }
    match step_down(alloc, whole.get(), *number)? {
        None => Ok(None),
        Some(Onward::Through(form)) => part_at(alloc, &form.part, path, depth - 1),
        Some(Onward::Into(_node, next)) => part_at(alloc, &next.part, rest, depth - 1),
    }
}
