//! A part's picks as those of the whole.
ghost use Rattle.std.specs.Prelude.{◌≡◌, ◌++◌, map, IfOk};
ghost use Rattle.fort_core.specs.Opened.{opened_pick};
ghost use Rattle.fort_machine.specs.Threads.{below_path, under};

use fort_base::{List, Memory};
use fort_core::{Path, Pick, PickNode};
use std::alloc::Global;

/// The picks of a part, attempts among them, as those of the whole: the part's path stands before
/// each pick's own. Where the part is the whole they stay as they are, in constant time.
///
/// # Errors
///
/// `Memory` where memory is wanting.
#[tactic(auto, using(crate::proofs::Paths::none_under))]
pub fn all_under(alloc: Global, path: &Path, picks: List<Pick>) -> Result<List<Pick>, Memory>
    ensures { IfOk result (λ all. all ≡ map (under path.now.0) picks) }
{
    if path.0.is_empty() {
        return Ok(picks);
    }
    let mut all = List::new(alloc);
    for pick in picks.into_vec() {
        all.push(pick_under(path, pick)?)?;
    }
    Ok(all)
}

fn pick_under(path: &Path, pick: Pick) -> Result<Pick, Memory>
    ensures { IfOk result (λ made. made ≡ under path.now.0 pick) }
{
    match pick.open() {
        PickNode::Step(own, loc) => Ok(Pick::Step(below(path, own)?, loc)),
        PickNode::Attempt(own, within) => Ok(Pick::Attempt(below(path, own)?, within)),
    }
}

// A path with another one before it, in the memory of its own where there is room.
fn below(path: &Path, own: Path) -> Result<Path, Memory>
    ensures { IfOk result (λ whole. whole ≡ below_path path.now.0 own) }
{
    let numbers = path.0.as_slice();
    let mut whole = own.0.into_vec();
    for at in (0..numbers.len()).rev() {
        whole.insert(0, numbers[at])?;
    }
    Ok(Path(List::from_vec(whole)))
}
