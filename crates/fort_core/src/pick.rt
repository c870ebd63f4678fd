//! The picks of a run, which may nest as deep as the fuel allows.
ghost use Rattle.std.specs.Prelude.{◌≡◌, ◌<◌, [], MatchOption};
ghost use Rattle.fort_core.specs.Nodes.{work};
ghost use Rattle.fort_core.specs.Opened.{opened_pick};

use crate::node::PickNode;
use crate::path::Path;
use crate::release::last_to_front;
use fort_base::{List, Loc};

/// Which thread goes on, and how.
pub enum Pick {
    /// One step of a thread. The location is the first fresh one that the step makes; where it
    /// makes none it is 0.
    Step(Path, Loc),
    /// One attempt of the atomic form at which a thread stands, with the picks of its inner run.
    Attempt(Path, List<Pick>),
}

impl Drop for Pick {
    fn drop(self) {
        match self {
            Pick::Step(_path, _) => {}
            Pick::Attempt(_path, inner) => drop_all(inner),
        }
    }
}

// A loop that takes no memory: the picks that wait stand inside the picks that go first. They go
// last there, so that the time is linear in the number of picks.
fn drop_all(first: List<Pick>) {
    let mut left = first;
    let mut hand = left.pop();
    'picks: while let Some(pick) = hand {
        let (next, rest) = pick.shed(left);
        hand = next;
        left = rest;
    }
    left.destroy_empty();
}

impl Pick {
    /// The pick's one level; it takes no memory.
    pub fn open(self) -> PickNode
        ensures { result ≡ opened_pick self }
    {
        match self {
            Pick::Step(path, loc) => PickNode::Step(path, loc),
            Pick::Attempt(path, inner) => PickNode::Attempt(path, inner),
        }
    }

    // Lets go of one pick, or puts the picks that wait in the place of the last one inside it,
    // which goes first then; the others inside it go before those that wait.
    fn shed(self, left: List<Pick>) -> (Option<Pick>, List<Pick>)
        ensures { MatchOption result.0 (result.1 ≡ []) (λ next. work next result.1
            < work self left) }
    {
        let mut left = left;
        match self {
            Pick::Step(_path, _) => {
                let next = left.pop();
                (next, left)
            }
            Pick::Attempt(path, mut inner) => {
                if inner.is_empty() {
                    inner.destroy_empty();
                    let next = left.pop();
                    (next, left)
                } else if left.is_empty() {
                    left.destroy_empty();
                    let next = inner.pop();
                    (next, inner)
                } else {
                    let next = inner.replace_last(Pick::Attempt(path, left));
                    let rest = last_to_front(inner);
                    (Some(next), rest)
                }
            }
        }
    }
}
