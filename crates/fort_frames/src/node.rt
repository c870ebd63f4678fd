//! A parallel form that is gone into.
ghost use Rattle.std.specs.Prelude.{◌≡◌, ◌<◌, length, IfOk, IsTrue};
ghost use Rattle.fort_frames.specs.Heads.{suits};

use crate::head::Head;
use fort_base::{List, Memory, Shared};
use fort_core::Term;
use std::alloc::Global;

/// A parallel form into one part of which is gone; what stands in the list at that part's number
/// doesn't count.
///
/// The part has its mark where it had it when it was gone into, and else once a step was taken
/// since then: `since` is what the machine's clock showed, and the clock rises at each step. So a
/// step puts its marks on all frames at once.
#[derive(Drop)]
pub struct Node {
    pub head: Head,
    pub parts: List<Shared<Term>>,
    /// The number of the part, from 0.
    pub at: usize,
    /// Whether the part had its mark already.
    pub stepped: bool,
    /// The clock when it was gone into.
    pub since: u64,
    pub ghost within: { at < length parts },
    pub ghost whole: { IsTrue (suits head parts) },
}

impl Node {
    /// The same node with a list of its own.
    pub fn share(&self, alloc: Global) -> Result<Node, Memory>
        ensures { IfOk result (λ node. node ≡ self.now) }
    {
        Ok(Node {
            head: self.head,
            parts: self.parts.share(alloc)?,
            at: self.at,
            stepped: self.stepped,
            since: self.since,
        })
    }
}
