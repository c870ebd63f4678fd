//! The names of threads.
ghost use Rattle.std.specs.Prelude.{◌≡◌, ◌↔◌, IsTrue, IfOk};

use fort_base::{List, Memory};
use std::alloc::Global;

/// A thread, by the numbers of parts from the root of its own machine; the root itself is the empty
/// path.
///
/// The parts of a node are numbered from 0, in their order in the source; the first half of a
/// divided node comes before the rest.
#[derive(Drop)]
pub struct Path(pub List<u32>);

impl Path {
    /// An equal path in memory of its own, or want of memory.
    pub fn copy(&self, alloc: Global) -> Result<Path, Memory>
        ensures { IfOk result (λ copy. copy ≡ self.now) }
    {
        Ok(Path(List::from_slice(alloc, self.0.as_slice())?))
    }

    /// Whether two paths name the same thread; it takes no memory.
    pub fn same(&self, other: &Path) -> bool
        ensures { IsTrue result ↔ (self.now ≡ other.now) }
    {
        self.0.as_slice() == other.0.as_slice()
    }
}
