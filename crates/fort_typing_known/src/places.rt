//! The place that a spelling has.
ghost use Rattle.std.specs.Prelude.{◌≡◌, ◌∷◌, [], None, Some, cond, IfOk, OnOk, List as Seq};
ghost use Rattle.std.specs.Str.{bytes_eq};
ghost use Rattle.fort_typing_known.specs.Spellings.{Spelling};
ghost use Rattle.fort_typing_known.specs.Places.{placed_as};

use fort_base::Memory;
use indexmap::IndexMap;
use std::alloc::Global;

/// A place for each of some spellings.
#[derive(Drop)]
pub struct Places<'a> {
    pub known: IndexMap<&'a [u8], usize>,
}

impl<'a> Places<'a> {
    /// No place yet; it takes no memory.
    pub fn new(alloc: Global) -> Places<'a>
        ensures { (s : Spelling) → placed_as result s ≡ None }
    {
        Places {
            known: IndexMap::new(alloc),
        }
    }

    /// Gives a spelling a place, and answers the one that it had; or want of memory.
    pub fn put(&mut self, spelling: &'a [u8], place: usize) -> Result<Option<usize>, Memory>
        ensures had { IfOk result (λ had. had ≡ placed_as self.old spelling.now) }
        ensures has { OnOk result ((s : Spelling)
            → placed_as self.new s
            ≡ cond (bytes_eq spelling.now s) (Some place) (placed_as self.old s)) }
    {
        Ok(self.known.insert(spelling, place)?)
    }

    /// The place of a spelling, or none where it has none.
    pub fn get(&self, spelling: &[u8]) -> Option<usize>
        ensures { result ≡ placed_as self.now spelling.now }
    {
        match self.known.get(spelling) {
            Some(place) => Some(*place),
            None => None,
        }
    }
}
