//! The spellings that stood at the top so far.
ghost use Rattle.std.specs.Prelude.{◌≡◌, ◌&&◌, ◌++◌, [], ◌∷◌, ◌↔◌, IsTrue, IfOk, OnOk, List as Seq};
ghost use Rattle.fort_hier.specs.Names.{Called, ClashesWith};
ghost use Rattle.fort_hier.specs.Seen.{HoldsSeen};

use fort_base::Memory;
use indexmap::IndexMap;
use std::alloc::Global;

/// Each spelling that stood so far, and whether functions alone had it.
#[derive(Drop)]
pub struct Seen<'a> {
    pub known: IndexMap<&'a [u8], bool>,
}

impl<'a> Seen<'a> {
    /// No spelling yet.
    pub fn new(alloc: Global) -> Seen<'a>
        ensures { HoldsSeen [] result }
    {
        Seen {
            known: IndexMap::new(alloc),
        }
    }

    /// Adds a name, and says whether it clashes with one before it.
    pub fn add(&mut self, spelling: &'a [u8], is_function: bool) -> Result<bool, Memory>
        ensures clash { IfOk result (λ clash. (before : Seq Called) → HoldsSeen before self.old
            → IsTrue clash ↔ ClashesWith before spelling.now is_function) }
        ensures held { OnOk result ((before : Seq Called) (x : Called) → HoldsSeen before self.old
            → x.spelling ≡ spelling.now → x.is_function ≡ is_function
            → HoldsSeen (before ++ x ∷ []) self.new) }
    {
        match self.known.get(spelling) {
            Some(functions) => {
                let both = both(*functions, is_function);
                self.known.insert(spelling, both)?;
                Ok(!both)
            }
            None => {
                self.known.insert(spelling, is_function)?;
                Ok(false)
            }
        }
    }
}

/// Whether both are true.
fn both(a: bool, b: bool) -> bool
    ensures { result ≡ (a && b) }
{
    a && b
}
