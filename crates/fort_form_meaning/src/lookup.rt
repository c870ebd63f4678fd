//! What a walk looks up beside the trees.
ghost use Rattle.std.specs.Prelude.{◌≡◌, IfOk};
ghost use Rattle.std.specs.Option.{option_copied};
ghost use Rattle.fort_form_meaning.specs.Source.{Source};

use fort_base::{Memory, NameId, Place, Ty};
use fort_tree::{Grouped, TypeTree};
use std::alloc::Global;

/// The types that a component's trees write, the groupings of its flat expressions, and the number
/// of the name of the function that spawns threads.
pub trait Lookup {
    // What is looked up.
    ghost source: { Self → Source };

    /// The type that a tree writes, or want of memory.
    fn written_type(&self, alloc: Global, tree: &TypeTree) -> Result<Ty, Memory>
        ensures { IfOk result (λ ty. ty ≡ (source self.now).written tree.now) };

    /// The grouping of the flat expression that begins at a place, or `None` where none does.
    fn grouping_at(&self, place: Place) -> Option<&Grouped>
        ensures { option_copied result ≡ (source self.now).grouping place };

    /// The number of the name `spawn'`.
    fn spawning(&self) -> NameId
        ensures { result ≡ (source self.now).spawning };
}
