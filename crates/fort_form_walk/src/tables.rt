//! What the forms of a component hang on beside its trees.
ghost use Rattle.std.specs.Prelude.{◌≡◌, length};
ghost use Rattle.fort_hier.specs.Numbers.{HoldsNumbers, all_types};
ghost use Rattle.fort_member_fields.specs.Written.{written};
ghost use Rattle.fort_form_walk.specs.FormsOf.{spawn_name};
ghost use Rattle.fort_form_walk.specs.Groupings.{grouping_at};
ghost use Rattle.fort_form_walk.specs.Props.{HoldsNumbers-prop};

use crate::groupings::GroupsByPlace;
use crate::written::written_by;
use fort_base::{Bytes, Memory, NameId, Place, Ty};
use fort_form_meaning::Lookup;
use fort_hier::{Numbers, TypeHead};
use fort_tree::{Grouped, TypeTree};
use std::alloc::Global;

/// The heads of the component's types, its names by their numbers, how many names of types there
/// are, their numbers, the groupings of its flat expressions, and the number of the name `spawn'`.
#[derive(Drop)]
pub struct Tables<'a> {
    pub heads: &'a [TypeHead],
    pub names: &'a [Bytes],
    pub size: usize,
    pub numbers: &'a Numbers<'a>,
    pub groups: GroupsByPlace<'a>,
    pub spawning: NameId,
    // So many names of types are numbered.
    ghost sized: { length (all_types names.now heads.now) ≡ size },
    // The number is that of `spawn'`.
    ghost spawns: { spawning ≡ spawn_name names.now },
    // The map has the number of each of them.
    ghost holds: { HoldsNumbers (all_types names.now heads.now) numbers.now } by { HoldsNumbers-prop _ _ },
}

impl<'a> Lookup for Tables<'a> {
    ghost source = { λ s. record { written = written (all_types s.names.now s.heads.now) s.names.now; grouping = grouping_at s.groups.list.now; spawning = spawn_name s.names.now } };

    fn written_type(&self, alloc: Global, tree: &TypeTree) -> Result<Ty, Memory> {
        written_by(alloc, self, tree)
    }

    fn grouping_at(&self, place: Place) -> Option<&Grouped> {
        self.groups.at(place)
    }

    fn spawning(&self) -> NameId {
        self.spawning
    }
}
