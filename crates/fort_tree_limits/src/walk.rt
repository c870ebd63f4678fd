//! The earliest place of what has too many parts.
ghost use Rattle.std.specs.Prelude.{◌≡◌, [], ◌∷◌};
ghost use Rattle.std.specs.Option.{option_to_list};
ghost use Rattle.fort_tree.specs.Measured.{over};
ghost use Rattle.fort_tree_limits.specs.Earliest.{earliest};
ghost use Rattle.fort_base.specs.Places.{is_before};

use fort_base::Place;

/// A walk over a tree: the earliest place so far of what has too many parts.
#[derive(Drop)]
pub(crate) struct Walk {
    pub(crate) earliest: Option<Place>,
}

impl Walk {
    /// Takes a place into account.
    #[tactic(auto, unfolding(crate::specs::Earliest::earliest))]
    pub(crate) fn see(&mut self, at: Place)
        ensures { self.new.earliest ≡ earliest self.old.earliest (at ∷ []) }
    {
        match self.earliest {
            Some(found) => {
                if at.is_before(found) {
                    self.earliest = Some(at);
                }
            }
            None => self.earliest = Some(at),
        }
    }

    /// Takes a place into account that may be wanting.
    #[tactic(auto, using(crate::proofs::EarliestLaws::earliest_none))]
    pub(crate) fn see_late(&mut self, late: Option<Place>)
        ensures { self.new.earliest ≡ earliest self.old.earliest (option_to_list late) }
    {
        match late {
            Some(at) => self.see(at),
            None => {}
        }
    }

    /// Takes a form into account that has so many parts, and may have at most so many.
    pub(crate) fn count(&mut self, most: usize, count: usize, at: Place)
        ensures { self.new.earliest ≡ earliest self.old.earliest (over most count at) }
    {
        self.see_late(fort_tree_openers::over(most, count, at));
    }
}
