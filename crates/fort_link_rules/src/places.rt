//! The places at which a rule is broken, and the earliest of them.
ghost use Rattle.std.specs.Prelude.{Contains, OnOk};
ghost use Rattle.fort_base.specs.Places.{IsFirst};
ghost use Rattle.fort_link_rules.specs.Places.{Gathers, IsThere};

use fort_base::{List, Memory, Place, earlier};

/// The earliest of some places, or none where there is none.
pub(crate) fn earliest(places: &[Place]) -> Option<Place>
    ensures { IsFirst (Contains places.now) result }
{
    let mut best = None;
    for place in places {
        best = earlier(best, *place);
    }
    best
}

/// Adds a place, where a rule is broken there.
pub(crate) fn add_where(broken: bool, place: Place, places: &mut List<Place>) -> Result<(), Memory>
    ensures { OnOk result (Gathers (IsThere broken place) places.old places.new) }
{
    if broken {
        places.push(place)?;
    }
    Ok(())
}
