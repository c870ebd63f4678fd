//! Where declarations and broken pairs stand, and which of two broken pairs stands first.
ghost use Rattle.std.specs.Prelude.{◌≡◌, ◌↔◌, IsTrue};
ghost use Rattle.fort_base.specs.Places.{IsBefore};
ghost use Rattle.fort_over.specs.Standing.{standing as place_of};
ghost use Rattle.fort_over.specs.Walks.{IsSooner, Keeps};

use fort_base::{Place, Rule};

/// A pair of declarations that breaks a rule, by their places.
#[derive(Clone, Copy, Debug, PartialEq, Eq)]
pub struct BrokenPair {
    pub rule: Rule,
    /// The place of the later declaration.
    pub later: Place,
    /// The place of the earlier one.
    pub earlier: Place,
}

/// Where something with this place stands; what has none is built in and stands at the first line
/// and column.
pub fn standing(place: Option<Place>) -> Place
    ensures { result ≡ place_of place }
{
    match place {
        Some(place) => place,
        None => Place { line: 1, column: 1 },
    }
}

/// The first of what was found so far and what was found behind it.
pub fn sooner(best: Option<BrokenPair>, next: Option<BrokenPair>) -> Option<BrokenPair>
    ensures { Keeps best next result }
{
    match (best, next) {
        (_, None) => best,
        (None, Some(_)) => next,
        (Some(held), Some(found)) => { if is_sooner(found, held) { next } else { best } }
    }
}

/// Whether one pair's places stand before another's.
fn is_sooner(a: BrokenPair, b: BrokenPair) -> bool
    ensures { IsTrue result ↔ IsSooner a b }
{
    if a.later.is_before(b.later) {
        return true;
    }
    a.later == b.later && a.earlier.is_before(b.earlier)
}
