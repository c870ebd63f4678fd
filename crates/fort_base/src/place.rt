//! The order of places in a file. The chapter "Places" of docs/LANGUAGE.md.
ghost use Rattle.std.specs.Prelude.{◌≡◌, ◌↔◌, IsTrue};
ghost use Rattle.fort_base.specs.Places.{IsBefore, Keeps, KeepsAny, is_before};

use crate::refusal::Place;

impl Place {
    /// Whether this place stands before another one in a file: on an earlier line, or further left
    /// on one line.
    pub fn is_before(self, other: Place) -> bool
        ensures before { IsTrue result ↔ IsBefore self other }
        ensures test { result ≡ is_before self other }
    {
        self.line < other.line || (self.line == other.line && self.column < other.column)
    }
}

/// The earlier of the place so far, where there is one, and a further one; of two equal places
/// either.
pub fn earlier(best: Option<Place>, place: Place) -> Option<Place>
    ensures { Keeps best place result }
{
    match best {
        Some(held) if held.is_before(place) => Some(held),
        _ => Some(place),
    }
}

/// The earlier of two places each of which may be wanting; none where both are.
pub fn earlier_of(best: Option<Place>, further: Option<Place>) -> Option<Place>
    ensures { KeepsAny best further result }
{
    match further {
        Some(place) => earlier(best, place),
        None => best,
    }
}
