//! When a form has too many parts.
ghost use Rattle.std.specs.Prelude.{◌≡◌};
ghost use Rattle.std.specs.Option.{option_to_list};
ghost use Rattle.fort_tree.specs.Measured.{over as crowded_place};

use fort_base::Place;

/// The place of a form of so many parts, where it may have fewer. The chapter is "Limits, and 203".
pub fn over(most: usize, count: usize, place: Place) -> Option<Place>
    ensures { option_to_list result ≡ crowded_place most count place }
{
    if count > most {
        return Some(place);
    }
    None
}
