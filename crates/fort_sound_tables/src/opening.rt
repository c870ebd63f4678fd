//! What stands where as a run begins, and which locations are for the component.
ghost use Rattle.std.specs.Prelude.{◌≡◌, IsTrue, Some};
ghost use Rattle.std.specs.Option.{option_copied};
ghost use Rattle.fort_machine.specs.Journals.{opening_store, value_in};
ghost use Rattle.fort_machine.specs.Scopes.{is_among};
ghost use Rattle.fort_sound_tables.specs.Leaves.{ground_of, variables};
ghost use Rattle.fort_sound_tables.specs.Numbers.{names, start};

use crate::numbers::Numbers;
use fort_base::Loc;
use fort_core::{Program, Value};

// What stands at a location.
fn value_at<'a>(opening: &'a [(Loc, Value)], location: u64) -> Option<&'a Value>
    ensures { option_copied result ≡ value_in opening.now location }
{
    for pair in opening {
        if pair.0.0 == location {
            return Some(&pair.1);
        }
    }
    None
}

/// Whether this value stands at a location.
pub(crate) fn holds(program: &Program, location: Loc, value: &Value) -> bool
    ensures { IsTrue result → opening_store program.now location.0 ≡ Some value.now }
{
    match value_at(program.opening.as_slice(), location.0) {
        None => false,
        Some(found) => found.same(value),
    }
}

// Whether a location is that of a variable of the prelude.
fn is_variable(x: &Numbers, location: u64) -> bool
    ensures { result ≡ is_among location (variables (names x.now) (start x.now)) }
{
    location == x.places.queue.0
        || location == x.places.unended.0
        || location == x.places.count.0
        || location == x.places.started.0
}

/// Whether a location is for the component.
pub(crate) fn is_open(program: &Program, x: &Numbers, location: u64) -> bool
    ensures { result ≡ (ground_of program.now x.now).is_open location }
{
    !is_variable(x, location) && value_at(program.opening.as_slice(), location).is_some()
}
