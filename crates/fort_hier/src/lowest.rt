//! The broken sentence of the lowest number.
ghost use Rattle.std.specs.Prelude.{◌≤◌, length};
ghost use Rattle.fort_base.specs.declared.rules.TheConstants.{CYCLIC_EXTENDS, EXTENDS_OBJECT, EXTENDS_EXCLUDED, NOT_COMPRISED, COMPRISED_NOT_BELOW};
ghost use Rattle.fort_types.specs.Table.{HasRows};
ghost use Rattle.fort_hier.specs.Lowest.{IsLowestFrom};

use crate::sentences::{Sentence, first_broken};
use fort_base::{Place, TypeTable};
use fort_types::DeclaredType;

/// A broken sentence, and the earliest place where it is broken.
#[derive(Clone, Copy, Debug, PartialEq, Eq)]
pub struct BrokenSentence {
    pub sentence: Sentence,
    pub place: Place,
}

/// The broken sentence of the lowest number with its earliest place, or `None` where none is
/// broken.
///
/// The places are those of the last types of the hierarchy, in its order.
pub fn lowest_broken(
    types: &[DeclaredType],
    table: &TypeTable,
    places: &[Place],
) -> Option<BrokenSentence>
    requires rows { HasRows types.now table.now }
    requires fewer { length places.now ≤ length types.now }
    ensures { IsLowestFrom types.now places.now CYCLIC_EXTENDS.0 result }
{
    match first_broken(types, table, places, Sentence::Cyclic) {
        Some(place) => Some(BrokenSentence {
            sentence: Sentence::Cyclic,
            place,
        }),
        None => from_404(types, table, places),
    }
}

/// The same of the sentences from 404 on.
fn from_404(types: &[DeclaredType], table: &TypeTable, places: &[Place]) -> Option<BrokenSentence>
    requires rows { HasRows types.now table.now }
    requires fewer { length places.now ≤ length types.now }
    ensures { IsLowestFrom types.now places.now EXTENDS_OBJECT.0 result }
{
    match first_broken(types, table, places, Sentence::ExtendsObject) {
        Some(place) => Some(BrokenSentence {
            sentence: Sentence::ExtendsObject,
            place,
        }),
        None => from_405(types, table, places),
    }
}

/// The same of the sentences from 405 on.
fn from_405(types: &[DeclaredType], table: &TypeTable, places: &[Place]) -> Option<BrokenSentence>
    requires rows { HasRows types.now table.now }
    requires fewer { length places.now ≤ length types.now }
    ensures { IsLowestFrom types.now places.now EXTENDS_EXCLUDED.0 result }
{
    match first_broken(types, table, places, Sentence::ExtendsExcluded) {
        Some(place) => Some(BrokenSentence {
            sentence: Sentence::ExtendsExcluded,
            place,
        }),
        None => from_406(types, table, places),
    }
}

/// The same of the sentences from 406 on.
fn from_406(types: &[DeclaredType], table: &TypeTable, places: &[Place]) -> Option<BrokenSentence>
    requires rows { HasRows types.now table.now }
    requires fewer { length places.now ≤ length types.now }
    ensures { IsLowestFrom types.now places.now NOT_COMPRISED.0 result }
{
    match first_broken(types, table, places, Sentence::NotComprised) {
        Some(place) => Some(BrokenSentence {
            sentence: Sentence::NotComprised,
            place,
        }),
        None => from_407(types, table, places),
    }
}

/// The same of 407.
fn from_407(types: &[DeclaredType], table: &TypeTable, places: &[Place]) -> Option<BrokenSentence>
    requires rows { HasRows types.now table.now }
    requires fewer { length places.now ≤ length types.now }
    ensures { IsLowestFrom types.now places.now COMPRISED_NOT_BELOW.0 result }
{
    match first_broken(types, table, places, Sentence::ComprisedNotBelow) {
        Some(place) => Some(BrokenSentence {
            sentence: Sentence::ComprisedNotBelow,
            place,
        }),
        None => None,
    }
}
