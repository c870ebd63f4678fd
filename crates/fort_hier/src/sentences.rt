//! The sentences on one type's head, each asked of the rows.
ghost use Rattle.std.specs.Prelude.{◌≡◌, ◌<◌, ◌≤◌, ◌+◌, ◌↔◌, IsTrue, length};
ghost use Rattle.fort_types.specs.Table.{HasRows};
ghost use Rattle.fort_hier.specs.Sentences.{Breaks, BreaksAt, IsOnCycle, ExtendsLeaf, IsBelowBoth, IsNotListed, ListsOther};
ghost use Rattle.fort_base.specs.Places.{IsFirst};
ghost use Rattle.fort_hier.specs.Lowest.{rule_number};

use crate::walks::{any_excluding, any_leaf, any_not_set, any_set, any_unlisted};
use fort_base::rules::{
    COMPRISED_NOT_BELOW, CYCLIC_EXTENDS, EXTENDS_EXCLUDED, EXTENDS_OBJECT, NOT_COMPRISED,
};
use fort_base::{Place, Rule, TypeTable, earlier};
use fort_types::DeclaredType;

/// A sentence that no declared type may break.
#[derive(Clone, Copy, Debug, PartialEq, Eq)]
pub enum Sentence {
    /// 403: no type is above itself by one or more `extends`.
    Cyclic,
    /// 404: no type extends an object or a leaf.
    ExtendsObject,
    /// 405: no type is below both sides of a declared exclusion.
    ExtendsExcluded,
    /// 406: who extends a trait with a list stands in the list.
    NotComprised,
    /// 407: who stands in a trait's list is below the trait.
    ComprisedNotBelow,
}

impl Sentence {
    /// The rule that refuses a type which breaks the sentence.
    pub fn rule(self) -> Rule
        ensures { result.0 ≡ rule_number self }
    {
        match self {
            Sentence::Cyclic => CYCLIC_EXTENDS,
            Sentence::ExtendsObject => EXTENDS_OBJECT,
            Sentence::ExtendsExcluded => EXTENDS_EXCLUDED,
            Sentence::NotComprised => NOT_COMPRISED,
            Sentence::ComprisedNotBelow => COMPRISED_NOT_BELOW,
        }
    }
}

/// The earliest place among those of the types that break a sentence, or `None` where no type
/// breaks it.
///
/// The places are those of the last types of the hierarchy, in its order.
pub fn first_broken(
    types: &[DeclaredType],
    table: &TypeTable,
    places: &[Place],
    sentence: Sentence,
) -> Option<Place>
    requires rows { HasRows types.now table.now }
    requires fewer { length places.now ≤ length types.now }
    ensures { IsFirst (BreaksAt sentence types.now places.now) result }
{
    let built_in = types.len() - places.len();
    let mut best = None;
    for (number, place) in places.iter().enumerate() {
        if !breaks(types, table, sentence, built_in + number) {
            continue;
        }
        best = earlier(best, *place);
    }
    best
}

/// Whether a type breaks a sentence.
fn breaks(types: &[DeclaredType], table: &TypeTable, sentence: Sentence, a: usize) -> bool
    requires rows { HasRows types.now table.now }
    requires inside { a < length types.now }
    ensures { IsTrue result ↔ Breaks sentence types.now a }
{
    match sentence {
        Sentence::Cyclic => is_on_cycle(types, table, a),
        Sentence::ExtendsObject => extends_leaf(types, a),
        Sentence::ExtendsExcluded => is_below_both(types, table, a),
        Sentence::NotComprised => is_not_listed(types, a),
        Sentence::ComprisedNotBelow => lists_other(types, table, a),
    }
}

/// Whether a type is above itself by one or more `extends`: whether a type that it extends is below
/// it.
#[tactic(auto, using(crate::proofs::ByRows::cycle_told))]
fn is_on_cycle(types: &[DeclaredType], table: &TypeTable, a: usize) -> bool
    requires rows { HasRows types.now table.now }
    requires inside { a < length types.now }
    ensures { IsTrue result ↔ IsOnCycle types.now a }
{
    any_set(table.below.as_slice(), types[a].extends.as_slice(), a)
}

/// Whether a type extends an object or a leaf.
#[tactic(auto, using(crate::proofs::ByRows::leaf_told))]
fn extends_leaf(types: &[DeclaredType], a: usize) -> bool
    requires inside { a < length types.now }
    ensures { IsTrue result ↔ ExtendsLeaf types.now a }
{
    any_leaf(types, types[a].extends.as_slice())
}

/// Whether a type is below both sides of a declared exclusion.
#[tactic(auto, using(crate::proofs::ByRows::both_told))]
fn is_below_both(types: &[DeclaredType], table: &TypeTable, a: usize) -> bool
    requires rows { HasRows types.now table.now }
    requires inside { a < length types.now }
    ensures { IsTrue result ↔ IsBelowBoth types.now a }
{
    any_excluding(types, table.below.as_slice(), a)
}

/// Whether a type extends a trait whose list hasn't it.
#[tactic(auto, using(crate::proofs::ByRows::unlisted_told))]
fn is_not_listed(types: &[DeclaredType], a: usize) -> bool
    requires inside { a < length types.now }
    ensures { IsTrue result ↔ IsNotListed types.now a }
{
    any_unlisted(types, types[a].extends.as_slice(), a)
}

/// Whether a type's list has one that isn't below the type.
#[tactic(auto, using(crate::proofs::ByRows::other_told))]
fn lists_other(types: &[DeclaredType], table: &TypeTable, a: usize) -> bool
    requires rows { HasRows types.now table.now }
    requires inside { a < length types.now }
    ensures { IsTrue result ↔ ListsOther types.now a }
{
    any_not_set(table.below.as_slice(), types[a].comprises.as_slice(), a)
}
