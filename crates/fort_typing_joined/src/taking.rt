//! A grouping, whose elements are taken off one after another.
ghost use Rattle.std.specs.Prelude.{◌≡◌, IfOk, OnOk};
ghost use Rattle.fort_typing_known.specs.Read.{facts};
ghost use Rattle.fort_typing_rules.specs.declared.part.Meaning.TheVariants as a_meaning;
ghost use Rattle.fort_typing_rules.specs.Elements.{made as made_of};
ghost use Rattle.fort_typing_meaning.specs.Joining.{as_grown as barred_grown, grown as grown_by, grows_by};
ghost use Rattle.fort_typing_joined.specs.Ways.{put_together};
ghost use Rattle.fort_typing_joined.specs.Taking.{found_else, grown_of, is_never, meaning_else, takes_one, taking};

use crate::two::made;
use crate::way::{Way, combined};
use fort_base::rules::MISMATCH;
use fort_base::{Boxed, Memory, Place};
use fort_base_stack::Stack;
use fort_juxt::Grouping;
use fort_typing_known::{Fault, Known};
use fort_typing_meaning::Made;
use fort_typing_parts::{breaks, is_nothing, type_of};
use fort_typing_rules::{Meaning, Part};
use std::alloc::Global;

/// What comes of a grouping.
#[derive(Drop)]
pub struct Growth {
    pub part: Boxed<Part>,
    /// The first broken rule so far.
    pub found: Option<Fault>,
}

/// An element that came of others, with the first broken rule so far.
fn grown_from(
    alloc: Global,
    place: Place,
    meaning: Meaning,
    found: Option<Fault>,
) -> Result<Growth, Memory>
    ensures { IfOk result (λ it. grown_of it
        ≡ record { part = made_of place meaning; found = found }) }
{
    let part = Boxed::new(alloc, made(place, meaning))?;
    Ok(Growth { part, found })
}

/// The first broken rule so far, where this came of two elements.
fn found_with(new: &Made, found: Option<Fault>) -> Option<Fault>
    ensures { result ≡ found_else new.now found }
{
    match new {
        Made::Breaks(fault) => breaks(fault.rule, fault.place, found),
        _ => found,
    }
}

/// What an element is, of which this has come.
fn meaning_in(new: Made) -> Meaning
    ensures { result ≡ meaning_else new }
{
    match new {
        Made::Gives(typed) => Meaning::Value(typed),
        _ => Meaning::Unknown,
    }
}

/// What came of two elements, as what comes of their grouping.
#[tactic(auto, using(crate::proofs::Grown::grown_as))]
fn grown(alloc: Global, place: Place, new: Made, found: Option<Fault>) -> Result<Growth, Memory>
    ensures { IfOk result (λ it. grown_of it ≡ grown_by place new found) }
{
    let found = found_with(&new, found);
    grown_from(alloc, place, meaning_in(new), found)
}

/// Whether it is a value that is `Nothing`.
fn never_is(meaning: &Meaning) -> bool
    ensures { result ≡ is_never meaning.now }
{
    match meaning {
        Meaning::Value(typed) => is_nothing(type_of(typed)),
        _ => false,
    }
}

/// An element that has no type, and else is as another one.
fn unknown(part: &Part) -> Part
    ensures { result ≡ record part.now { meaning = a_meaning.Unknown } }
{
    Part {
        place: part.place,
        parens: part.parens,
        listed: part.listed,
        postfix: part.postfix,
        meaning: Meaning::Unknown,
    }
}

/// A part of a grouping; one that is `Nothing` breaks 603.
#[tactic(auto, using(crate::proofs::InOrder::never_grown, crate::proofs::InOrder::else_grown))]
fn as_grown(alloc: Global, growth: Growth) -> Result<Growth, Memory>
    ensures { IfOk result (λ it. grown_of it ≡ barred_grown (grown_of growth)) }
{
    if !never_is(&growth.part.get().meaning) {
        return Ok(growth);
    }
    let Growth { part, found } = growth;
    let place = part.get().place;
    let part = Boxed::new(alloc, unknown(part.get()))?;
    Ok(Growth {
        part,
        found: breaks(MISMATCH, place, found),
    })
}

/// What comes of two groupings.
fn grows(
    alloc: Global,
    known: &Known,
    way: Way,
    one: Growth,
    other: Growth,
) -> Result<Growth, Memory>
    ensures { IfOk result (λ it. grown_of it
        ≡ grows_by (put_together (facts known.now) way) (grown_of one) (grown_of other)) }
{
    let Growth { part: first, .. } = one;
    let Growth {
        part: second,
        found,
    } = other;
    let place = first.get().place;
    let made = combined(alloc, known, way, first, second)?;
    grown(alloc, place, made, found)
}

/// The next element.
fn next(alloc: Global, rest: &mut Stack<Part>, found: Option<Fault>) -> Result<Growth, Memory>
    ensures grown { IfOk result (λ it. grown_of it ≡ (takes_one rest.old found).grown) }
    ensures rest { OnOk result (rest.new ≡ (takes_one rest.old found).rest) }
{
    match rest.pop() {
        Some(part) => {
            let part = Boxed::new(alloc, part)?;
            Ok(Growth { part, found })
        }
        None => grown_from(alloc, Place { line: 0, column: 0 }, Meaning::Unknown, found),
    }
}

/// What comes of a grouping of the next elements, and the elements behind it.
#[cycle(taken)]
#[tactic(auto, using(crate::proofs::InOrder::taking_one, crate::proofs::InOrder::taking_apply, crate::proofs::InOrder::taking_pair))]
pub fn taken(
    alloc: Global,
    known: &Known,
    grouping: &Grouping,
    rest: &mut Stack<Part>,
    found: Option<Fault>,
) -> Result<Growth, Memory>
    ensures grown { IfOk result (λ it. grown_of it
        ≡ (taking (facts known.now) grouping.now rest.old found).grown) }
    ensures rest { OnOk result (rest.new
        ≡ (taking (facts known.now) grouping.now rest.old found).rest) }
{
    match grouping {
        Grouping::One(_) => next(alloc, rest, found),
        Grouping::Apply(function, argument) => {
            let one = as_grown(alloc, taken(alloc, known, function.get(), rest, found)?)?;
            let found = one.found;
            let other = as_grown(alloc, taken(alloc, known, argument.get(), rest, found)?)?;
            grows(alloc, known, Way::Apply, one, other)
        }
        Grouping::Pair(left, right) => {
            let one = as_grown(alloc, taken(alloc, known, left.get(), rest, found)?)?;
            let found = one.found;
            let other = as_grown(alloc, taken(alloc, known, right.get(), rest, found)?)?;
            grows(alloc, known, Way::Join, one, other)
        }
    }
}
