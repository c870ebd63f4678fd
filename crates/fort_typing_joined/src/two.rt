//! Two elements of a run that stand side by side, and what takes their place.
ghost use Rattle.std.specs.Prelude.{◌≡◌, ◌≤◌, ◌++◌, ◌∷◌, drop, length, take, IfOk, IfSome};
ghost use Rattle.fort_typing_rules.specs.Elements.{made as made_of};
ghost use Rattle.fort_typing_meaning.specs.declared.frame.Made.TheVariants as a_made;
ghost use Rattle.fort_typing_meaning.specs.Joining.{around, replaced};
ghost use Rattle.fort_typing_joined.specs.Steps.{fault_of, further_of, meaning_from, replaced_else, two_of, typed_of};

use fort_base::{Boxed, List, Memory, Place};
use fort_form_typed::TypedForm;
use fort_typing_known::{Fault, Known};
use fort_typing_meaning::{Made, Valued, Want};
use fort_typing_parts::{as_wanted, breaks};
use fort_typing_rules::{Meaning, Part};
use std::alloc::Global;

/// Two elements, and the others.
#[derive(Drop)]
pub struct Pair {
    pub one: Boxed<Part>,
    pub other: Boxed<Part>,
    /// Those before and those behind, without the two.
    pub rest: List<Part>,
}

/// What a run goes on with.
#[derive(Drop)]
pub enum Step {
    /// Its elements, and the first broken rule so far.
    On(List<Part>, Option<Fault>),
    /// Nothing.
    Stop(Option<Fault>),
}

/// An element that came of others.
pub fn made(place: Place, meaning: Meaning) -> Part
    ensures { result ≡ made_of place meaning }
{
    Part {
        place,
        parens: false,
        listed: false,
        postfix: false,
        meaning,
    }
}

/// The two elements from a number on, where there are two.
#[tactic(auto, using(crate::proofs::Steps::taken_apart, crate::proofs::Steps::too_short, crate::proofs::Steps::still_within))]
pub fn two(alloc: Global, parts: List<Part>, at: usize) -> Result<Option<Pair>, Memory>
    ensures apart { IfOk result (λ pair. two_of at pair ≡ around at parts) }
    ensures within { IfOk result (λ it. IfSome it (λ pair. at ≤ length pair.rest)) }
{
    if parts.len() < 2 || parts.len() - 2 < at {
        return Ok(None);
    }
    let mut items = parts.into_vec();
    let one = Boxed::new(alloc, items.remove(at))?;
    let other = Boxed::new(alloc, items.remove(at))?;
    Ok(Some(Pair {
        one,
        other,
        rest: List::from_vec(items),
    }))
}

/// The elements with one more in between.
fn with_part(
    rest: List<Part>,
    at: usize,
    place: Place,
    meaning: Meaning,
) -> Result<List<Part>, Memory>
    requires { at ≤ length rest }
    ensures { IfOk result (λ parts. parts ≡ take at rest ++ made_of place meaning ∷ drop at rest) }
{
    let mut items = rest.into_vec();
    items.insert(at, made(place, meaning))?;
    Ok(List::from_vec(items))
}

/// What an element is, of which this has come.
fn meaning_of(node: Option<TypedForm>) -> Meaning
    ensures { result ≡ meaning_from node }
{
    match node {
        Some(typed) => Meaning::Value(typed),
        None => Meaning::Unknown,
    }
}

/// A typed form that came of two elements takes their place; 603 where it is `Nothing` and isn't
/// the whole.
#[tactic(auto, using(crate::proofs::Steps::whole_is, crate::proofs::Steps::not_whole), unfolding(fort_typing_meaning::specs::Tests::suits))]
fn put_typed(
    alloc: Global,
    known: &Known,
    rest: List<Part>,
    at: usize,
    place: Place,
    typed: TypedForm,
    found: Option<Fault>,
) -> Result<Step, Memory>
    requires { at ≤ length rest }
    ensures { IfOk result (λ step. further_of step
        ≡ replaced (take at rest) place (drop at rest) (a_made.Gives typed) found) }
{
    let want = if rest.len() == 0 {
        Want::Value
    } else {
        Want::Operand
    };
    let Valued { node, found } = as_wanted(alloc, known, want, place, Some(typed), found);
    let parts = with_part(rest, at, place, meaning_of(node))?;
    Ok(Step::On(parts, found))
}

/// An element without a type takes the place of two elements in which a rule is broken.
fn put_broken(
    rest: List<Part>,
    at: usize,
    place: Place,
    fault: Fault,
    found: Option<Fault>,
) -> Result<Step, Memory>
    requires { at ≤ length rest }
    ensures { IfOk result (λ step. further_of step
        ≡ replaced (take at rest) place (drop at rest) (a_made.Breaks fault) found) }
{
    let parts = with_part(rest, at, place, Meaning::Unknown)?;
    Ok(Step::On(parts, breaks(fault.rule, fault.place, found)))
}

/// A broken rule takes the place of two elements, where there is one; else a run ends.
fn put_else(
    rest: List<Part>,
    at: usize,
    place: Place,
    fault: Option<Fault>,
    found: Option<Fault>,
) -> Result<Step, Memory>
    requires { at ≤ length rest }
    ensures { IfOk result (λ step. further_of step
        ≡ replaced_else (take at rest) place (drop at rest) fault found) }
{
    match fault {
        Some(fault) => put_broken(rest, at, place, fault, found),
        None => Ok(Step::Stop(found)),
    }
}

/// The rule that was broken.
fn fault_in(new: &Made) -> Option<Fault>
    ensures { result ≡ fault_of new.now }
{
    match new {
        Made::Breaks(fault) => Some(*fault),
        _ => None,
    }
}

/// The typed form that came.
fn typed_in(new: Made) -> Option<TypedForm>
    ensures { result ≡ typed_of new }
{
    match new {
        Made::Gives(typed) => Some(typed),
        _ => None,
    }
}

/// What came of two elements takes their place.
#[tactic(auto, using(crate::proofs::Placed::typed_placed, crate::proofs::Placed::else_placed))]
pub fn put(
    alloc: Global,
    known: &Known,
    rest: List<Part>,
    at: usize,
    place: Place,
    new: Made,
    found: Option<Fault>,
) -> Result<Step, Memory>
    requires { at ≤ length rest }
    ensures { IfOk result (λ step. further_of step
        ≡ replaced (take at rest) place (drop at rest) new found) }
{
    let fault = fault_in(&new);
    match typed_in(new) {
        Some(typed) => put_typed(alloc, known, rest, at, place, typed, found),
        None => put_else(rest, at, place, fault, found),
    }
}
