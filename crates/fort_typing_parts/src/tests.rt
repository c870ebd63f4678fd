//! What is wanted of a part.
ghost use Rattle.std.specs.Prelude.{◌≡◌, cond, Some};
ghost use Rattle.std.specs.Option.{option_copied};
ghost use Rattle.fort_base.specs.declared.ty.Ty.TheVariants as a_type;
ghost use Rattle.fort_typing_known.specs.Below.{is_below as below};
ghost use Rattle.fort_typing_known.specs.Read.{facts};
ghost use Rattle.fort_typing_rules.specs.Types.{unit as unit_type};
ghost use Rattle.fort_typing_meaning.specs.Faults.{breaks as broken};
ghost use Rattle.fort_typing_meaning.specs.Tests.{is_declared, suits, rule_of, all_below, widest, valued, as_wanted, no_node, taken};

use crate::faults::breaks;
use crate::types::{is_nothing, type_of, unit};
use fort_base::rules::{FUNCTION_AS_VALUE, MISMATCH, NOT_AN_EXCEPTION};
use fort_base::{Place, Rule, Ty, TypeId};
use fort_form_typed::TypedForm;
use fort_types_builtin::{BOOLEAN, EXCEPTION, ZZ32, ZZ64};
use fort_typing_known::{Fault, Known, is_below};
use fort_typing_meaning::{Valued, Want};
use fort_typing_rules::Meaning;
use std::alloc::Global;

/// Whether a type is this declared type.
fn is_declared(ty: &Ty, declared: TypeId) -> bool
    ensures { result ≡ is_declared ty.now declared.0 }
{
    match ty {
        Ty::Named(id) => id.0 == declared.0,
        _ => false,
    }
}

/// Whether a type is below this declared type.
fn is_below_declared(known: &Known, ty: &Ty, declared: TypeId) -> bool
    ensures { result ≡ below (facts known.now) ty.now (a_type.Named declared) }
{
    let other = Ty::Named(declared);
    is_below(known, ty, &other)
}

/// Whether a type is below `()`.
fn is_below_unit(alloc: Global, known: &Known, ty: &Ty) -> bool
    ensures { result ≡ below (facts known.now) ty.now unit_type }
{
    let other = unit(alloc);
    is_below(known, ty, &other)
}

/// Whether a type is as wanted.
#[tactic(auto, unfolding(fort_typing_meaning::specs::Tests::suits))]
pub fn suits(alloc: Global, known: &Known, want: Want, ty: &Ty) -> bool
    ensures { result ≡ suits (facts known.now) want.entry ty.now }
{
    match want {
        Want::Value => true,
        Want::Operand => !is_nothing(ty),
        Want::Below(other) => is_below(known, ty, other),
        Want::Unit => is_below_unit(alloc, known, ty),
        Want::Small => is_below_declared(known, ty, ZZ32),
        Want::Truth => is_declared(ty, BOOLEAN),
        Want::Number => is_declared(ty, ZZ32) || is_declared(ty, ZZ64),
        Want::Exception => is_below_declared(known, ty, EXCEPTION),
    }
}

/// The rule that is broken where a type isn't as wanted.
fn rule_of(want: Want) -> Rule
    ensures { result ≡ rule_of want.entry }
{
    match want {
        Want::Exception => NOT_AN_EXCEPTION,
        _ => MISMATCH,
    }
}

/// Whether all types are below this one.
fn all_below(known: &Known, types: &[Ty], ty: &Ty) -> bool
    ensures { result ≡ all_below (facts known.now) types.now ty.now }
{
    for other in types {
        if !is_below(known, other, ty) {
            return false;
        }
    }
    true
}

/// The widest type of several: the first of them that all are below.
#[tactic(auto, unfolding(fort_typing_meaning::specs::Tests::widest))]
pub fn widest<'a>(known: &Known, types: &'a [Ty]) -> Option<&'a Ty>
    ensures { option_copied result ≡ widest (facts known.now) types.now }
{
    for ty in types {
        if all_below(known, types, ty) {
            return Some(ty);
        }
    }
    None
}

/// What a part has become where a value is wanted.
#[tactic(auto, unfolding(fort_typing_meaning::specs::Tests::valued))]
pub fn valued(place: Place, seen: Meaning, found: Option<Fault>) -> Valued
    ensures { result ≡ valued place seen found }
{
    match seen {
        Meaning::Value(typed) => Valued {
            node: Some(typed),
            found,
        },
        Meaning::Functions(_) => Valued {
            node: None,
            found: breaks(FUNCTION_AS_VALUE, place, found),
        },
        _ => Valued { node: None, found },
    }
}

/// A typed form that suits.
fn fitting(typed: TypedForm, found: Option<Fault>) -> Valued
    ensures { result ≡ record { node = Some typed; found = found } }
{
    Valued {
        node: Some(typed),
        found,
    }
}

/// A typed form that doesn't suit breaks this rule; it is let go as what is no value.
#[tactic(auto, unfolding(fort_typing_meaning::specs::Tests::valued))]
fn unfitting(typed: TypedForm, rule: Rule, place: Place, found: Option<Fault>) -> Valued
    ensures { result ≡ no_node (broken rule place found) }
{
    let found = breaks(rule, place, found);
    valued(place, Meaning::Exponent(typed), found)
}

/// What a typed form has become that suits, or breaks this rule.
fn if_suited(
    suited: bool,
    rule: Rule,
    place: Place,
    typed: TypedForm,
    found: Option<Fault>,
) -> Valued
    ensures { result
        ≡ cond suited (record { node = Some typed; found = found })
        (no_node (broken rule place found)) }
{
    if suited {
        return fitting(typed, found);
    }
    unfitting(typed, rule, place, found)
}

/// What a typed form has become, as wanted.
fn suited(
    alloc: Global,
    known: &Known,
    want: Want,
    place: Place,
    typed: TypedForm,
    found: Option<Fault>,
) -> Valued
    ensures { result ≡ as_wanted (facts known.now) want.entry place (Some typed) found }
{
    let fits = suits(alloc, known, want, type_of(&typed));
    if_suited(fits, rule_of(want), place, typed, found)
}

/// What a value has become, as wanted.
pub fn as_wanted(
    alloc: Global,
    known: &Known,
    want: Want,
    place: Place,
    node: Option<TypedForm>,
    found: Option<Fault>,
) -> Valued
    ensures { result ≡ as_wanted (facts known.now) want.entry place node found }
{
    match node {
        Some(typed) => suited(alloc, known, want, place, typed, found),
        None => Valued { node: None, found },
    }
}

/// What a part has become, as wanted.
#[tactic(auto, unfolding(fort_typing_meaning::specs::Tests::taken))]
pub fn taken(
    alloc: Global,
    known: &Known,
    want: Want,
    place: Place,
    seen: Meaning,
    found: Option<Fault>,
) -> Valued
    ensures { result ≡ taken (facts known.now) want.entry place seen found }
{
    let Valued { node, found } = valued(place, seen, found);
    as_wanted(alloc, known, want, place, node, found)
}
