//! What there is too much of in the whole: 707.
ghost use Rattle.std.specs.Prelude.{◌≡◌, ◌+◌, ◌++◌, IfOk, OnOk, length, map};
ghost use Rattle.std.specs.List.{flat_map};
ghost use Rattle.fort_base.specs.Places.{IsFirst};
ghost use Rattle.fort_link_rules.specs.Places.{Gathers};
ghost use Rattle.fort_link_rules.specs.TooMuch as spec;
ghost use Rattle.fort_tree.specs.Component.{export_tokens, yield};
ghost use Rattle.fort_tree.specs.Declarations.{said_declared};
ghost use Rattle.fort_tree.specs.Limits.{declaration_places, type_places};
ghost use Rattle.fort_tree.specs.Said.{entries_tokens};

use crate::places::earliest;
use crate::spots::{add_declarations, add_types};
use fort_base::{List, Memory, Place};
use fort_lex_token::Token;
use fort_link_units::Unit;
use fort_tree::{Component, Declared};
use fort_yield::yield_of;
use std::alloc::Global;

/// How many declarations the whole may have, the members of its traits and objects included.
const MOST_DECLARATIONS: usize = 4096;

/// How many traits and objects the whole may have.
const MOST_TYPES: usize = 1024;

/// How many tokens the whole may have.
const MOST_TOKENS: usize = 262_144;

/// The tokens of the whole's own frame: `component N export Executable` and `end`.
const FRAME_TOKENS: usize = 5;

/// The earliest place of the declaration, type or token that passes a limit of the whole (707).
pub(crate) fn first_too_much(alloc: Global, units: &[Unit]) -> Result<Option<Place>, Memory>
    ensures { IfOk result (IsFirst (spec.IsTooMuch units.now)) }
{
    let mut places = List::new(alloc);
    let declarations = declarations_in(alloc, units)?;
    add_passed(&declarations, MOST_DECLARATIONS, &mut places)?;
    let types = types_in(alloc, units)?;
    add_passed(&types, MOST_TYPES, &mut places)?;
    let tokens = tokens_in(alloc, units)?;
    add_passed(&tokens, MOST_TOKENS - FRAME_TOKENS, &mut places)?;
    Ok(earliest(places.as_slice()))
}

/// Adds the first of some places that is one too many, where there are more than so many.
fn add_passed(list: &List<Place>, most: usize, places: &mut List<Place>) -> Result<(), Memory>
    ensures { OnOk result (Gathers (spec.IsPassed most list.now) places.old places.new) }
{
    match list.get(most) {
        Some(place) => places.push(*place),
        None => Ok(()),
    }
}

/// The declarations that a unit adds to the whole.
fn declarations_of(unit: &Unit) -> &[Declared]
    ensures { result.now ≡ spec.declarations_in unit.now }
{
    match unit {
        Unit::Component(component) => component.parsed.component.declarations.as_slice(),
        Unit::Api(_) => &[],
    }
}

/// The places of the whole's declarations and of their members.
fn declarations_in(alloc: Global, units: &[Unit]) -> Result<List<Place>, Memory>
    ensures { IfOk result (λ places. places
        ≡ flat_map declaration_places (spec.whole_declarations units.now)) }
{
    let mut places = List::new(alloc);
    for unit in units {
        add_declarations(declarations_of(unit), &mut places)?;
    }
    Ok(places)
}

/// The places of the whole's declarations of types.
fn types_in(alloc: Global, units: &[Unit]) -> Result<List<Place>, Memory>
    ensures { IfOk result (λ places. places
        ≡ flat_map (λ d. type_places d.declaration) (spec.whole_declarations units.now)) }
{
    let mut places = List::new(alloc);
    for unit in units {
        add_types(declarations_of(unit), &mut places)?;
    }
    Ok(places)
}

/// The places of the tokens of the whole's declarations.
fn tokens_in(alloc: Global, units: &[Unit]) -> Result<List<Place>, Memory>
    ensures { IfOk result (λ places. places
        ≡ spec.token_places (spec.whole_declarations units.now)) }
{
    let mut places = List::new(alloc);
    for unit in units {
        add_tokens_of(alloc, unit, &mut places)?;
    }
    Ok(places)
}

/// Adds the places of the tokens of a unit's declarations.
fn add_tokens_of(alloc: Global, unit: &Unit, places: &mut List<Place>) -> Result<(), Memory>
    ensures { OnOk result (places.new
        ≡ places.old ++ spec.token_places (spec.declarations_in unit.now)) }
{
    match unit {
        Unit::Component(component) => add_tokens(alloc, &component.parsed.component, places),
        Unit::Api(_) => Ok(()),
    }
}

/// Adds the places of the tokens of a component's declarations.
fn add_tokens(alloc: Global, component: &Component, places: &mut List<Place>) -> Result<(), Memory>
    ensures { OnOk result (places.new ≡ places.old ++ spec.token_places component.now.declarations) }
{
    let tokens = yield_of(alloc, component)?;
    add_places(without_frame(component, tokens.list.as_slice()), places)
}

/// The tokens of a component's declarations, among all of its tokens.
fn without_frame<'a>(component: &Component, tokens: &'a [Token]) -> &'a [Token]
    requires { tokens.now ≡ yield component.now }
    ensures { result.now ≡ entries_tokens (map said_declared component.now.declarations) }
{
    let head = head_length(component);
    let end = tokens.len() - 1;
    &tokens[head..end]
}

/// How many tokens stand before a component's declarations.
fn head_length(component: &Component) -> usize
    ensures { result ≡ 2 + length (export_tokens component.now.export) }
{
    match component.export {
        Some(_) => 4,
        None => 2,
    }
}

/// Adds the places of tokens.
fn add_places(tokens: &[Token], places: &mut List<Place>) -> Result<(), Memory>
    ensures { OnOk result (places.new ≡ places.old ++ map (λ t. t.place) tokens.now) }
{
    for token in tokens {
        places.push(token.place)?;
    }
    Ok(())
}
