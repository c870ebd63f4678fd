//! What a name stands for, and whether it is visible.
ghost use Rattle.std.specs.Prelude.{◌≡◌, IfOk};
ghost use Rattle.std.specs.Option.{option_copied};
ghost use Rattle.fort_typing_known.specs.Names.{is_leaf_number, is_object, single, standing, standing_single, standing_top, variable, is_type, is_visible, any_declared, shows};
ghost use Rattle.fort_typing_known.specs.Sets.{any_set};
ghost use Rattle.fort_typing_known.specs.Read.{facts, standing_of};

use crate::index::Index;
use crate::known::Known;
use crate::names::{binding, field_in, field_of, number_in, own_field, type_number};
use crate::sets::{has_name, is_function, spelled};
use fort_base::{Memory, NameId, TypeId};
use fort_scope::{Binding, Scope};
use fort_types_builtin::{ANY, RANGE, ZZ32};
use fort_types_sets::{Field, Member, MemberSet};

/// What a name stands for. The chapter "Typing", names.
#[derive(Clone, Copy)]
pub enum Standing<'a> {
    /// A binding.
    Bound(&'a Binding),
    /// A field of the enclosing type.
    Own(TypeId, &'a Field),
    /// A variable at the top, with its number in source order.
    Variable(usize, &'a Field),
    /// A single object.
    Single(TypeId),
    /// A function set.
    Functions,
    /// Nothing.
    Nothing,
}

// Whether the number is that of a built-in leaf.
fn is_leaf_number(number: usize) -> bool
    ensures { result ≡ is_leaf_number number }
{
    ZZ32.0 as usize <= number && number <= RANGE.0 as usize
}

/// Whether the type of a number is an object: of the objects and leaves one that is no built-in
/// leaf.
fn is_object(known: &Known, number: usize) -> bool
    ensures { result ≡ is_object (facts known.now) number }
{
    match known.index.members.objects.get(number) {
        Some(object) => *object && !is_leaf_number(number),
        None => false,
    }
}

/// What a name stands for that is no variable at the top.
fn but_for_variables<'a>(known: &Known<'a>, name: NameId) -> Result<Standing<'a>, Memory>
    ensures { IfOk result (λ it. standing_of it
        ≡ standing_single (facts known.now) name (single (facts known.now) name)) }
{
    if is_function(known, name) {
        return Ok(Standing::Functions);
    }
    let number = type_number(known, spelled(known, name));
    if !is_object(known, number) {
        return Ok(Standing::Nothing);
    }
    if number > u32::MAX as usize {
        return Err(Memory);
    }
    Ok(Standing::Single(TypeId(number as u32)))
}

/// What a name at the top stands for.
fn at_the_top<'a>(known: &Known<'a>, name: NameId) -> Result<Standing<'a>, Memory>
    ensures { IfOk result (λ it. standing_of it
        ≡ standing_top (facts known.now) name (variable (facts known.now) name)) }
{
    let variables = known.index.members.variables.as_slice();
    if let Some(found) = field_in(variables, name) {
        return Ok(Standing::Variable(number_in(variables, name), found));
    }
    but_for_variables(known, name)
}

/// What a name stands for. It answers `Memory` where there are more types than numbers.
#[tactic(auto, unfolding(crate::specs::Names::standing))]
pub fn stands_for<'a>(
    known: &Known<'a>,
    scope: &'a Scope,
    name: NameId,
) -> Result<Standing<'a>, Memory>
    ensures { IfOk result (λ it. standing_of it ≡ standing (facts known.now) scope.now name) }
{
    if let Some(found) = binding(scope, name) {
        return Ok(Standing::Bound(found));
    }
    if let Some(ty) = known.owner {
        if let Some(field) = field_of(known, ty, name) {
            return Ok(Standing::Own(ty, field));
        }
    }
    at_the_top(known, name)
}

/// Whether some type is spelled so.
#[tactic(auto, unfolding(fort_types_builtin::specs::Types::any_spelling))]
fn is_type(index: &Index, spelling: &[u8]) -> bool
    ensures { result ≡ is_type index.now.types.now spelling.now }
{
    index.type_named(spelling).is_some() || ANY == spelling
}

/// Whether the component declares one of the declarations.
fn any_declared(members: &[Member]) -> bool
    ensures { result ≡ any_declared members.now }
{
    for member in members {
        if member.place.is_some() {
            return true;
        }
    }
    false
}

/// Whether a set of functions of this name can be seen: the built-in operator of juxtaposition
/// can't.
fn shows(spelling: &[u8], set: &MemberSet) -> bool
    ensures { result ≡ shows spelling.now set.now }
{
    has_name(spelling, false, set)
        && (b"juxtaposition".as_slice() != spelling || any_declared(set.members.as_slice()))
}

/// Whether some set of functions of this name can be seen.
fn any_shown(index: &Index, spelling: &[u8]) -> bool
    ensures { result ≡ any_set (shows spelling.now) index.now.members.now.sets }
{
    let sets = index.members.sets.as_slice();
    let mut next = index.set_named(spelling);
    while let Some(number) = next {
        if shows(spelling, &sets[number]) {
            return true;
        }
        next = index.set_behind(number);
    }
    false
}

/// Whether a name is visible, so that it can't be bound.
#[tactic(auto, unfolding(crate::specs::Names::is_visible))]
pub fn is_visible(known: &Known, scope: &Scope, name: NameId) -> bool
    ensures { result ≡ is_visible (facts known.now) scope.now name }
{
    if binding(scope, name).is_some() {
        return true;
    }
    if own_field(known, name).is_some() {
        return true;
    }
    if field_in(known.index.members.variables.as_slice(), name).is_some() {
        return true;
    }
    let spelling = spelled(known, name);
    is_type(known.index, spelling) || any_shown(known.index, spelling)
}
