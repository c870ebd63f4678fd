//! The earliest object that an abstract declaration isn't covered for.
ghost use Rattle.std.specs.Prelude.{◌≡◌, ◌<◌, ◌≤◌, ◌^◌, None, false, length, get_or};
ghost use Rattle.fort_over.specs.Standing.{standing as place_of};
ghost use Rattle.fort_over.specs.Walks.{IsObjectOf, ObjectsFirst, DeclarationFirst, SetFirst, SetsFirst};

use crate::covering::is_covered;
use crate::places::standing;
use fort_base::{Place, TypeId, TypeTable, earlier, earlier_of};
use fort_types::set_at;
use fort_types_sets::{Member, MemberKind, MemberSet, Members};

/// The earliest place of an object for which an abstract declaration of a set isn't covered; it
/// takes no memory.
pub fn first_uncovered(table: &TypeTable, members: &Members) -> Option<Place>
    requires numbered { length table.now.below ≤ 2 ^ 32 }
    ensures { SetsFirst table.now members.now (length members.now.sets) result }
{
    let mut best = None;
    for set in members.sets.as_slice() {
        best = earlier_of(best, first_of_set(table, members, set));
    }
    best
}

/// The earliest one of the declarations of a set.
fn first_of_set(table: &TypeTable, members: &Members, set: &MemberSet) -> Option<Place>
    requires numbered { length table.now.below ≤ 2 ^ 32 }
    ensures { SetFirst table.now members.now set.now (length set.now.members) result }
{
    let mut best = None;
    for member in set.members.as_slice() {
        best = earlier_of(best, first_of(table, members, set, member));
    }
    best
}

/// The earliest one of a declaration; only an abstract one asks anything.
fn first_of(table: &TypeTable, members: &Members, set: &MemberSet, member: &Member) -> Option<Place>
    requires numbered { length table.now.below ≤ 2 ^ 32 }
    ensures { DeclarationFirst table.now members.now set.now member.now result }
{
    if member.kind != MemberKind::Abstract {
        return None;
    }
    match member.owner {
        Some((at, owner)) => first_below(table, members, set, member, at as usize, owner),
        None => None,
    }
}

/// The earliest object below an owner for which a declaration isn't covered.
fn first_below(
    table: &TypeTable,
    members: &Members,
    set: &MemberSet,
    member: &Member,
    at: usize,
    owner: TypeId,
) -> Option<Place>
    requires numbered { length table.now.below ≤ 2 ^ 32 }
    ensures { ObjectsFirst table.now members.now set.now member.now at owner
        (length table.now.below) result }
{
    let mut best = None;
    for number in 0..table.below.len() {
        let object = TypeId(number as u32);
        if !is_object_below(table, members, object, owner) {
            continue;
        }
        if is_covered(table, set, member, at, object) {
            continue;
        }
        best = earlier(best, object_place(members, object));
    }
    best
}

/// Whether a type is an object or a leaf below another.
fn is_object_below(table: &TypeTable, members: &Members, object: TypeId, owner: TypeId) -> bool
    requires within { object.0 < length table.now.below }
    ensures { IsObjectOf table.now members.now object owner result }
{
    if !is_object(members, object) {
        return false;
    }
    set_at(table.below.as_slice(), object.0 as usize, owner.0 as usize)
}

/// Whether a type is an object or a leaf; none is past the list.
fn is_object(members: &Members, ty: TypeId) -> bool
    ensures { result ≡ get_or members.now.objects ty.0 false }
{
    match members.objects.get(ty.0 as usize) {
        Some(held) => *held,
        None => false,
    }
}

/// Where the name of a type stands; none past the list has a place.
fn object_place(members: &Members, ty: TypeId) -> Place
    ensures { result ≡ place_of (get_or members.now.places ty.0 None) }
{
    match members.places.get(ty.0 as usize) {
        Some(held) => standing(*held),
        None => standing(None),
    }
}
