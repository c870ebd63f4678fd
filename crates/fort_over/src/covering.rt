//! Whether an abstract declaration is covered for an object.
ghost use Rattle.std.specs.Prelude.{◌≡◌, ◌<◌, ◌↔◌, IsTrue, Some, length, slice_get, slice_set, List as Seq};
ghost use Rattle.fort_types.specs.declared.hierarchy.DeclaredType.{DeclaredType};
ghost use Rattle.fort_base.specs.declared.ty.Ty.TheVariants as a_type;
ghost use Rattle.fort_types.specs.Types.{Below};
ghost use Rattle.fort_types.specs.Table.{HasRows};
ghost use Rattle.fort_types_sets.specs.Applicable.{Along};
ghost use Rattle.fort_types_sets.specs.Coverage.{IsCovered};
ghost use Rattle.fort_over.specs.Walks.{Covers, SomeCovers};

use fort_base::{Ty, TypeId, TypeTable};
use fort_types::below;
use fort_types_sets::{Member, MemberKind, MemberSet};

/// Whether a set has a declaration that covers an abstract one for the object in its owner's place;
/// it takes no memory.
pub fn is_covered(
    table: &TypeTable,
    set: &MemberSet,
    asked: &Member,
    at: usize,
    object: TypeId,
) -> bool
    ensures { (h : Seq DeclaredType) → HasRows h table.now → IsTrue result
        ↔ IsCovered h set.now asked.now at object }
{
    let named = Ty::Named(object);
    some_covers(table, set.members.as_slice(), asked, at, &named)
}

/// Whether one of these declarations covers an abstract one for a type in the owner's place.
fn some_covers(
    table: &TypeTable,
    members: &[Member],
    asked: &Member,
    at: usize,
    object: &Ty,
) -> bool
    ensures { (h : Seq DeclaredType) → HasRows h table.now → IsTrue result
        ↔ SomeCovers h members.now asked.now at object.now }
{
    for member in members {
        if covers(table, member, asked, at, object) {
            return true;
        }
    }
    false
}

/// Whether a declaration covers an abstract one for a type in the owner's place.
fn covers(table: &TypeTable, member: &Member, asked: &Member, at: usize, object: &Ty) -> bool
    ensures { (h : Seq DeclaredType) → HasRows h table.now → IsTrue result
        ↔ Covers h member.now asked.now at object.now }
{
    let taken = member.parameters.as_slice();
    let given = asked.parameters.as_slice();
    if member.kind == MemberKind::Abstract {
        return false;
    }
    if !are_below(table, taken, given) {
        return false;
    }
    if !below(table, &member.result, &asked.result) {
        return false;
    }
    fits(table, given, at, object, taken)
}

/// Whether the types of a list are below those of another one, place by place.
fn are_below(table: &TypeTable, left: &[Ty], right: &[Ty]) -> bool
    ensures { (h : Seq DeclaredType) → HasRows h table.now → IsTrue result
        ↔ Along (Below h) left.now right.now }
{
    if left.len() != right.len() {
        return false;
    }
    for k in 0..left.len() {
        if !below(table, &left[k], &right[k]) {
            return false;
        }
    }
    true
}

/// Whether the types of a list, with another one at a position, are below those of a second list.
fn fits(table: &TypeTable, given: &[Ty], at: usize, object: &Ty, taken: &[Ty]) -> bool
    ensures { (h : Seq DeclaredType) → HasRows h table.now → IsTrue result
        ↔ Along (Below h) (slice_set given.now at object.now) taken.now }
{
    if given.len() != taken.len() {
        return false;
    }
    for k in 0..given.len() {
        if !below(table, given_at(given, k, at, object), &taken[k]) {
            return false;
        }
    }
    true
}

/// The type of a list at a place, with another one at a position.
fn given_at<'a>(given: &'a [Ty], k: usize, at: usize, object: &'a Ty) -> &'a Ty
    requires within { k < length given.now }
    ensures { slice_get (slice_set given.now at object.now) k ≡ Some result.now }
{
    if k == at { object } else { &given[k] }
}
