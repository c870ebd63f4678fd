//! Walks over the lists of a head.
ghost use Rattle.std.specs.Prelude.{◌≡◌, ◌↔◌, IsTrue};
ghost use Rattle.fort_hier.specs.Walks.{SomeSet, SomeUnset, SomeLeaf, SomeUnlisted, SomeExcluding, LeafAt, UnlistedAt, ExcludesAbove};

use fort_base::List;
use fort_types::{DeclaredType, set_at};

/// Whether some row of a list has a place set.
pub fn any_set(rows: &[List<bool>], list: &[usize], a: usize) -> bool
    ensures { IsTrue result ↔ SomeSet rows.now list.now a }
{
    for b in list {
        if set_at(rows, *b, a) {
            return true;
        }
    }
    false
}

/// Whether some row of a list has a place not set.
pub fn any_not_set(rows: &[List<bool>], list: &[usize], a: usize) -> bool
    ensures { IsTrue result ↔ SomeUnset rows.now list.now a }
{
    for b in list {
        if !set_at(rows, *b, a) {
            return true;
        }
    }
    false
}

/// Whether some number of a list is that of an object or a leaf.
pub fn any_leaf(types: &[DeclaredType], list: &[usize]) -> bool
    ensures { IsTrue result ↔ SomeLeaf types.now list.now }
{
    for b in list {
        if is_leaf(types, *b) {
            return true;
        }
    }
    false
}

/// Whether a number is that of an object or a leaf.
fn is_leaf(types: &[DeclaredType], b: usize) -> bool
    ensures { IsTrue result ↔ LeafAt types.now b }
{
    match types.get(b) {
        Some(declared) => !declared.kind.is_trait(),
        None => false,
    }
}

/// Whether some number of a list is that of a type with a list that hasn't a number.
pub fn any_unlisted(types: &[DeclaredType], list: &[usize], a: usize) -> bool
    ensures { IsTrue result ↔ SomeUnlisted types.now list.now a }
{
    for b in list {
        if is_unlisted(types, *b, a) {
            return true;
        }
    }
    false
}

/// Whether a number is that of a type with a list that hasn't another number.
fn is_unlisted(types: &[DeclaredType], b: usize, a: usize) -> bool
    ensures { IsTrue result ↔ UnlistedAt types.now b a }
{
    match types.get(b) {
        Some(declared) => {
            !declared.comprises.is_empty() && !declared.comprises.as_slice().contains(&a)
        }
        None => false,
    }
}

/// Whether a row has the place of a type set that excludes another whose place is set, or `Any`.
pub fn any_excluding(types: &[DeclaredType], rows: &[List<bool>], a: usize) -> bool
    ensures { IsTrue result ↔ SomeExcluding types.now rows.now a }
{
    for (t, declared) in types.iter().enumerate() {
        if set_at(rows, a, t)
            && excludes_above(rows, declared.excludes.as_slice(), a, types.len())
        {
            return true;
        }
    }
    false
}

/// Whether some number of a list has its place set in a row, or is that of `Any`.
fn excludes_above(rows: &[List<bool>], list: &[usize], a: usize, any: usize) -> bool
    ensures { IsTrue result ↔ ExcludesAbove rows.now list.now a any }
{
    for n in list {
        if *n == any || set_at(rows, a, *n) {
            return true;
        }
    }
    false
}
