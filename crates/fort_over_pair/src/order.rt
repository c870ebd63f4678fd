//! Two lists of types, place by place, by the rows of the declared types.
ghost use Rattle.std.specs.Prelude.{◌≡◌, ◌↔◌, IsTrue, List as Seq, length};
ghost use Rattle.fort_types.specs.declared.hierarchy.DeclaredType.{DeclaredType};
ghost use Rattle.fort_types.specs.Types.{Apart, Below};
ghost use Rattle.fort_types.specs.Table.{HasRows};
ghost use Rattle.fort_types_sets.specs.Applicable.{Along, Somewhere};
ghost use Rattle.fort_types_sets.specs.Pairs.{AreStrangers};
ghost use Rattle.fort_over_pair.specs.Commons.{CommonLayer, HasBoth, HasCommon};
ghost use Rattle.fort_base.specs.declared.ty.Ty.{out-Ty};

use fort_base::{List, Ty, TypeId, TypeTable};
use fort_types::{apart, below, set_at};

/// Whether two lists have the same types in the same places.
pub fn are_same(left: &List<Ty>, right: &List<Ty>) -> bool
    ensures { IsTrue result ↔ (left.now ≡ right.now) }
{
    same_types(left.as_slice(), right.as_slice())
}

/// Whether two lists are of one length, and each type of the first is below the one in its place of
/// the second.
pub fn are_below(table: &TypeTable, left: &List<Ty>, right: &List<Ty>) -> bool
    ensures { (h : Seq DeclaredType) → HasRows h table.now → IsTrue result
        ↔ Along (Below h) left.now right.now }
{
    all_below(table, left.as_slice(), right.as_slice())
}

/// Whether two lists of one length have types in one place that are apart.
pub fn are_apart(table: &TypeTable, left: &List<Ty>, right: &List<Ty>) -> bool
    requires alike { length left.now ≡ length right.now }
    ensures { (h : Seq DeclaredType) → HasRows h table.now → IsTrue result
        ↔ Somewhere (Apart h) left.now right.now }
{
    apart_somewhere(table, left.as_slice(), right.as_slice())
}

/// Whether the first types of two lists aren't both declared types with some declared type below
/// both.
pub fn are_strangers(table: &TypeTable, left: &List<Ty>, right: &List<Ty>) -> bool
    ensures { (h : Seq DeclaredType) → HasRows h table.now → IsTrue result
        ↔ AreStrangers h left.now right.now }
{
    strangers(table, left.as_slice(), right.as_slice())
}

fn same_types(left: &[Ty], right: &[Ty]) -> bool
    ensures { IsTrue result ↔ (left.now ≡ right.now) }
{
    if left.len() != right.len() {
        return false;
    }
    for i in 0..left.len() {
        if !left[i].same(&right[i]) {
            return false;
        }
    }
    true
}

/// Whether two slices are of one length, and each type of the first is below the one in its place
/// of the second.
pub fn all_below(table: &TypeTable, left: &[Ty], right: &[Ty]) -> bool
    ensures { (h : Seq DeclaredType) → HasRows h table.now → IsTrue result
        ↔ Along (Below h) left.now right.now }
{
    if left.len() != right.len() {
        return false;
    }
    for i in 0..left.len() {
        if !below(table, &left[i], &right[i]) {
            return false;
        }
    }
    true
}

fn apart_somewhere(table: &TypeTable, left: &[Ty], right: &[Ty]) -> bool
    requires alike { length left.now ≡ length right.now }
    ensures { (h : Seq DeclaredType) → HasRows h table.now → IsTrue result
        ↔ Somewhere (Apart h) left.now right.now }
{
    for i in 0..left.len() {
        if apart(table, &left[i], &right[i]) {
            return true;
        }
    }
    false
}

fn strangers(table: &TypeTable, left: &[Ty], right: &[Ty]) -> bool
    ensures { (h : Seq DeclaredType) → HasRows h table.now → IsTrue result
        ↔ AreStrangers h left.now right.now }
{
    match (left.first(), right.first()) {
        (Some(a), Some(b)) => !layer_common(table, a, b),
        _ => true,
    }
}

/// Whether two types are declared types with some declared type below both.
fn layer_common(table: &TypeTable, a: &Ty, b: &Ty) -> bool
    ensures { (h : Seq DeclaredType) → HasRows h table.now → IsTrue result
        ↔ CommonLayer h (out-Ty a.now) (out-Ty b.now) }
{
    match (a, b) {
        (Ty::Named(x), Ty::Named(y)) => some_common(table, *x, *y),
        _ => false,
    }
}

/// Whether some declared type is below both.
fn some_common(table: &TypeTable, a: TypeId, b: TypeId) -> bool
    ensures { (h : Seq DeclaredType) → HasRows h table.now → IsTrue result ↔ HasCommon h a.0 b.0 }
{
    some_both(table.below.as_slice(), a.0 as usize, b.0 as usize)
}

/// Whether some row has both places set.
fn some_both(rows: &[List<bool>], a: usize, b: usize) -> bool
    ensures { IsTrue result ↔ HasBoth rows.now a b }
{
    for m in 0..rows.len() {
        if set_at(rows, m, a) && set_at(rows, m, b) {
            return true;
        }
    }
    false
}
