//! Arrows neither of which is below the other, however deep in tuples they stand.
ghost use Rattle.std.specs.Prelude.{◌≡◌, ◌↔◌, IsTrue, List as Seq, length};
ghost use Rattle.fort_types.specs.declared.hierarchy.DeclaredType.{DeclaredType};
ghost use Rattle.fort_types.specs.Types.{Below};
ghost use Rattle.fort_types.specs.Table.{HasRows};
ghost use Rattle.fort_over_pair.specs.Clashes.{ClashLayer, PartsClash};
ghost use Rattle.fort_base.specs.declared.ty.Ty.{out-Ty};

use fort_base::{List, Ty, TypeTable};
use fort_types::below;

/// Whether two lists are of one length and have clashing arrows in one place, or in tuples in one
/// place.
pub fn arrows_clash(table: &TypeTable, left: &List<Ty>, right: &List<Ty>) -> bool
    ensures { (h : Seq DeclaredType) → HasRows h table.now → IsTrue result
        ↔ PartsClash h left.now right.now }
{
    parts_clash(table, left.as_slice(), right.as_slice())
}

#[cycle(clash)]
fn parts_clash(table: &TypeTable, left: &[Ty], right: &[Ty]) -> bool
    ensures { (h : Seq DeclaredType) → HasRows h table.now → IsTrue result
        ↔ PartsClash h left.now right.now }
{
    if left.len() != right.len() {
        return false;
    }
    for i in 0..left.len() {
        if layer_clash(table, &left[i], &right[i]) {
            return true;
        }
    }
    false
}

#[cycle(clash)]
fn layer_clash(table: &TypeTable, a: &Ty, b: &Ty) -> bool
    ensures { (h : Seq DeclaredType) → HasRows h table.now → IsTrue result
        ↔ ClashLayer h (out-Ty a.now) (out-Ty b.now) }
{
    match (a, b) {
        (Ty::Tuple(xs), Ty::Tuple(ys)) => parts_clash(table, xs.as_slice(), ys.as_slice()),
        (Ty::Arrow(_, _), Ty::Arrow(_, _)) => unordered(table, a, b),
        _ => false,
    }
}

/// Whether neither of two types is below the other.
fn unordered(table: &TypeTable, a: &Ty, b: &Ty) -> bool
    ensures { (h : Seq DeclaredType) → HasRows h table.now → IsTrue result
        ↔ ((Below h a.now b.now → ⊥) × (Below h b.now a.now → ⊥)) }
{
    !below(table, a, b) && !below(table, b, a)
}
