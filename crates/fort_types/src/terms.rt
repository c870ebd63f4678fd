//! Below and apart of type terms, by the rows of the declared types.
ghost use Rattle.std.specs.Prelude.{◌≡◌, ◌↔◌, IsTrue, List as Seq};
ghost use Rattle.fort_types.specs.declared.hierarchy.DeclaredType.{DeclaredType};
ghost use Rattle.fort_types.specs.Hierarchy.{DeclaredApart};
ghost use Rattle.fort_types.specs.Types.{Apart, Below};
ghost use Rattle.fort_types.specs.Layers.{ApartLayer, Differ, Sided};
ghost use Rattle.fort_types.specs.Table.{HasRows};
ghost use Rattle.fort_base.specs.declared.ty.Ty.{out-Ty};
ghost use Rattle.fort_base.specs.declared.ty.Ty.TheOpen.{Ty-F};

use crate::square::set_at;
use fort_base::{List, Ty, TypeId, TypeTable};

/// Whether one type is below another, of whatever hierarchy the table has the rows; it takes no
/// memory.
pub fn below(table: &TypeTable, a: &Ty, b: &Ty) -> bool
    ensures { (h : Seq DeclaredType) → HasRows h table.now → IsTrue result ↔ Below h a.now b.now }
{
    layer_below(table, true, a, b)
}

/// Whether two types are apart, of whatever hierarchy the table has the rows; it takes no memory.
pub fn apart(table: &TypeTable, a: &Ty, b: &Ty) -> bool
    ensures { (h : Seq DeclaredType) → HasRows h table.now → IsTrue result ↔ Apart h a.now b.now }
{
    layer_apart(table, a, b)
}

/// Whether the first type is below the second or, the other way round, the second below the first.
#[cycle(below)]
fn layer_below(table: &TypeTable, up: bool, a: &Ty, b: &Ty) -> bool
    ensures { (h : Seq DeclaredType) → HasRows h table.now → IsTrue result
        ↔ Sided h up (out-Ty a.now) (out-Ty b.now) }
{
    match (a, b) {
        (Ty::Nothing, Ty::Nothing) => true,
        (Ty::Any, Ty::Any) => true,
        (Ty::Nothing, _) => up,
        (_, Ty::Any) => up,
        (Ty::Any, _) => !up,
        (_, Ty::Nothing) => !up,
        (Ty::Named(x), Ty::Named(y)) => declared_below(table, up, *x, *y),
        (Ty::Tuple(xs), Ty::Tuple(ys)) => parts_below(table, up, xs, ys),
        (Ty::Arrow(p, q), Ty::Arrow(r, s)) => {
            layer_below(table, !up, p.get(), r.get()) && layer_below(table, up, q.get(), s.get())
        }
        (Ty::Array(x), Ty::Array(y)) => x.get().same(y.get()),
        _ => false,
    }
}

#[cycle(below)]
fn parts_below(table: &TypeTable, up: bool, xs: &List<Ty>, ys: &List<Ty>) -> bool
    ensures { (h : Seq DeclaredType) → HasRows h table.now → IsTrue result
        ↔ Sided h up (Ty-F.Tuple xs.now) (Ty-F.Tuple ys.now) }
{
    let left = xs.as_slice();
    let right = ys.as_slice();
    if left.len() != right.len() {
        return false;
    }
    for i in 0..left.len() {
        if !layer_below(table, up, &left[i], &right[i]) {
            return false;
        }
    }
    true
}

#[cycle(apart)]
fn layer_apart(table: &TypeTable, a: &Ty, b: &Ty) -> bool
    ensures { (h : Seq DeclaredType) → HasRows h table.now → IsTrue result
        ↔ ApartLayer h (out-Ty a.now) (out-Ty b.now) }
{
    match (a, b) {
        (Ty::Any, _) => false,
        (_, Ty::Any) => false,
        (Ty::Named(x), Ty::Named(y)) => declared_apart(table, *x, *y),
        (Ty::Tuple(xs), Ty::Tuple(ys)) => parts_apart(table, xs, ys),
        (Ty::Arrow(_, _), Ty::Arrow(_, _)) => false,
        (Ty::Array(x), Ty::Array(y)) => !x.get().same(y.get()),
        _ => true,
    }
}

#[cycle(apart)]
fn parts_apart(table: &TypeTable, xs: &List<Ty>, ys: &List<Ty>) -> bool
    ensures { (h : Seq DeclaredType) → HasRows h table.now → IsTrue result
        ↔ Differ h xs.now ys.now }
{
    let left = xs.as_slice();
    let right = ys.as_slice();
    if right.len() != left.len() {
        return true;
    }
    for i in 0..left.len() {
        if layer_apart(table, &left[i], &right[i]) {
            return true;
        }
    }
    false
}

/// Whether a declared type is below another, or the other way round; each is below itself, one past
/// the table too.
#[tactic(auto, using(crate::proofs::Arms::told_same, crate::proofs::Arms::told_below, crate::proofs::Arms::told_above))]
fn declared_below(table: &TypeTable, up: bool, a: TypeId, b: TypeId) -> bool
    ensures { (h : Seq DeclaredType) → HasRows h table.now → IsTrue result
        ↔ Sided h up (Ty-F.Named a) (Ty-F.Named b) }
{
    if a == b {
        return true;
    }
    if up {
        set_at(table.below.as_slice(), a.0 as usize, b.0 as usize)
    } else {
        set_at(table.below.as_slice(), b.0 as usize, a.0 as usize)
    }
}

/// Whether two declared types are apart; none past the table is apart from any.
#[tactic(auto, using(crate::proofs::Arms::told_apart))]
fn declared_apart(table: &TypeTable, a: TypeId, b: TypeId) -> bool
    ensures { (h : Seq DeclaredType) → HasRows h table.now → IsTrue result
        ↔ DeclaredApart h a.0 b.0 }
{
    set_at(table.apart.as_slice(), a.0 as usize, b.0 as usize)
}
