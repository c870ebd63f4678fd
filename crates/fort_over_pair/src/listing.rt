//! The choices of one meet for each place, listed.
ghost use Rattle.std.specs.Prelude.{◌≡◌, ◌≤◌, ◌^◌, ◌∷◌, ◌++◌, ◌↔◌, [], IfOk, OnOk, OnErr, List as Seq, length, map};
ghost use Rattle.std.specs.List.{flat_map};
ghost use Rattle.fort_types.specs.declared.hierarchy.DeclaredType.{DeclaredType};
ghost use Rattle.fort_types.specs.Hierarchy.{Sound};
ghost use Rattle.fort_types.specs.Types.{Below};
ghost use Rattle.fort_types.specs.Table.{HasRows};
ghost use Rattle.fort_types_sets.specs.Meets.{Meet, IsChoice};
ghost use Rattle.fort_over_pair.specs.Choices.{HasAll, HaveAll, ListsLayer, products};
ghost use Rattle.fort_base.specs.declared.ty.Ty.{out-Ty};
ghost use Rattle.fort_base.specs.declared.ty.Ty.TheVariants as a_type;
ghost use Rattle.fort_base.specs.declared.ty.Ty.TheOpen.{Ty-F};

use fort_base::{List, Memory, Ty, TypeId, TypeTable};
use fort_meet::meets;
use fort_types::below;
use std::alloc::Global;

/// All choices of one meet for each place of two lists of one length.
pub fn list_all(
    alloc: Global,
    table: &TypeTable,
    left: &List<Ty>,
    right: &List<Ty>,
) -> Result<List<List<Ty>>, Memory>
    requires numbered { length table.now.below ≤ 2 ^ 32 }
    requires alike { length left.now ≡ length right.now }
    ensures { IfOk result (λ all. (h : Seq DeclaredType) → Sound h → HasRows h table.now
        → HasAll (IsChoice h left.now right.now) all) }
{
    list_choices(alloc, table, left.as_slice(), right.as_slice())
}

#[cycle(list)]
fn list_choices(
    alloc: Global,
    table: &TypeTable,
    left: &[Ty],
    right: &[Ty],
) -> Result<List<List<Ty>>, Memory>
    requires numbered { length table.now.below ≤ 2 ^ 32 }
    requires alike { length left.now ≡ length right.now }
    ensures { IfOk result (λ all. (h : Seq DeclaredType) → Sound h → HasRows h table.now
        → HasAll (IsChoice h left.now right.now) all) }
{
    let lists = list_each(alloc, table, left, right)?;
    all_ways(alloc, lists.as_slice())
}

/// For each place of two lists of one length the list of its meets.
#[cycle(list)]
fn list_each(
    alloc: Global,
    table: &TypeTable,
    left: &[Ty],
    right: &[Ty],
) -> Result<List<List<Ty>>, Memory>
    requires numbered { length table.now.below ≤ 2 ^ 32 }
    requires alike { length left.now ≡ length right.now }
    ensures { IfOk result (λ lists. (h : Seq DeclaredType) → Sound h → HasRows h table.now
        → HaveAll h left.now right.now lists (length left.now)) }
{
    let mut lists = List::new(alloc);
    for i in 0..left.len() {
        lists.push(list_meets(alloc, table, &left[i], &right[i])?)?;
    }
    Ok(lists)
}

/// The meets of two types.
#[cycle(list)]
fn list_meets(alloc: Global, table: &TypeTable, a: &Ty, b: &Ty) -> Result<List<Ty>, Memory>
    requires numbered { length table.now.below ≤ 2 ^ 32 }
    ensures { IfOk result (λ list. (h : Seq DeclaredType) → Sound h → HasRows h table.now
        → HasAll (Meet h a.now b.now) list) }
{
    if below(table, a, b) {
        return only(alloc, a);
    }
    if below(table, b, a) {
        return only(alloc, b);
    }
    layer_list(alloc, table, a, b)
}

/// The meets of two types neither of which is below the other.
#[cycle(list)]
fn layer_list(alloc: Global, table: &TypeTable, a: &Ty, b: &Ty) -> Result<List<Ty>, Memory>
    requires numbered { length table.now.below ≤ 2 ^ 32 }
    ensures { IfOk result (λ list. (h : Seq DeclaredType) → Sound h → HasRows h table.now
        → ListsLayer h (out-Ty a.now) (out-Ty b.now) list) }
{
    match (a, b) {
        (Ty::Named(x), Ty::Named(y)) => list_declared(alloc, table, *x, *y),
        (Ty::Tuple(xs), Ty::Tuple(ys)) => list_parts(alloc, table, xs.as_slice(), ys.as_slice()),
        _ => Ok(List::new(alloc)),
    }
}

/// The tuples of meets, where the tuples are of one length.
#[cycle(list)]
fn list_parts(alloc: Global, table: &TypeTable, xs: &[Ty], ys: &[Ty]) -> Result<List<Ty>, Memory>
    requires numbered { length table.now.below ≤ 2 ^ 32 }
    ensures { IfOk result (λ list. (h : Seq DeclaredType) → Sound h → HasRows h table.now
        → ListsLayer h (Ty-F.Tuple xs.now) (Ty-F.Tuple ys.now) list) }
{
    if xs.len() != ys.len() {
        return Ok(List::new(alloc));
    }
    let choices = list_choices(alloc, table, xs, ys)?;
    tuples(alloc, choices.as_slice())
}

/// The meets of two declared types, as types.
fn list_declared(alloc: Global, table: &TypeTable, a: TypeId, b: TypeId) -> Result<List<Ty>, Memory>
    requires numbered { length table.now.below ≤ 2 ^ 32 }
    ensures { IfOk result (λ list. (h : Seq DeclaredType) → Sound h → HasRows h table.now
        → ListsLayer h (Ty-F.Named a) (Ty-F.Named b) list) }
{
    let ids = meets(alloc, table, a, b)?;
    named(alloc, ids.as_slice())
}

/// The declared types of a list of numbers.
fn named(alloc: Global, ids: &[TypeId]) -> Result<List<Ty>, Memory>
    ensures { IfOk result (λ list. list ≡ map a_type.Named ids.now) }
{
    let mut list = List::new(alloc);
    for id in ids {
        list.push(Ty::Named(*id))?;
    }
    Ok(list)
}

/// The tuples of lists of parts.
fn tuples(alloc: Global, rows: &[List<Ty>]) -> Result<List<Ty>, Memory>
    ensures { IfOk result (λ list. list ≡ map a_type.Tuple rows.now) }
{
    let mut list = List::new(alloc);
    for row in rows {
        list.push(Ty::Tuple(copied(alloc, row)?))?;
    }
    Ok(list)
}

/// The list of one type.
fn only(alloc: Global, ty: &Ty) -> Result<List<Ty>, Memory>
    ensures { IfOk result (λ list. list ≡ ty.now ∷ []) }
{
    let mut list = List::new(alloc);
    list.push(ty.copy(alloc)?)?;
    Ok(list)
}

/// An equal list of types.
fn copied(alloc: Global, types: &List<Ty>) -> Result<List<Ty>, Memory>
    ensures { IfOk result (λ list. list ≡ types.now) }
{
    let mut list = List::new(alloc);
    for ty in types.as_slice() {
        list.push(ty.copy(alloc)?)?;
    }
    Ok(list)
}

/// All ways to take one of each list, in order.
fn all_ways(alloc: Global, lists: &[List<Ty>]) -> Result<List<List<Ty>>, Memory>
    ensures { IfOk result (λ all. all ≡ products lists.now) }
{
    match lists.split_first() {
        None => one_way(alloc),
        Some((first, others)) => {
            let rests = all_ways(alloc, others)?;
            begun(alloc, first.as_slice(), rests.as_slice())
        }
    }
}

/// The one way to take nothing.
fn one_way(alloc: Global) -> Result<List<List<Ty>>, Memory>
    ensures { IfOk result (λ all. all ≡ [] ∷ []) }
{
    let mut all = List::new(alloc);
    all.push(List::new(alloc))?;
    Ok(all)
}

/// The ways that begin with one of a list.
fn begun(alloc: Global, firsts: &[Ty], rests: &[List<Ty>]) -> Result<List<List<Ty>>, Memory>
    ensures { IfOk result (λ all. all
        ≡ flat_map (λ m. map (λ (rest : Seq Ty). m ∷ rest) rests.now) firsts.now) }
{
    let mut all = List::new(alloc);
    for first in firsts {
        push_ways(alloc, &mut all, first, rests)?;
    }
    Ok(all)
}

/// Puts the ways that begin with a type at the end.
fn push_ways(
    alloc: Global,
    all: &mut List<List<Ty>>,
    first: &Ty,
    rests: &[List<Ty>],
) -> Result<(), Memory>
    ensures { OnOk result (all.new ≡ all.old ++ map (λ
        (rest : Seq Ty). first.now ∷ rest) rests.now) }
{
    for rest in rests {
        all.push(headed(alloc, first, rest)?)?;
    }
    Ok(())
}

/// A type and behind it those of a list.
fn headed(alloc: Global, first: &Ty, rest: &List<Ty>) -> Result<List<Ty>, Memory>
    ensures { IfOk result (λ list. list ≡ first.now ∷ rest.now) }
{
    let mut list = only(alloc, first)?;
    list.append(copied(alloc, rest)?)?;
    Ok(list)
}
