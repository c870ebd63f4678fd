//! How many choices of one meet for each place there are, counted without listing them.
ghost use Rattle.std.specs.Prelude.{◌≡◌, ◌≤◌, ◌*◌, ◌^◌, ℕ, IfOk, List as Seq, length};
ghost use Rattle.fort_types.specs.declared.hierarchy.DeclaredType.{DeclaredType};
ghost use Rattle.fort_types.specs.Hierarchy.{Sound};
ghost use Rattle.fort_types.specs.Types.{Below};
ghost use Rattle.fort_types.specs.Table.{HasRows};
ghost use Rattle.fort_over_pair.specs.Choices.{Counts, CountsTo, CountsLayer, Stands};
ghost use Rattle.fort_base.specs.declared.ty.Ty.{out-Ty};
ghost use Rattle.fort_base.specs.declared.ty.Ty.TheOpen.{Ty-F};

use fort_base::{List, Memory, Ty, TypeId, TypeTable};
use fort_meet::meets;
use fort_types::below;
use std::alloc::Global;

/// One more than the most choices that two declarations may have; it stands for each number above
/// that.
pub const TOO_MANY: usize = 4097;

/// A number that stands for that of the choices of one meet for each place of two lists of one
/// length.
pub fn count_all(
    alloc: Global,
    table: &TypeTable,
    left: &List<Ty>,
    right: &List<Ty>,
) -> Result<usize, Memory>
    requires numbered { length table.now.below ≤ 2 ^ 32 }
    requires alike { length left.now ≡ length right.now }
    ensures { IfOk result (λ n. (h : Seq DeclaredType) → Sound h → HasRows h table.now
        → CountsTo h left.now right.now (length left.now) n) }
{
    count_choices(alloc, table, left.as_slice(), right.as_slice())
}

#[cycle(count)]
fn count_choices(
    alloc: Global,
    table: &TypeTable,
    left: &[Ty],
    right: &[Ty],
) -> Result<usize, Memory>
    requires numbered { length table.now.below ≤ 2 ^ 32 }
    requires alike { length left.now ≡ length right.now }
    ensures few { IfOk result (λ n. n ≤ 4097) }
    ensures ok { IfOk result (λ n. (h : Seq DeclaredType) → Sound h → HasRows h table.now
        → CountsTo h left.now right.now (length left.now) n) }
{
    let mut all = 1;
    for i in 0..left.len() {
        all = times(all, count_meets(alloc, table, &left[i], &right[i])?);
    }
    Ok(all)
}

/// The number of meets of two types.
#[cycle(count)]
fn count_meets(alloc: Global, table: &TypeTable, a: &Ty, b: &Ty) -> Result<usize, Memory>
    requires numbered { length table.now.below ≤ 2 ^ 32 }
    ensures few { IfOk result (λ n. n ≤ 4097) }
    ensures ok { IfOk result (λ n. (h : Seq DeclaredType) → Sound h → HasRows h table.now
        → Counts h a.now b.now n) }
{
    if below(table, a, b) {
        return Ok(1);
    }
    if below(table, b, a) {
        return Ok(1);
    }
    layer_count(alloc, table, a, b)
}

/// The number of meets of two types neither of which is below the other.
#[cycle(count)]
fn layer_count(alloc: Global, table: &TypeTable, a: &Ty, b: &Ty) -> Result<usize, Memory>
    requires numbered { length table.now.below ≤ 2 ^ 32 }
    ensures few { IfOk result (λ n. n ≤ 4097) }
    ensures ok { IfOk result (λ n. (h : Seq DeclaredType) → Sound h → HasRows h table.now
        → CountsLayer h (out-Ty a.now) (out-Ty b.now) n) }
{
    match (a, b) {
        (Ty::Named(x), Ty::Named(y)) => count_declared(alloc, table, *x, *y),
        (Ty::Tuple(xs), Ty::Tuple(ys)) => count_parts(alloc, table, xs.as_slice(), ys.as_slice()),
        _ => Ok(0),
    }
}

/// The number of tuples of meets, where the tuples are of one length.
#[cycle(count)]
fn count_parts(alloc: Global, table: &TypeTable, xs: &[Ty], ys: &[Ty]) -> Result<usize, Memory>
    requires numbered { length table.now.below ≤ 2 ^ 32 }
    ensures few { IfOk result (λ n. n ≤ 4097) }
    ensures ok { IfOk result (λ n. (h : Seq DeclaredType) → Sound h → HasRows h table.now
        → CountsLayer h (Ty-F.Tuple xs.now) (Ty-F.Tuple ys.now) n) }
{
    if xs.len() != ys.len() {
        return Ok(0);
    }
    count_choices(alloc, table, xs, ys)
}

/// The number of meets of two declared types.
fn count_declared(alloc: Global, table: &TypeTable, a: TypeId, b: TypeId) -> Result<usize, Memory>
    requires numbered { length table.now.below ≤ 2 ^ 32 }
    ensures few { IfOk result (λ n. n ≤ 4097) }
    ensures ok { IfOk result (λ n. (h : Seq DeclaredType) → Sound h → HasRows h table.now
        → CountsLayer h (Ty-F.Named a) (Ty-F.Named b) n) }
{
    let list = meets(alloc, table, a, b)?;
    Ok(capped(list.len()))
}

/// A number that stands for another one.
fn capped(n: usize) -> usize
    ensures few { result ≤ 4097 }
    ensures ok { Stands result n }
{
    if n < TOO_MANY { n } else { TOO_MANY }
}

/// A number that stands for the product of two.
fn times(n: usize, m: usize) -> usize
    requires first { n ≤ 4097 }
    requires second { m ≤ 4097 }
    ensures few { result ≤ 4097 }
    ensures ok { (a b : ℕ) → Stands n a → Stands m b → Stands result (a * b) }
{
    capped(n * m)
}
