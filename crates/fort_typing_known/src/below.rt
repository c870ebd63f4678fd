//! Below, by the rows of the declared types, as a truth that is computed from them.
ghost use Rattle.std.specs.Prelude.{◌≡◌, map};
ghost use Rattle.fort_types.specs.Table.{is_set};
ghost use Rattle.fort_types.specs.Relation.{each_below, named_below, relation};
ghost use Rattle.fort_typing_known.specs.Below.{is_below, are_below};
ghost use Rattle.fort_typing_known.specs.Read.{facts};

use crate::known::Known;
use fort_base::{List, Ty, TypeId};

/// Whether the row of `from` has the place `to` set.
fn set(rows: &List<List<bool>>, from: TypeId, to: TypeId) -> bool
    ensures { result ≡ is_set rows.now from.0 to.0 }
{
    match rows.get(from.0 as usize) {
        Some(row) => match row.get(to.0 as usize) {
            Some(place) => *place,
            None => false,
        },
        None => false,
    }
}

fn named(rows: &List<List<bool>>, up: bool, a: TypeId, b: TypeId) -> bool
    ensures { result ≡ named_below rows.now up a.0 b.0 }
{
    if up { set(rows, a, b) } else { set(rows, b, a) }
}

/// Whether the first type is below the second or, where not `up`, the second below the first.
#[cycle(related)]
fn related(rows: &List<List<bool>>, up: bool, a: &Ty, b: &Ty) -> bool
    ensures { result ≡ relation rows.now a.now up b.now }
{
    match (up, b) {
        (true, Ty::Any) => return true,
        (false, Ty::Nothing) => return true,
        _ => {}
    }
    match (a, b) {
        (Ty::Nothing, _) => up,
        (Ty::Any, _) => !up,
        (Ty::Named(x), Ty::Named(y)) => named(rows, up, *x, *y),
        (Ty::Tuple(xs), Ty::Tuple(ys)) => all_related(rows, up, xs, ys),
        (Ty::Arrow(p, q), Ty::Arrow(r, s)) => {
            related(rows, !up, p.get(), r.get()) && related(rows, up, q.get(), s.get())
        }
        (Ty::Array(p), Ty::Array(q)) => {
            related(rows, up, p.get(), q.get()) && related(rows, !up, p.get(), q.get())
        }
        _ => false,
    }
}

#[cycle(related)]
fn all_related(rows: &List<List<bool>>, up: bool, xs: &List<Ty>, ys: &List<Ty>) -> bool
    ensures { result ≡ each_below (map (relation rows.now) xs.now) up ys.now }
{
    let left = xs.as_slice();
    let right = ys.as_slice();
    if left.len() != right.len() {
        return false;
    }
    for i in 0..left.len() {
        if !related(rows, up, &left[i], &right[i]) {
            return false;
        }
    }
    true
}

/// Whether the first type is below the second.
#[tactic(auto, unfolding(crate::specs::Below::is_below))]
pub fn is_below(known: &Known, a: &Ty, b: &Ty) -> bool
    ensures { result ≡ is_below (facts known.now) a.now b.now }
{
    related(&known.table.below, true, a, b)
}

/// Whether types are below others, place by place.
#[tactic(auto, unfolding(crate::specs::Below::are_below))]
pub fn are_below(known: &Known, a: &List<Ty>, b: &List<Ty>) -> bool
    ensures { result ≡ are_below (facts known.now) a.now b.now }
{
    all_related(&known.table.below, true, a, b)
}
