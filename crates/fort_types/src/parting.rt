//! One use of the rules of apart, on the bits so far.
ghost use Rattle.std.specs.Prelude.{◌≡◌, ◌<◌, ◌↔◌, IsTrue, length};
ghost use Rattle.fort_types.specs.Hierarchy.{Path};
ghost use Rattle.fort_types.specs.Table.{IsExact};
ghost use Rattle.fort_types.specs.Square.{Sized};
ghost use Rattle.fort_types.specs.Rounds.{Parts, ListApart, LeafApart, Excluding};

use crate::hierarchy::DeclaredType;
use crate::square::{Square, set_at};
use fort_base::List;

/// Whether some rule makes two types apart, where those are apart whose bits are set.
#[tactic(auto, using(crate::proofs::Pairs::turn_found, crate::proofs::Pairs::exclusion_found, crate::proofs::Pairs::leaf_found, crate::proofs::Pairs::any_found, crate::proofs::Pairs::list_found))]
pub fn parted(
    types: &[DeclaredType],
    below: &List<List<bool>>,
    rows: &Square,
    a: usize,
    b: usize,
) -> bool
    requires below { IsExact (Path types.now) (length types.now) below.now }
    requires sized { Sized (length types.now) rows.now }
    requires row { a < length types.now }
    requires column { b < length types.now }
    ensures { IsTrue result ↔ Parts types.now rows.now a b }
{
    let declared = &types[a];
    if rows.at(b, a) {
        return true;
    }
    if excluding(types, declared, b) {
        return true;
    }
    if leaf_apart(types, below, declared, a, b) {
        return true;
    }
    if rows.any(declared.extends.as_slice(), b) {
        return true;
    }
    list_apart(rows, declared, b)
}

/// Whether a trait excludes a trait.
fn excluding(types: &[DeclaredType], declared: &DeclaredType, b: usize) -> bool
    ensures { IsTrue result ↔ Excluding types.now declared.now b }
{
    match types.get(b) {
        Some(other) => declared.kind.is_trait()
            && other.kind.is_trait()
            && declared.excludes.as_slice().contains(&b),
        None => false,
    }
}

/// Whether an object or leaf and another type have neither below the other.
fn leaf_apart(
    types: &[DeclaredType],
    below: &List<List<bool>>,
    declared: &DeclaredType,
    a: usize,
    b: usize,
) -> bool
    requires below { IsExact (Path types.now) (length types.now) below.now }
    requires row { a < length types.now }
    requires column { b < length types.now }
    ensures { IsTrue result ↔ LeafApart types.now declared.now a b }
{
    !declared.kind.is_trait() && !set_at(below.as_slice(), a, b) && !set_at(below.as_slice(), b, a)
}

/// Whether a trait has a list, and each type in it has its bit set.
fn list_apart(rows: &Square, declared: &DeclaredType, b: usize) -> bool
    ensures { IsTrue result ↔ ListApart declared.now rows.now b }
{
    declared.kind.is_trait()
        && !declared.comprises.is_empty()
        && rows.all(declared.comprises.as_slice(), b)
}
