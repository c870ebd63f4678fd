ghost use Rattle.std.specs.Prelude.{◌≡◌};
ghost use Rattle.fort_group.specs.Walks.{equal_senses, has_sense, good_chain, sensible, all_sensible};

use fort_base::List;
use fort_ops::{Op, Sense, sense};
use fort_tree::Grouped;

/// Whether two senses are the same.
fn is_same(a: Sense, b: Sense) -> bool
    ensures { result ≡ equal_senses a b }
{
    match (a, b) {
        (Sense::Equal, Sense::Equal) => true,
        (Sense::Unequal, Sense::Unequal) => true,
        (Sense::Rising, Sense::Rising) => true,
        (Sense::Falling, Sense::Falling) => true,
        (Sense::Other, Sense::Other) => true,
        _ => false,
    }
}

/// Whether one of the operators has a sense.
fn has(ops: &List<Op>, wanted: Sense) -> bool
    ensures { result ≡ has_sense wanted ops.now }
{
    for op in ops.as_slice() {
        if is_same(sense(*op), wanted) {
            return true;
        }
    }
    false
}

/// Whether a chain of these operators is good.
fn is_good(ops: &List<Op>) -> bool
    ensures { result ≡ good_chain ops.now }
{
    if has(ops, Sense::Rising) && has(ops, Sense::Falling) {
        return false;
    }
    !(ops.len() >= 2 && has(ops, Sense::Unequal))
}

/// Whether each chain of a tree is good.
#[cycle(sense)]
pub fn is_sensible(tree: &Grouped) -> bool
    ensures { result ≡ sensible tree.now }
{
    match tree {
        Grouped::Unit(_) => true,
        Grouped::Juxt(_) => true,
        Grouped::Binary(_, left, right) => is_sensible(left.get()) && is_sensible(right.get()),
        Grouped::Chain(ops, parts) => is_good(ops) && are_sensible(parts),
    }
}

/// Whether each chain of each tree is good.
#[cycle(sense)]
fn are_sensible(parts: &List<Grouped>) -> bool
    ensures { result ≡ all_sensible parts.now }
{
    for part in parts.as_slice() {
        if !is_sensible(part) {
            return false;
        }
    }
    true
}
