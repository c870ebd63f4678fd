ghost use Rattle.std.specs.Prelude.{◌≡◌, ◌<◌, length};
ghost use Rattle.fort_group.specs.Spacing.{is_gap, mixed_place, first_mixed, loose_joint, loose_before};
ghost use Rattle.fort_group.specs.Walks.{binary_spaced, chain_spaced, spaced, all_spaced};

use fort_base::{Gap, List, Place};
use fort_tree::{Grouped, Joint};

/// What a tree's spacing is: its first unit, whether it is a juxtaposition or has a loose operator
/// at its root, and whether the spacing agrees with the grouping at each of its nodes.
#[derive(Clone, Copy)]
pub struct Spaced {
    pub first: usize,
    pub loose: bool,
    pub good: bool,
}

/// Whether a gap stands there.
fn is_gap(gap: Gap) -> bool
    ensures { result ≡ is_gap gap }
{
    match gap {
        Gap::Empty => false,
        Gap::Space | Gap::Line => true,
    }
}

/// The place of an infix operator with a gap on one side only, or `None` where it is none.
fn mixed_place(joint: &Joint) -> Option<Place>
    ensures { result ≡ mixed_place joint.now }
{
    match joint {
        Joint::Beside => None,
        Joint::Behind(sign, after) => {
            if is_gap(sign.spot.gap) != is_gap(*after) {
                Some(sign.spot.place)
            } else {
                None
            }
        }
    }
}

/// The place of the first operator with a gap on one side only, or `None` where there is none.
pub fn first_mixed(joints: &[Joint]) -> Option<Place>
    ensures { result ≡ first_mixed joints.now }
{
    for joint in joints {
        if let Some(place) = mixed_place(joint) {
            return Some(place);
        }
    }
    None
}

/// Whether the operator of a joint is loose.
fn is_loose(joint: &Joint) -> bool
    ensures { result ≡ loose_joint joint.now }
{
    match joint {
        Joint::Beside => true,
        Joint::Behind(sign, _) => is_gap(sign.spot.gap),
    }
}

/// Whether the operator before a unit is loose.
fn is_loose_before(joints: &[Joint], unit: usize) -> bool
    ensures { result ≡ loose_before joints.now unit }
{
    if unit == 0 {
        return false;
    }
    match joints.get(unit - 1) {
        Some(joint) => is_loose(joint),
        None => false,
    }
}

/// The spacing of a binary node, from its children's.
fn of_binary(joints: &[Joint], left: Spaced, right: Spaced) -> Spaced
    ensures { result ≡ binary_spaced joints.now left right }
{
    let loose = is_loose_before(joints, right.first);
    Spaced {
        first: left.first,
        loose,
        good: left.good && right.good && (loose || !(left.loose || right.loose)),
    }
}

/// The spacing of a tree. An operator's gaps are found by the first unit of the part behind it.
#[cycle(spacing)]
#[tactic(auto, using(crate::proofs::Spaces::chain_law))]
pub fn spacing_of(tree: &Grouped, joints: &[Joint]) -> Spaced
    ensures { result ≡ spaced joints.now tree.now }
{
    match tree {
        Grouped::Unit(unit) => Spaced {
            first: *unit,
            loose: false,
            good: true,
        },
        Grouped::Juxt(units) => match units.get(0) {
            Some(unit) => Spaced {
                first: *unit,
                loose: true,
                good: true,
            },
            None => Spaced {
                first: 0,
                loose: true,
                good: true,
            },
        },
        Grouped::Binary(_, left, right) => of_binary(
            joints,
            spacing_of(left.get(), joints),
            spacing_of(right.get(), joints),
        ),
        Grouped::Chain(_, parts) => of_chain(parts, joints),
    }
}

/// The spacing of a chain.
#[cycle(spacing)]
#[tactic(auto, using(crate::proofs::Spaces::good_last, crate::proofs::Spaces::loose_part_last, crate::proofs::Spaces::loose_last, crate::proofs::Spaces::tight_last))]
fn of_chain(parts: &List<Grouped>, joints: &[Joint]) -> Spaced
    ensures { result ≡ chain_spaced joints.now (all_spaced joints.now parts.now) }
{
    match parts.as_slice().split_first() {
        None => Spaced {
            first: 0,
            loose: false,
            good: true,
        },
        Some((head, rest)) => {
            let first = spacing_of(head, joints);
            let mut good = first.good;
            let mut loose_part = first.loose;
            let mut loose = false;
            let mut tight = false;
            for part in rest {
                let next = spacing_of(part, joints);
                let is_loose = is_loose_before(joints, next.first);
                good = good & next.good;
                loose_part = loose_part | next.loose;
                loose = loose | is_loose;
                tight = tight | !is_loose;
            }
            Spaced {
                first: first.first,
                loose,
                good: good && (!tight || !(loose || loose_part)),
            }
        }
    }
}
