//! Groupings by the places of their flat expressions.
ghost use Rattle.std.specs.Prelude.{◌≡◌, ◌<◌, suc, length, slice_get, Some, IsTrue};
ghost use Rattle.fort_base.specs.Places.{is_before};
ghost use Rattle.std.specs.Option.{option_copied};
ghost use Rattle.fort_form_walk.specs.Groupings.{InOrder, grouping_at};

use fort_base::Place;
use fort_tree::{FlatGrouping, Grouped};

/// The groupings of flat expressions, and whether they stand in the order of their places, as
/// those of a component do.
#[derive(Drop)]
pub struct GroupsByPlace<'a> {
    pub list: &'a [FlatGrouping],
    pub in_order: bool,
    // Where they do, a grouping is found by halves.
    ghost ordered: { IsTrue in_order → InOrder list.now },
}

impl<'a> GroupsByPlace<'a> {
    ghost use Rattle.std.specs.Prelude.{◌≡◌};
    ghost use Rattle.std.specs.Option.{option_copied};
    ghost use Rattle.fort_form_walk.specs.Groupings.{grouping_at};

    /// These groupings.
    pub fn new(list: &'a [FlatGrouping]) -> GroupsByPlace<'a>
        ensures { result.list.now ≡ list.now }
    {
        GroupsByPlace {
            list,
            in_order: in_order(list),
        }
    }

    /// The grouping of the flat expression that begins at a place, or `None` where none does.
    pub fn at(&self, place: Place) -> Option<&'a Grouped>
        ensures { option_copied result ≡ grouping_at self.now.list.now place }
    {
        if self.in_order {
            return by_halves(self.list, place);
        }
        first_at(self.list, place)
    }
}

/// Whether groupings stand in the order of their places.
fn in_order(groups: &[FlatGrouping]) -> bool
    ensures { IsTrue result → InOrder groups.now }
{
    for at in 0..groups.len() {
        if !goes_before(groups, at) {
            return false;
        }
    }
    true
}

/// Whether a grouping stands before the next one, where there is one.
fn goes_before(groups: &[FlatGrouping], at: usize) -> bool
    requires { at < length groups.now }
    ensures { IsTrue result → (g : _) (next : _) → slice_get groups.now at ≡ Some g
        → slice_get groups.now (suc at) ≡ Some next → IsTrue (is_before g.place next.place) }
{
    match groups.get(at) {
        Some(group) => is_behind(groups, at + 1, group.place),
        None => true,
    }
}

/// Whether the grouping of a number, where there is one, stands behind a place.
fn is_behind(groups: &[FlatGrouping], at: usize, place: Place) -> bool
    ensures { IsTrue result → (next : _) → slice_get groups.now at ≡ Some next
        → IsTrue (is_before place next.place) }
{
    match groups.get(at) {
        Some(next) => place.is_before(next.place),
        None => true,
    }
}

/// The grouping at a place, of groupings in the order of their places.
fn by_halves(groups: &[FlatGrouping], place: Place) -> Option<&Grouped>
    requires { InOrder groups.now }
    ensures { option_copied result ≡ grouping_at groups.now place }
{
    let near = groups.partition_point(|group: &FlatGrouping| -> bool {
        group.place.is_before(place)
    });
    match groups.get(near) {
        Some(group) => chosen(groups, group, place),
        None => first_at(groups, place),
    }
}

/// The grouping at a place, which this one may be.
fn chosen<'a>(
    groups: &'a [FlatGrouping],
    group: &'a FlatGrouping,
    place: Place,
) -> Option<&'a Grouped>
    requires { grouping_at groups.now group.now.place ≡ Some group.now.grouped }
    ensures { option_copied result ≡ grouping_at groups.now place }
{
    if group.place == place {
        return Some(&group.grouped);
    }
    first_at(groups, place)
}

/// The grouping at a place, by going through all.
fn first_at(groups: &[FlatGrouping], place: Place) -> Option<&Grouped>
    ensures { option_copied result ≡ grouping_at groups.now place }
{
    for group in groups {
        if group.place == place {
            return Some(&group.grouped);
        }
    }
    None
}
