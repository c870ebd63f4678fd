ghost use Rattle.fort_tree.specs.Measuring.{row_of};
ghost use Rattle.fort_group.specs.Answers.{Answers, OneAtMost, EachAnswered, NeverBoth, OneBreak};
ghost use Rattle.fort_group.specs.Yield.{UnitsInOrder};

use crate::chains::is_sensible;
use crate::part::part;
use crate::spacing::{first_mixed, spacing_of};
use fort_base::CheckFault;
use fort_base::rules::{BAD_CHAIN, MIXED_SPACING, NO_PRECEDENCE, SPACING_CONTRADICTS};
use fort_tree::{Flat, Grouped, Row};
use fort_tree_flats::row;
use std::alloc::Global;

/// The one grouping of a flat expression; its numbers are places of units, counted from 0.
///
/// It refuses the lowest rule that is broken: 301 at the first operator with a gap on one side
/// only; 302 where there is no grouping, 303 where the spacing contradicts it, 304 where one of its
/// chains mixes senses, all three at the flat expression's first token. The chapter "Operators".
pub fn group(alloc: Global, flat: &Flat) -> Result<Grouped, CheckFault>
    ensures { Answers (row_of flat.now) result }
{
    let row = row(alloc, flat)?;
    group_row(alloc, &row)
}

/// The same from what the grouping depends on.
pub fn group_row(alloc: Global, row: &Row) -> Result<Grouped, CheckFault>
    ensures { Answers row.now result }
{
    let joints = row.joints.as_slice();
    if let Some(place) = first_mixed(joints) {
        return Err(CheckFault::Refused(MIXED_SPACING, place));
    }
    match part(alloc, joints, 0, joints.len())? {
        None => Err(CheckFault::Refused(NO_PRECEDENCE, row.place)),
        Some(tree) => {
            if !spacing_of(&tree, joints).good {
                return Err(CheckFault::Refused(SPACING_CONTRADICTS, row.place));
            }
            if !is_sensible(&tree) {
                return Err(CheckFault::Refused(BAD_CHAIN, row.place));
            }
            Ok(tree)
        }
    }
}

/// A law of groupings: a flat expression has one at most, whatever `group` answers.
pub fn one_grouping_at_most()
    ensures { OneAtMost }
{}

/// A law of flat expressions: each has a grouping that breaks no rule, or breaks one, and none
/// both; and the rule and the place are one.
pub fn one_answer()
    ensures some { EachAnswered }
    ensures apart { NeverBoth }
    ensures once { OneBreak }
{}

/// A law of groupings: the units stand in them in order.
pub fn groupings_are_in_order()
    ensures { UnitsInOrder }
{}
