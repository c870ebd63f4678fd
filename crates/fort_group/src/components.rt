ghost use Rattle.fort_group.specs.Components.{AnswersEach, AnswersAll};

use crate::answer::group_row;
use fort_base::{CheckFault, List};
use fort_tree::{Component, FlatGrouping, Groups, Row};
use fort_tree_flats::rows;
use std::alloc::Global;

/// The grouping of each flat expression of a component, by the place of its first token, in the
/// order of these.
///
/// Of the flat expressions that break one of 301 to 304 it refuses the first in source order, by
/// the lowest rule that it breaks, where `group` refuses it. The chapter "Operators".
pub fn groups(alloc: Global, component: &Component) -> Result<Groups, CheckFault>
    ensures { AnswersAll component.now result }
{
    let rows = rows(alloc, component)?;
    let list = group_each(alloc, rows.as_slice())?;
    Ok(Groups { list })
}

/// The grouping of each of these flat expressions, up to the first one that breaks a rule.
fn group_each(alloc: Global, rows: &[Row]) -> Result<List<FlatGrouping>, CheckFault>
    ensures { AnswersEach rows.now result }
{
    let mut list = List::new(alloc);
    for row in rows {
        let grouped = group_row(alloc, row)?;
        list.push(FlatGrouping {
            place: row.place,
            grouped,
        })?;
    }
    Ok(list)
}
