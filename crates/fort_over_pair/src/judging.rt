//! The rules of two declarations, one case after another.
ghost use Rattle.std.specs.Prelude.{◌≡◌, ◌≤◌, ◌^◌, ◌↔◌, IsTrue, IfOk, List as Seq, length};
ghost use Rattle.fort_types.specs.declared.hierarchy.DeclaredType.{DeclaredType};
ghost use Rattle.fort_types.specs.Hierarchy.{Sound};
ghost use Rattle.fort_types.specs.Table.{HasRows};
ghost use Rattle.fort_over_pair.specs.Judges.{AreAside, Judges, JudgesMeets, JudgesResults};

use crate::clashing::arrows_clash;
use crate::counting::{TOO_MANY, count_all};
use crate::covering::all_covered;
use crate::listing::list_all;
use crate::order::{are_apart, are_below, are_same, are_strangers};
use fort_base::rules::{
    ARROW_OVERLAP, MEET_NOT_DECLARED, NO_MEET, RESULT_NOT_BELOW, SAME_PARAMETERS, TOO_WIDE,
};
use fort_base::{Memory, Rule, TypeTable};
use fort_types::below;
use fort_types_sets::{Member, MemberSet};
use std::alloc::Global;

/// The rule that two declarations of a set break, if any, by the first case that says something of
/// them.
///
/// It is 501 where their parameters are equal, 502 where the result of the more specific one isn't
/// below the other's, 505 where arrows of theirs clash, 503 where some position has no meet, 506
/// where there are more than 4,096 choices, and 504 where the set doesn't cover a choice.
///
/// That is said of whatever accepted hierarchy the table has the rows, and of either order of the
/// two. The table has at most 2^32 types. Two with different numbers of parameters, which stand in
/// no set together, break none. Where memory is wanting there is no answer; the cases before the
/// meets take none. The chapter is "Overload rules".
pub fn broken_rule(
    alloc: Global,
    table: &TypeTable,
    set: &MemberSet,
    first: &Member,
    second: &Member,
) -> Result<Option<Rule>, Memory>
    requires numbered { length table.now.below ≤ 2 ^ 32 }
    ensures { IfOk result (λ rule. (h : Seq DeclaredType) → Sound h → HasRows h table.now
        → length first.now.parameters ≡ length second.now.parameters →
        Judges h set.now first.now second.now rule) }
{
    if first.parameters.len() != second.parameters.len() {
        return Ok(None);
    }
    if are_same(&first.parameters, &second.parameters) {
        return Ok(Some(SAME_PARAMETERS));
    }
    if are_apart(table, &first.parameters, &second.parameters) {
        return Ok(None);
    }
    if are_below(table, &first.parameters, &second.parameters) {
        return Ok(by_results(table, set, first, second));
    }
    if are_below(table, &second.parameters, &first.parameters) {
        return Ok(by_results(table, set, second, first));
    }
    if are_aside(table, set, first, second) {
        return Ok(None);
    }
    by_meets(alloc, table, set, first, second)
}

/// What the results say, where the first declaration is more specific.
fn by_results(table: &TypeTable, set: &MemberSet, first: &Member, second: &Member) -> Option<Rule>
    ensures { (h : Seq DeclaredType) → HasRows h table.now
        → JudgesResults h set.now first.now second.now result }
{
    if below(table, &first.result, &second.result) {
        return None;
    }
    if are_aside(table, set, first, second) {
        return None;
    }
    Some(RESULT_NOT_BELOW)
}

/// Whether the declarations are dotted methods, and no declared type is below both receivers.
fn are_aside(table: &TypeTable, set: &MemberSet, first: &Member, second: &Member) -> bool
    ensures { (h : Seq DeclaredType) → HasRows h table.now → IsTrue result
        ↔ AreAside h set.now first.now second.now }
{
    set.dotted && are_strangers(table, &first.parameters, &second.parameters)
}

/// What the meets say, where the other cases say nothing.
fn by_meets(
    alloc: Global,
    table: &TypeTable,
    set: &MemberSet,
    first: &Member,
    second: &Member,
) -> Result<Option<Rule>, Memory>
    requires numbered { length table.now.below ≤ 2 ^ 32 }
    requires alike { length first.now.parameters ≡ length second.now.parameters }
    ensures { IfOk result (λ rule. (h : Seq DeclaredType) → Sound h → HasRows h table.now
        → JudgesMeets h set.now first.now second.now rule) }
{
    if arrows_clash(table, &first.parameters, &second.parameters) {
        return Ok(Some(ARROW_OVERLAP));
    }
    let count = count_all(alloc, table, &first.parameters, &second.parameters)?;
    if count == 0 {
        return Ok(Some(NO_MEET));
    }
    if count >= TOO_MANY {
        return Ok(Some(TOO_WIDE));
    }
    let choices = list_all(alloc, table, &first.parameters, &second.parameters)?;
    if !all_covered(
        table,
        set.members.as_slice(),
        first,
        second,
        choices.as_slice(),
    ) {
        return Ok(Some(MEET_NOT_DECLARED));
    }
    Ok(None)
}
