//! Which declarations of a set cover the choices of two others.
ghost use Rattle.std.specs.Prelude.{◌≡◌, ◌↔◌, IsTrue, List as Seq};
ghost use Rattle.fort_types.specs.declared.hierarchy.DeclaredType.{DeclaredType};
ghost use Rattle.fort_types.specs.Table.{HasRows};
ghost use Rattle.fort_types_sets.specs.Pairs.{AreCovered};
ghost use Rattle.fort_over_pair.specs.Judges.{Covers, CoversAll};

use crate::order::are_below;
use fort_base::{List, Ty, TypeTable};
use fort_types_sets::Member;

/// Whether each of a list of choices is covered for two declarations.
pub fn all_covered(
    table: &TypeTable,
    members: &[Member],
    first: &Member,
    second: &Member,
    choices: &[List<Ty>],
) -> bool
    ensures { (h : Seq DeclaredType) → HasRows h table.now
        → CoversAll h members.now first.now second.now choices.now result }
{
    for types in choices {
        if !is_covered(table, members, first, second, types) {
            return false;
        }
    }
    true
}

/// Whether some declaration covers types for two declarations.
fn is_covered(
    table: &TypeTable,
    members: &[Member],
    first: &Member,
    second: &Member,
    types: &List<Ty>,
) -> bool
    ensures { (h : Seq DeclaredType) → HasRows h table.now → IsTrue result
        ↔ AreCovered h members.now first.now second.now types.now }
{
    for other in members {
        if covers(table, other, first, second, types) {
            return true;
        }
    }
    false
}

/// Whether a declaration is more specific than two others, and applicable to types.
fn covers(
    table: &TypeTable,
    other: &Member,
    first: &Member,
    second: &Member,
    types: &List<Ty>,
) -> bool
    ensures { (h : Seq DeclaredType) → HasRows h table.now → IsTrue result
        ↔ Covers h other.now first.now second.now types.now }
{
    are_below(table, &other.parameters, &first.parameters)
        && are_below(table, &other.parameters, &second.parameters)
        && are_below(table, types, &other.parameters)
}
