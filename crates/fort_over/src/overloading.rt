//! The overload rules of a component.
ghost use Rattle.std.specs.Prelude.{◌≤◌, ◌^◌, IfOk, IfErr, length, List as Seq};
ghost use Rattle.fort_types.specs.declared.hierarchy.DeclaredType.{DeclaredType};
ghost use Rattle.fort_over.specs.Answers.{AreOver, KeepAllRules, IsFault};

use crate::pairs::first_broken;
use crate::uncovered::first_uncovered;
use fort_base::CheckFault;
use fort_base::rules::ABSTRACT_NOT_COVERED;
use fort_hier::Hierarchy;
use fort_types_sets::Members;
use std::alloc::Global;

/// Checks the overload rules of a component's members, which its hierarchy's types are about.
///
/// It answers `Refused` exactly where a rule of 501 to 507 is broken. Of the pairs of declarations
/// that break one of 501 to 506 it reports the one whose later declaration comes first in the file,
/// and of those the one whose earlier declaration does, at the later one's place; only where no
/// pair of any set breaks a rule is 507 asked, which is reported at the earliest place of an object
/// that an abstract declaration isn't covered for. What is built in counts as standing at line 1,
/// column 1. The hierarchy has at most 2^32 types, which is as many as there are numbers. It
/// answers `Memory` where memory is wanting. The chapter is "Overload rules".
pub fn overloads(alloc: Global, hierarchy: &Hierarchy, members: &Members) -> Result<(), CheckFault>
    requires numbered { length hierarchy.now.table.below ≤ 2 ^ 32 }
    ensures ok { IfOk result (λ _. (h : Seq DeclaredType) → AreOver h hierarchy.now members.now
        → KeepAllRules h members.now) }
    ensures err { IfErr result (λ fault. (h : Seq DeclaredType)
        → AreOver h hierarchy.now members.now → IsFault h members.now fault) }
{
    let broken = first_broken(alloc, &hierarchy.table, members.sets.as_slice())?;
    if let Some(pair) = broken {
        return Err(CheckFault::Refused(pair.rule, pair.later));
    }
    match first_uncovered(&hierarchy.table, members) {
        Some(place) => Err(CheckFault::Refused(ABSTRACT_NOT_COVERED, place)),
        None => Ok(()),
    }
}
