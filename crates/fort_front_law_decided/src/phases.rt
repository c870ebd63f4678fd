//! Laws of the phases: none leaves an input without an answer.
ghost use Rattle.fort_front_law_decided.specs.Phases.{EachIsRewritten, EachIsTranslated, FieldsDecide, GrammarDecides, GroupingDecides, HierarchyDecides, OverloadsDecide};

use fort_group::one_answer;
use fort_hier::accepted_is_sound;
use fort_member::{built_ins_stand_first, sets_are_well_made};
use fort_spawn_prelude::prelude_is_read;
use fort_syntax::at_most_one_tree;
use fort_types::relation_is_below;

/// A law of token lists: none is neither one component that passes no limit, nor breaks a rule of
/// the grammar. The chapter is "Grammar".
pub fn grammar_decides()
    ensures { GrammarDecides }
{
    at_most_one_tree();
}

/// A law of components: the spawned threads of each can be rewritten. The chapter is "Threads that
/// are spawned".
pub fn each_is_rewritten()
    ensures { EachIsRewritten }
{
    prelude_is_read();
}

/// A law of flat expressions: each list of them has its groupings, or breaks a rule. The chapter is
/// "Operators".
pub fn grouping_decides()
    ensures { GroupingDecides }
{
    one_answer();
}

/// A law of components: none neither has a hierarchy, nor breaks a rule on types, where it has no
/// more types than there are numbers. The chapter is "Types".
pub fn hierarchy_decides()
    ensures { HierarchyDecides }
{}

/// A law of components that have a hierarchy: none neither has members, nor breaks a rule on fields.
/// The chapter is "Members".
pub fn fields_decide()
    ensures { FieldsDecide }
{
    accepted_is_sound();
}

/// A law of components that have members: none neither keeps the overload rules, nor breaks one.
/// The chapter is "Overload rules".
pub fn overloads_decide()
    ensures { OverloadsDecide }
{
    accepted_is_sound();
    relation_is_below();
    sets_are_well_made();
}

/// A law of components that have members and whose forms have types: each has a program. The page
/// is docs/TRANSLATION.md.
pub fn each_is_translated()
    ensures { EachIsTranslated }
{
    built_ins_stand_first();
}
