ghost use Rattle.fort_sound.specs.Accepted.{AcceptedComponentIsSound, AcceptedIsSound, AcceptedRunsWell, AcceptedTreeIsSound, FileIsInOrder, FoundedRunsWell, KeepersAreSound};

use fort_elab_law_matched::component_is_written;
use fort_form_law_figures::forms_have_figures;
use fort_lex_law_tokens::{
    file_names_are_in, file_numbers_fit, file_stands_on_lines, tokens_stand_apart,
};
use fort_sound_bodies::members_have_bodies;
use fort_sound_defined::sets_keep_rules;
use fort_sound_program::{
    program_has_bodies, program_is_complete, program_is_sound, program_sets_keep,
};
use fort_sound_typed::{no_run_is_stuck, reached_is_one, reached_is_typed, rules_define};
use fort_spawn::{rewritten_numbers_fit, rewritten_obeys, rewritten_stands_apart};
use fort_typing_law_ready::forms_are_ready;

/// A law: the program of a component that keeps all the rules is sound and complete, and each call
/// of typed values in it has one definition. So the laws of runs are so of it. The chapter is
/// "Accepted programs" of docs/SOUNDNESS.md.
pub fn keepers_are_sound()
    ensures { KeepersAreSound }
{
    component_is_written();
    forms_are_ready();
    members_have_bodies();
    program_has_bodies();
    program_is_sound();
    program_is_complete();
    program_sets_keep();
    sets_keep_rules();
    rules_define();
    forms_have_figures();
}

/// A law: so it is of the program of a component that keeps the rules behind the grammar, where it
/// is the tree of tokens that stand at places of their own and whose numbers are ZZ64 at most.
pub fn accepted_tree_is_sound()
    ensures { AcceptedTreeIsSound }
{
    keepers_are_sound();
}

/// A law: so it is of the program of a component that the check accepts, where it is the tree of
/// tokens that are in order and whose numbers are ZZ64 at most.
pub fn accepted_component_is_sound()
    ensures { AcceptedComponentIsSound }
{
    accepted_tree_is_sound();
    rewritten_obeys();
    rewritten_stands_apart();
    rewritten_numbers_fit();
}

/// A law: the tokens of a file are in order. The chapter is "Tokens".
pub fn file_is_in_order()
    ensures { FileIsInOrder }
{
    tokens_stand_apart();
    file_stands_on_lines();
    file_names_are_in();
}

/// A law: so it is of the program of a file whose tokens the check accepts.
pub fn accepted_is_sound()
    ensures { AcceptedIsSound }
{
    accepted_component_is_sound();
    file_is_in_order();
    file_numbers_fit();
}

/// A law of such a program: wherever a machine of it comes to, the term is typed, each call of
/// values in it has exactly one declaration that it runs, and it isn't stuck.
pub fn founded_runs_well()
    ensures { FoundedRunsWell }
{
    reached_is_typed();
    reached_is_one();
    no_run_is_stuck();
}

/// A law: so wherever a machine of an accepted program comes to, the term is typed, each call of
/// values in it has exactly one declaration that it runs, and it isn't stuck. The chapter is "What
/// is claimed" of docs/SOUNDNESS.md.
pub fn accepted_runs_well()
    ensures { AcceptedRunsWell }
{
    accepted_is_sound();
    founded_runs_well();
}
