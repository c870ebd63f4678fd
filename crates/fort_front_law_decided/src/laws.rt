//! The law of files, token lists and components.
ghost use Rattle.fort_front_law_decided.specs.Whole.{ComponentIsOneOfTwo, FileIsOneOfTwo, TokensAreOneOfTwo, TreeIsOneOfTwo};

use crate::phases::{
    each_is_rewritten, each_is_translated, fields_decide, grammar_decides, grouping_decides,
    hierarchy_decides, overloads_decide,
};
use fort_typing_law_ready::component_is_exact;

/// A law: no file is neither accepted nor breaks a rule, nor is a token list, nor a component that
/// passes no limit; and no component in which no thread is spawned, with at most 2^32 types,
/// neither keeps the rules behind the grammar nor breaks one of them.
pub fn one_of_two()
    ensures files { FileIsOneOfTwo }
    ensures tokens { TokensAreOneOfTwo }
    ensures component { ComponentIsOneOfTwo }
    ensures tree { TreeIsOneOfTwo }
{
    grammar_decides();
    each_is_rewritten();
    grouping_decides();
    hierarchy_decides();
    fields_decide();
    overloads_decide();
    component_is_exact();
    each_is_translated();
}
