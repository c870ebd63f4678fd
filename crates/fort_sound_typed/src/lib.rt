//! Types of closed terms, and what runs keep.
//!
//! Nothing is computed here. Each function names a law by its clause and does nothing.
#![tactic(auto)]

ghost use Rattle.fort_sound_typed.specs.Sound.{RunsKeep, StaysTyped, RunIsTyped, OneDefinition};
ghost use Rattle.fort_sound_typed.specs.Overloads.{RulesDefine};
ghost use Rattle.fort_sound_typed.specs.Hierarchies.{RelationFromOne, RowsOfHierarchy};
ghost use Rattle.fort_sound_typed.specs.Goes.{NeverStuck, NextThere, NoRunIsStuck, ReachedIsOne, ReachedIsTyped, SomeoneMayGo, StaysFinite, ThrownIsObject};

use fort_core::Program;

/// Takes the type whose typing is written here.
pub fn untyped(_program: &Program) {}

/// A run keeps the type of its term, through attempts at any depth, and the store's types.
pub fn runs_keep()
    ensures { RunsKeep }
{}

/// What is typed stays typed.
pub fn stays_typed()
    ensures { StaysTyped }
{}

/// Each call of values in a typed term has one definition.
pub fn one_definition()
    ensures { OneDefinition }
{}

/// Nothing that is typed and proper is stuck.
pub fn never_stuck()
    ensures { NeverStuck }
{}

/// Each run of an accepted program comes to what is typed.
pub fn run_is_typed()
    ensures { RunIsTyped }
{}

/// A run leaves a store finite.
pub fn stays_finite()
    ensures { StaysFinite }
{}

/// Wherever a machine of an accepted program comes to, the root's or an attempt's, its term and
/// store are typed.
pub fn reached_is_typed()
    ensures { ReachedIsTyped }
{}

/// There each call of values has one definition.
pub fn reached_is_one()
    ensures { ReachedIsOne }
{}

/// What a typed term throws, where it is finished, is an object.
pub fn thrown_is_object()
    ensures { ThrownIsObject }
{}

/// And no machine is stuck.
pub fn no_run_is_stuck()
    ensures { NoRunIsStuck }
{}

/// The rules on overloading give each call of typed values its one definition.
pub fn rules_define()
    ensures { RulesDefine }
{}

/// Where a machine of an accepted program isn't at its end, it isn't so that nobody may go on,
/// sleeping forms included.
pub fn someone_may_go()
    ensures { SomeoneMayGo }
{}

/// The rows of an accepted hierarchy go through a third type, and have nothing below an object or a
/// leaf but itself.
pub fn rows_of_hierarchy()
    ensures { RowsOfHierarchy }
{}

/// So a pick may come next in the root machine: none can't be.
pub fn next_there()
    ensures { NextThere }
{}

/// The rows of an accepted hierarchy compute below of a numbered type and any other one.
pub fn relation_from_one()
    ensures { RelationFromOne }
{}
