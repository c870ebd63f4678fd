//! The written meaning of a run: the machine of threads, as definitions, with the laws that they
//! keep.
//!
//! Nothing is computed here. Each function names a law by its clause and does nothing.
#![tactic(auto)]

ghost use Rattle.fort_machine.specs.EffectLaws.{EffectsJoin, EffectsFollow, EffectsPart, StepsMakeInARow, GivesBack, AbortUndoes};
ghost use Rattle.fort_machine.specs.RunLaws.{OnePlace, SteppedGoesOn, OneStep, OneMarks, MarksThere, OneRun, Framed, SomeStore, OneStore, OneStoreBare, Lifts, RunsJoin, RunsPart, RunsFit, AttemptIsOnePick, PicksAddUp, PicksCost};
ghost use Rattle.fort_machine.specs.Plain.{MakesPlainly, ReadsPlainly, RunsPlainly, WritesPlainly};
ghost use Rattle.fort_machine.specs.Worked.{PrintsLetter};
ghost use Rattle.fort_machine.specs.Proper.{EntersBare, ReachedIsProper};
ghost use Rattle.fort_machine.specs.Written.{WrittenIsBare};

use fort_core::{Journal, Program};

/// Takes the types whose meaning is written here.
pub fn unread(_program: &Program, _journal: &Journal) {}

/// A thread's path determines what stands there.
pub fn one_place()
    ensures { OnePlace }
{}

/// A part in which a step was taken is never passed over.
pub fn stepped_goes_on()
    ensures { SteppedGoesOn }
{}

/// A form has one step.
pub fn one_step()
    ensures { OneStep }
{}

/// What an attempt read determines its marks.
pub fn one_marks()
    ensures { OneMarks }
{}

/// What a run read has marks.
pub fn marks_there()
    ensures { MarksThere }
{}

/// A run is determined by its picks.
pub fn one_run()
    ensures { OneRun }
{}

/// A part's run is one of the whole term, the part's path before each of its picks.
pub fn lifts()
    ensures { Lifts }
{}

/// Effects join in any grouping, and what does nothing adds nothing.
pub fn effects_join()
    ensures { EffectsJoin }
{}

/// Two effects, one after the other, suit a store and leave what the second leaves.
pub fn effects_follow()
    ensures { EffectsFollow }
{}

/// Two effects that meet may be taken apart again.
pub fn effects_part()
    ensures { EffectsPart }
{}

/// One run after another is a run.
pub fn runs_join()
    ensures { RunsJoin }
{}

/// A run may be parted before each of its picks.
pub fn runs_part()
    ensures { RunsPart }
{}

/// A run has no more picks than its cost.
pub fn picks_cost()
    ensures { PicksCost }
{}

/// A run suits the store that it runs on.
pub fn all_fit()
    ensures { RunsFit }
{}

/// A step that makes locations makes consecutive ones, none of them in the store.
pub fn steps_make_in_a_row()
    ensures { StepsMakeInARow }
{}

/// An attempt that doesn't complete leaves every older location as it was.
pub fn gives_back()
    ensures { GivesBack }
{}

/// An aborted attempt leaves the store as it was, and prints nothing.
pub fn abort_undoes()
    ensures { AbortUndoes }
{}

/// The inner picks of an attempt are one pick outside.
pub fn attempt_is_one_pick()
    ensures { AttemptIsOnePick }
{}

/// A run's output is that of its picks in a row, and its cost the sum of theirs.
pub fn picks_add_up()
    ensures { PicksAddUp }
{}

/// A run depends only on what it read, on the older locations that it wrote being there, on those
/// that it made being absent, and, where the rule on sleeping forms is kept, on what the sleepers
/// of its first term watch.
pub fn framed()
    ensures { Framed }
{}

/// Each effect suits some store.
pub fn some_store()
    ensures { SomeStore }
{}

/// A run on one store is one on each store that suits it, the rule on sleeping forms left aside at
/// its own level.
pub fn one_store()
    ensures { OneStore }
{}

/// The same from a term in which no form sleeps, the rule kept.
pub fn one_store_bare()
    ensures { OneStoreBare }
{}

/// A read asks that the value is there, and leaves the store as it is.
pub fn reads_plainly()
    ensures { ReadsPlainly }
{}

/// A write asks that a value is there, and puts its own in its place.
pub fn writes_plainly()
    ensures { WritesPlainly }
{}

/// What makes locations asks that none of them is there, and puts the values into them.
pub fn makes_plainly()
    ensures { MakesPlainly }
{}

/// A run is one in the plain reading: a store before, and a store after.
pub fn runs_plainly()
    ensures { RunsPlainly }
{}

/// In a term as it is written no form sleeps.
pub fn written_is_bare()
    ensures { WrittenIsBare }
{}

/// The terms and stores of a written program's machines stay proper: what could be a value is one,
/// marks stand round open parts, and no step was taken in what doesn't go.
pub fn reached_is_proper()
    ensures { ReachedIsProper }
{}

/// No form sleeps in a body that a machine of a written program enters: a declaration's, a
/// function's or an attempt's.
pub fn enters_bare()
    ensures { EntersBare }
{}

/// A journal of two steps is a run of `run(): () = println("a")`, prints `a` and a line feed, and
/// costs 4.
pub fn prints_letter()
    ensures { PrintsLetter }
{}
