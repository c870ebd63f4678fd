//! What keeps the course of a run, and what picks at a state's place are to it.
ghost use Rattle.fort_walk_law_course.specs.Picks.{AttemptIsBegun, AttemptIsPick, BegunWithin, InnerAbortEnds, NobodyAwake, StepIsNext, StepIsPick};
ghost use Rattle.fort_walk_law_course.specs.Laws.{Begins, MovesKeep, StepKeeps, OpeningKeeps, LeavingKeeps, AbortKeeps, CompletionKeeps, FailureKeeps, GivingUpKeeps, FallingAsleepKeeps, CompletedRun, UncaughtRun, StepPasses, AbortPasses, AttemptPasses, LastGoesOut, RunPasses, ReachedHere, BareHere};

/// A step of the form at a state's place is the run's next pick, with the state's own path;
/// afterwards the clock has risen.
pub fn step_is_pick()
    ensures { StepIsPick }
{}

/// So is a whole attempt of the atomic form at a state's place, whose inner run ended.
pub fn attempt_is_pick()
    ensures { AttemptIsPick }
{}

/// A step of `abort()` in an attempt's machine ends its run.
pub fn inner_abort_ends()
    ensures { InnerAbortEnds }
{}

/// A step that may be taken, as the pick that is next where the fuel is out.
pub fn step_is_next()
    ensures { StepIsNext }
{}

/// An attempt whose inner run hasn't ended, as the pick that is next where the fuel is out.
pub fn attempt_is_begun()
    ensures { AttemptIsBegun }
{}

/// An attempt within an attempt, neither ended, as the pick that is next where the fuel is out.
pub fn begun_within()
    ensures { BegunWithin }
{}

/// Where nobody is awake each sleeper may be tried.
pub fn nobody_awake()
    ensures { NobodyAwake }
{}

/// A run begins at the program's first term, on its opening store.
pub fn begins()
    ensures { Begins }
{}

/// The same term at another place is as far.
pub fn moves_keep()
    ensures { MovesKeep }
{}

/// A step that the fuel covers is one pick more of the innermost machine.
pub fn step_keeps()
    ensures { StepKeeps }
{}

/// An attempt begins within, at the body of its atomic form.
pub fn opening_keeps()
    ensures { OpeningKeeps }
{}

/// A run without its innermost attempt is as far as it was before it began.
pub fn leaving_keeps()
    ensures { LeavingKeeps }
{}

/// A step of `abort()` ends an attempt's machine.
pub fn abort_keeps()
    ensures { AbortKeeps }
{}

/// A completed attempt is one pick of the machine round it, and its form is the value.
pub fn completion_keeps()
    ensures { CompletionKeeps }
{}

/// A failed attempt is one pick, and its form throws what it threw.
pub fn failure_keeps()
    ensures { FailureKeeps }
{}

/// An aborted attempt of `tryatomic` is one pick, and its form throws.
pub fn giving_up_keeps()
    ensures { GivingUpKeeps }
{}

/// An aborted attempt of `atomic` is one pick, and its form sleeps.
pub fn falling_asleep_keeps()
    ensures { FallingAsleepKeeps }
{}

/// At `()` the root's run is completed.
pub fn completed_run()
    ensures { CompletedRun }
{}

/// At a throw the root's run is uncaught.
pub fn uncaught_run()
    ensures { UncaughtRun }
{}

/// A step that the fuel doesn't cover is the last pick.
pub fn step_passes()
    ensures { StepPasses }
{}

/// So is a step of `abort()` in an attempt.
pub fn abort_passes()
    ensures { AbortPasses }
{}

/// So is an attempt that would begin.
pub fn attempt_passes()
    ensures { AttemptPasses }
{}

/// The last pick of an attempt's machine makes the attempt the last one of the machine round it.
pub fn last_goes_out()
    ensures { LastGoesOut }
{}

/// The root's run ends before its last pick.
pub fn run_passes()
    ensures { RunPasses }
{}

/// Where a run has come is where the machines of its program come to.
pub fn reached_here()
    ensures { ReachedHere }
{}

/// In a written program no form sleeps in a body that is run next.
pub fn bare_here()
    ensures { BareHere }
{}
