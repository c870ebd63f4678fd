//! What legs are, by themselves and behind one another.
ghost use Rattle.fort_hall_law_books.specs.LegLaws.{LegIsLegs, LegsAppend, LegsLift, LegsReach, LegsRun, LegsTakeAttempt, LegsTakeSteps, SteppedIsFramed, SteppedLifts, TriedIsFramed, TriedLifts, TriedRuns};

/// Steps on one store are steps on each store that suits what they do.
pub fn stepped_is_framed()
    ensures { SteppedIsFramed }
{}

/// An attempt on one store is one on each store that suits what it does.
pub fn tried_is_framed()
    ensures { TriedIsFramed }
{}

/// Steps of a part are steps of the whole term, the part's path before each of them.
pub fn stepped_lifts()
    ensures { SteppedLifts }
{}

/// An attempt in a part is one in the whole term, the part's path before it.
pub fn tried_lifts()
    ensures { TriedLifts }
{}

/// An attempt of a form that doesn't sleep, or where nobody is awake, is a run.
pub fn tried_runs()
    ensures { TriedRuns }
{}

/// Legs are a run, which keeps the rule on sleeping forms.
pub fn legs_run()
    ensures { LegsRun }
{}

/// Legs behind legs are legs.
pub fn legs_append()
    ensures { LegsAppend }
{}

/// Legs of a part are legs of the whole term.
pub fn legs_lift()
    ensures { LegsLift }
{}

/// Steps of a task go on behind legs where the store to which these lead suits them.
pub fn legs_take_steps()
    ensures { LegsTakeSteps }
{}

/// So does an attempt, where its form doesn't sleep on that store either.
pub fn legs_take_attempt()
    ensures { LegsTakeAttempt }
{}

/// Legs lead from where machines of the program come to such a place.
pub fn legs_reach()
    ensures { LegsReach }
{}

/// A leg of steps that has some is legs.
pub fn leg_is_legs()
    ensures { LegIsLegs }
{}
