//! What legs are to a run.
ghost use Rattle.fort_walk_legs.specs.Laws.{CourseIsInReach, LegIsFramed, LegKeeps, LegLifts, LegsJoin, PartIsInReach};

/// A leg on one store is one on each store that suits what it does.
pub fn leg_is_framed()
    ensures { LegIsFramed }
{}

/// A leg behind another one makes one leg of both.
pub fn legs_join()
    ensures { LegsJoin }
{}

/// A leg of a part is one of the whole term, the part's path before each of its steps.
pub fn leg_lifts()
    ensures { LegLifts }
{}

/// A part of a term in reach is in reach.
pub fn part_is_in_reach()
    ensures { PartIsInReach }
{}

/// A leg of the form at which a run stands is picks of its innermost machine.
pub fn leg_keeps()
    ensures { LegKeeps }
{}

/// The form at which a run stands is in reach.
pub fn course_is_in_reach()
    ensures { CourseIsInReach }
{}
