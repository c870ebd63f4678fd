//! What legs are to a run that stands at their form, and that tasks are in reach.
ghost use Rattle.fort_hall_law_books.specs.CourseLaws.{LegsKeep, TaskIsInReach, TaskMayGo};

/// Legs of the form at which a run stands, attempts among them, are picks of its innermost machine.
pub fn legs_keep()
    ensures { LegsKeep }
{}

/// Steps of a part of a term to which machines come lead to such a term.
pub fn task_is_in_reach()
    ensures { TaskIsInReach }
{}

/// A part of the term to which legs lead is in reach, so that a leg of it can be made.
pub fn task_may_go()
    ensures { TaskMayGo }
{}
