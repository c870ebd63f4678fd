//! A failure inside an atomic: the inner attempt throws and is undone, the outer one catches the
//! throw and completes.
ghost use Rattle.fort_machine_law_worked.specs.Failing.{InnerFails, InnerMustEnd, OuterCompletes, Recovers};

/// The inner attempt fails with the throw, costs 3, and leaves the variable's location as it was.
pub fn inner_fails()
    ensures { InnerFails }
{}

/// The outer attempt is one pick that completes at `()`, costs 7, found the variable's location and
/// wrote 1 to it.
pub fn outer_completes()
    ensures { OuterCompletes }
{}

/// The journal is a run that is completed, prints nothing, costs 9, and leaves 1 in the variable's
/// location.
pub fn recovers()
    ensures { Recovers }
{}

/// With the inner attempt's last pick left out the picks are none of a run, whatever comes behind.
pub fn inner_must_end()
    ensures { InnerMustEnd }
{}
