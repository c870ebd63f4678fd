//! An abort that sleeps: one block waits until the other one writes the variable.
ghost use Rattle.fort_machine_law_worked.specs.Sleeping.{FallsAsleep, SleeperIsNotNext, SleeperWaits, Wakes};

/// After the aborted attempt the form sleeps, with the mark that the variable's location held 0;
/// all costs 7 so far.
pub fn falls_asleep()
    ensures { FallsAsleep }
{}

/// The journal is a run that is completed, prints nothing, costs 14, and leaves 1 in the variable's
/// location.
pub fn wakes()
    ensures { Wakes }
{}

/// A second attempt of the sleeping form before the write is none of a run, whatever its inner
/// picks and those behind it; nor is it next where the fuel is out, not even begun.
pub fn sleeper_waits()
    ensures run { SleeperWaits }
    ensures next { SleeperIsNotNext }
{}
