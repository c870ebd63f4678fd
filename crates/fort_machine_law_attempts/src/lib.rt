//! What an atomic form does in a run: it goes on by whole attempts of it and in no other way, and
//! an attempt that doesn't complete gives back every location older than itself, at every depth.
//! The chapters "Atomic" and "Runs" of docs/MACHINE.md.
//!
//! Nothing is computed here. Each function names a law by its clause and does nothing.
#![tactic(auto)]

ghost use Rattle.fort_machine_law_attempts.specs.Attempts.{AttemptsGiveBack, GoesOnByAttempts};

use fort_core::{Journal, Program};

/// Takes the types whose meaning is written here.
pub fn unread(_program: &Program, _journal: &Journal) {}

/// In a run, a pick at or below the path of an atomic form, asleep or not, is one attempt of that
/// very form, at its path, whose inner run has ended; nothing else takes the form on.
pub fn goes_on_by_attempts()
    ensures { GoesOnByAttempts }
{}

/// Each attempt of a run that fails or is aborted, at every depth, leaves every location that was
/// there before it with the value that it had.
pub fn attempts_give_back()
    ensures { AttemptsGiveBack }
{}
