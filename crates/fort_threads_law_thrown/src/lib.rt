//! The laws that what is thrown in a run of an accepted component with spawned threads is an
//! exception.
//!
//! The chapter "The machine with threads" of docs/MACHINE.md. Nothing is computed here. Each function
//! names a law by its clause and does nothing.
#![tactic(auto)]

ghost use Rattle.fort_threads_law_thrown.specs.Thrown.{EachThrowsFinely, ThrownAreExceptions};

use fort_core::{Journal, Program};

/// Takes the types whose meaning is written here.
pub fn unread(_program: &Program, _journal: &Journal) {}

/// Nothing is thrown that isn't a value yet, but what may be.
pub fn throws_finely()
    ensures { EachThrowsFinely }
{}

/// Each value that is thrown has the type `Exception`.
pub fn thrown_are_exceptions()
    ensures { ThrownAreExceptions }
{}
