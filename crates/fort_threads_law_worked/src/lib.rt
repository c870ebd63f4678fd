//! A worked program with spawned threads, which has all that the laws on runs with threads take of
//! one.
//!
//! The chapter "The machine with threads" of docs/MACHINE.md. Nothing is computed here. Each function
//! names a law by its clause and does nothing.
#![tactic(auto)]

ghost use Rattle.fort_threads_law_worked.specs.Worked.{WorkedIsSound, WorkedIsThreaded, WorkedRunsAreThreaded};

use fort_core::{Journal, Program};

/// Takes the types whose meaning is written here.
pub fn unread(_program: &Program, _journal: &Journal) {}

/// The worked program is as the check of a component finds it.
pub fn worked_is_sound()
    ensures { WorkedIsSound }
{}

/// It has all that is taken of a program with spawned threads.
pub fn worked_is_threaded()
    ensures { WorkedIsThreaded }
{}

/// So each of its runs is one of the machine with threads.
pub fn worked_runs_are_threaded()
    ensures { WorkedRunsAreThreaded }
{}
