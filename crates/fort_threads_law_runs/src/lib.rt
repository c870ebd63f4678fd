//! The laws that runs of attempts are runs of the machine with threads.
//!
//! A component with spawned threads is run as the one that it is rewritten to: the chapter "The
//! machine with threads" of docs/MACHINE.md.
//!
//! Nothing is computed here. Each function names a law by its clause and does nothing.
#![tactic(auto)]

ghost use Rattle.fort_threads_law_runs.specs.Laws.{AttemptsGoAlike, ThreadsGoAlike};

use fort_core::{Journal, Program};

/// Takes the types whose meaning is written here.
pub fn unread(_program: &Program, _journal: &Journal) {}

/// Each run of an attempt's machine is one of the machine with threads, from terms that match, on
/// stores that go together.
pub fn attempts_go_alike()
    ensures { AttemptsGoAlike }
{}

/// And so is each pick of a thread of the root's machine, where it may go.
pub fn threads_go_alike()
    ensures { ThreadsGoAlike }
{}
