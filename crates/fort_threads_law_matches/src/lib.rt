//! The laws of terms that match: those of a thread in the machine and in the machine with threads.
//!
//! A component with spawned threads is run as the one that it is rewritten to. Its threads' terms
//! are those of the machine with threads, but where calls of the prelude are under way: the chapter
//! "The machine with threads" of docs/MACHINE.md.
//!
//! Nothing is computed here. Each function names a law by its clause and does nothing.
#![tactic(auto)]

ghost use Rattle.fort_threads_law_matches.specs.Laws.{AwakeMatches, EachIsPlaced, FinishedMatch, ReadyMatch, SleepersMatch};

use fort_core::{Journal, Program};

/// Takes the types whose meaning is written here.
pub fn unread(_program: &Program, _journal: &Journal) {}

/// What is finished in the machine is the same in the machine with threads.
pub fn finished_match()
    ensures { FinishedMatch }
{}

/// Each open part has its place in both terms.
pub fn each_is_placed()
    ensures { EachIsPlaced }
{}

/// A ready part is the same in both, or sleeps, or is a call of the prelude.
pub fn ready_match()
    ensures { ReadyMatch }
{}

/// An atomic form of the component is that form in both; and one that doesn't sleep in the machine
/// doesn't in the machine with threads, unless its last attempt came to a form of its own.
pub fn sleepers_match()
    ensures { SleepersMatch }
{}

/// Where somebody is awake in the machine with threads, somebody is in the machine: there too, or in
/// a call of the prelude.
pub fn awake_matches()
    ensures { AwakeMatches }
{}
