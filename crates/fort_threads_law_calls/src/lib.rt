//! The law that calls of the prelude are steps of the machine with threads.
//!
//! A component with spawned threads is run as the one that it is rewritten to, where `spawn'`,
//! `wait`, `val`, `ready` and `run` are bodies that run pick by pick; in the machine with threads
//! each is a step: the chapter "The machine with threads" of docs/MACHINE.md.
//!
//! Nothing is computed here. Each function names a law by its clause and does nothing.
#![tactic(auto)]

ghost use Rattle.fort_threads_law_calls.specs.Laws.{EachCallFindsOpen, EachCallIsAnswered};

use fort_core::{Journal, Program};

/// Takes the types whose meaning is written here.
pub fn unread(_program: &Program, _journal: &Journal) {}

/// Each pick within a call of the prelude that is under way, or in which the machine with threads
/// is ahead by a step, is answered by nothing, or by the step of the call's own form.
pub fn each_call_is_answered()
    ensures { EachCallIsAnswered }
{}

/// Where the term of the machine with threads leaves the prelude's own names alone, a pick within
/// such a call finds nothing, or reads `started'`.
pub fn each_call_finds_open()
    ensures { EachCallFindsOpen }
{}
