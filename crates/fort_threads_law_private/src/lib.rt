//! The laws that the terms of a component with spawned threads leave the prelude's names alone.
//!
//! The machine runs a component with spawned threads as the one that it is rewritten to, whose
//! prelude has sets, fields and locations of its own; no name of a component is theirs. So no step
//! of a thread but in a call of `spawn'`, `wait`, `val`, `ready` or `run` touches them: the
//! chapter "Threads that are spawned" of docs/LANGUAGE.md.
//!
//! Nothing is computed here. Each function names a law by its clause and does nothing.
#![tactic(auto)]

ghost use Rattle.fort_threads_law_private.specs.Laws.{ActsFinely, StepsPrivately};

use fort_core::{Journal, Program};

/// Takes the types whose meaning is written here.
pub fn unread(_program: &Program, _journal: &Journal) {}

/// What a form does that leaves the prelude's own names alone leads to one that does, and asks and
/// sets open locations alone.
pub fn acts_finely()
    ensures { ActsFinely }
{}

/// So does each of its steps, but a call of `run`, `spawn'`, `wait`, `val` or `ready`, and what
/// stands at open locations behind it.
pub fn steps_privately()
    ensures { StepsPrivately }
{}
