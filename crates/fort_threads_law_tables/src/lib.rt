//! The laws that a program has the prelude where its tables say so.
//!
//! The chapter "The machine with threads" of docs/MACHINE.md. Nothing is computed here. Each function
//! names a law by its clause and does nothing.
#![tactic(auto)]

ghost use Rattle.fort_threads_law_tables.specs.Tabled.{TabledHasThePrelude, TabledIsSame};

use fort_core::{Journal, Program};

/// Takes the types whose meaning is written here.
pub fn unread(_program: &Program, _journal: &Journal) {}

/// A program whose tables say so has the prelude, and counts with small numbers.
pub fn tabled_has_the_prelude()
    ensures { TabledHasThePrelude }
{}

/// And both machines know the same of it.
pub fn tabled_is_same()
    ensures { TabledIsSame }
{}
