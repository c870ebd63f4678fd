//! Where marks stand in the terms of a run: round open parts of parallel forms. The chapter "Terms
//! and threads" of docs/MACHINE.md.
//!
//! Nothing is computed here. The function names a law by its clause and does nothing.
#![tactic(auto)]

ghost use Rattle.fort_machine_law_marks.specs.Marks.{MarksStand};

use fort_core::{Journal, Program};

/// Takes the types whose meaning is written here.
pub fn unread(_program: &Program, _journal: &Journal) {}

/// A mark stands round an open part of a parallel form, and nowhere else.
pub fn marks_stand()
    ensures { MarksStand }
{}
