//! The laws of what the machine and the machine with threads do alike.
//!
//! A component with spawned threads is run as the one that it is rewritten to. What is known of
//! such a run beside its terms (worlds), and how both machines' stores and effects go together:
//! the chapter "The machine with threads" of docs/MACHINE.md.
//!
//! Nothing is computed here. Each function names a law by its clause and does nothing.
#![tactic(auto)]

ghost use Rattle.fort_threads_law_worlds.specs.Laws.{AbortedAlike, CompletedAlike, DoAlikeTogether, FailedAlike, FitsBoth, MarksAreOpen, OpenMarks, StoresAfterAborting, StoresAfterCompleting, StoresAfterFailing, StoresAfterOpen};

use fort_core::{Journal, Program};

/// Takes the types whose meaning is written here.
pub fn unread(_program: &Program, _journal: &Journal) {}

/// What two stretches do alike, they do alike together.
pub fn do_alike_together()
    ensures { DoAlikeTogether }
{}

/// An attempt that completes does alike what its inner runs do alike.
pub fn completed_alike()
    ensures { CompletedAlike }
{}

/// So does one that fails.
pub fn failed_alike()
    ensures { FailedAlike }
{}

/// So does one that is aborted, which leads back to the world before it.
pub fn aborted_alike()
    ensures { AbortedAlike }
{}

/// Marks of what the machine read, where they are for terms of the component, are marks of what
/// the machine with threads read.
pub fn open_marks()
    ensures { OpenMarks }
{}

/// Marks of what was read openly are open.
pub fn marks_are_open()
    ensures { MarksAreOpen }
{}

/// What suits the machine's store, done alike suits that of the machine with threads.
pub fn fits_both()
    ensures { FitsBoth }
{}

/// A step that is no call of the prelude leaves both stores as they are in the world behind it.
pub fn stores_after_open()
    ensures { StoresAfterOpen }
{}

/// So does an attempt that completes.
pub fn stores_after_completing()
    ensures { StoresAfterCompleting }
{}

/// So does one that fails, where all that is older is as before.
pub fn stores_after_failing()
    ensures { StoresAfterFailing }
{}

/// One that is aborted leaves them as they were.
pub fn stores_after_aborting()
    ensures { StoresAfterAborting }
{}
