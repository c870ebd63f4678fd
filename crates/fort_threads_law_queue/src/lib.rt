//! The laws of the prelude's own `atomic` forms: what each attempt comes to, and what it leaves.
//!
//! The chapter "The machine with threads" of docs/MACHINE.md. Nothing is computed here. Each function
//! names a law by its clause and does nothing.
#![tactic(auto)]

ghost use Rattle.fort_threads_law_queue.specs.Attempts.{EachCountGoesDown, EachTakeEnds, EachWaitEnds};

use fort_core::{Journal, Program};

/// Takes the types whose meaning is written here.
pub fn unread(_program: &Program, _journal: &Journal) {}

/// Each attempt of `take'` takes the first thread off the queue, finds none where all have ended, or
/// sleeps; it throws nothing.
pub fn each_take_ends()
    ensures { EachTakeEnds }
{}

/// Each attempt of `open' -= 1` completes, and `open'` is one less.
pub fn each_count_goes_down()
    ensures { EachCountGoesDown }
{}

/// Each attempt of `wait` of an object that is marked completes, and does nothing.
pub fn each_wait_ends()
    ensures { EachWaitEnds }
{}
