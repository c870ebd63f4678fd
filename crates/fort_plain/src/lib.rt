//! Replays of journals: whether a journal is that of a run of a program, with the run's output and
//! cost, or where it breaks. Each pick is looked at by itself: its thread is found by its path, and
//! takes its step by the machine's rows. The chapters "Runs", "Atomic" and "Journals" of
//! docs/MACHINE.md.
#![tactic(auto)]

mod act;
mod aside;
mod attempts;
mod awake;
mod find;
mod journal;
mod laws;
mod settled;
mod steps;
mod take;

pub use journal::{Replayed, replay};
pub use laws::broken_is_none;
