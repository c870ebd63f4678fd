//! Walks of programs: a run, with attempts at any depth, one thread after another, or by several
//! workers side by side. The chapters "Runs", "Atomic", "Journals" and "Legs" of docs/MACHINE.md.
#![tactic(auto)]

mod beside;
mod ends;
mod output;
mod pace;
mod walking;

pub use fort_walk_course::Ran;
pub use walking::{WrittenRun, walk, walk_side_by_side};
