//! The course of a run: how far its machines have come, the root's and those of open attempts, and
//! what keeps it, step by step. Each law is named by a function that does nothing. The chapters
//! "Runs" and "Journals" of docs/MACHINE.md.
#![tactic(auto)]

mod laws;

pub use laws::{
    abort_keeps, abort_passes, attempt_is_begun, attempt_is_pick, attempt_passes, bare_here,
    begins, begun_within, completed_run, completion_keeps, failure_keeps, falling_asleep_keeps,
    giving_up_keeps, inner_abort_ends, last_goes_out, leaving_keeps, moves_keep, nobody_awake,
    opening_keeps, run_passes, step_is_next, step_is_pick, step_keeps, step_passes, uncaught_run,
};
