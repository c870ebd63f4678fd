//! Worked runs of the machine: programs of a few lines, journals of them, and picks that no run of
//! them takes.
//!
//! Nothing is computed here. Each function names a law by its clause and does nothing.
#![tactic(auto)]

mod as_written;
mod failing;
mod letter;
mod overflow;
mod passing;
mod sleeping;
mod two_threads;
mod typed_whole;

pub use as_written::worked_are_written;
pub use failing::{inner_fails, inner_must_end, outer_completes, recovers};
pub use letter::value_is_no_thread;
pub use overflow::{overflows, sum_is_part_zero};
pub use passing::{passed_is_no_thread, throw_passes};
pub use sleeping::{falls_asleep, sleeper_waits, wakes};
pub use two_threads::{finished_is_no_thread, prints_left_first, prints_right_first};
pub use typed_whole::guarded_is_accepted;
