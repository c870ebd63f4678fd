//! The law that each run of a program is one of the machine with threads, where its tables have the
//! prelude.
//!
//! The chapter "The machine with threads" of docs/MACHINE.md. Nothing is computed here. The function
//! names a law by its clause; it calls the laws on which that one stands.
#![tactic(auto)]

ghost use Rattle.fort_sound_threads.specs.Runs.{SoundRunsAreThreaded};

use fort_core::{Journal, Program};
use fort_machine::written_is_bare;
use fort_threads_law_tables::{tabled_has_the_prelude, tabled_is_same};
use fort_threads_law_thrown::{thrown_are_exceptions, throws_finely};
use fort_threads_law_whole::each_run_is_threaded;

/// Takes the types whose meaning is written here.
pub fn unread(_program: &Program, _journal: &Journal) {}

/// In a sound and complete program whose tables have the prelude, each run is one of the machine
/// with threads.
pub fn sound_runs_are_threaded()
    ensures { SoundRunsAreThreaded }
{
    written_is_bare();
    tabled_has_the_prelude();
    tabled_is_same();
    throws_finely();
    thrown_are_exceptions();
    each_run_is_threaded();
}
