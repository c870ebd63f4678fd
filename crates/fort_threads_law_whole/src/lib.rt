//! The law that each run of a component with spawned threads is one of the machine with threads, with
//! the same output.
//!
//! The chapter "The machine with threads" of docs/MACHINE.md. Nothing is computed here. Each function
//! names a law by its clause and does nothing.
#![tactic(auto)]

ghost use Rattle.fort_threads_law_whole.specs.Early.{AllBegins, EarlyGoesOn};
ghost use Rattle.fort_threads_law_whole.specs.Picks.{FirstGoesOn, FirstMayGo, FirstThreadGoesOn, ServersGoOn, ThreadsGoOn, ThreadsMayGo};
ghost use Rattle.fort_threads_law_whole.specs.Whole.{EachRunIsThreaded};

use fort_core::{Journal, Program};

/// Takes the types whose meaning is written here.
pub fn unread(_program: &Program, _journal: &Journal) {}

/// By a pick of a server that is none of a thread, all goes on alike.
pub fn servers_go_on()
    ensures { ServersGoOn }
{}

/// And so by one of `go'`.
pub fn first_goes_on()
    ensures { FirstGoesOn }
{}

/// By a pick of a thread that a server runs, all goes on alike.
pub fn threads_go_on()
    ensures { ThreadsGoOn }
{}

/// And so by one of the thread that `go'` runs.
pub fn first_thread_goes_on()
    ensures { FirstThreadGoesOn }
{}

/// The pick of a thread by the root's machine may go.
pub fn threads_may_go()
    ensures { ThreadsMayGo }
{}

/// And so that of the thread that `go'` runs.
pub fn first_may_go()
    ensures { FirstMayGo }
{}

/// Before servers stand there, the machine's first pick alone is one of the machine with threads.
pub fn early_goes_on()
    ensures { EarlyGoesOn }
{}

/// Once the first object is there, all goes on alike.
pub fn all_begins()
    ensures { AllBegins }
{}

/// Each run of a program with spawned threads is one of the machine with threads, with the same
/// output; and it ends as all threads do.
pub fn each_run_is_threaded()
    ensures { EachRunIsThreaded }
{}
