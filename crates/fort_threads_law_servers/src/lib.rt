//! The laws of the servers of the prelude: each runs one thread, as that thread goes alone.
//!
//! The machine runs a component with spawned threads as the one that it is rewritten to, in which
//! 64 servers take the threads from a queue. What a server does there, pick by pick: the chapters
//! "The machine with threads" of docs/MACHINE.md and "Threads that are spawned" of
//! docs/LANGUAGE.md.
//!
//! Nothing is computed here. Each function names a law by its clause and does nothing.
#![tactic(auto)]

ghost use Rattle.fort_threads_law_servers.specs.Calls.{EachCallFollows};
ghost use Rattle.fort_threads_law_servers.specs.Few.{FewServers};
ghost use Rattle.fort_threads_law_servers.specs.Lifetimes.{ServesOneLife};
ghost use Rattle.fort_threads_law_servers.specs.Queue.{AddsAThread, TakesTheFirst, WaitsForTheMark};
ghost use Rattle.fort_threads_law_servers.specs.Roots.{EachRunIsServed};
ghost use Rattle.fort_threads_law_servers.specs.Servers.{EachPickFollows, MarksAnEnd, MarksItsThread};

use fort_core::{Journal, Program};

/// Takes the types whose meaning is written here.
pub fn unread(_program: &Program, _journal: &Journal) {}

/// Each pick of a server, on whatever store it comes to, leads from its stage to one that follows:
/// in the stage in which it runs a thread the pick is one of that thread alone.
pub fn each_pick_follows()
    ensures { EachPickFollows }
{}

/// What a server marks, from its call on, is the end to which a thread came: some function was
/// applied to `()`, and by picks of its own came to that end.
pub fn marks_an_end()
    ensures { MarksAnEnd }
{}

/// Where `go'` was called with an object, it is marked there, and with that thread's end.
pub fn marks_its_thread()
    ensures { MarksItsThread }
{}

/// From its call on a server runs at most one thread, whose events are a life: it begins before all
/// else, takes picks, and ends behind all else.
pub fn serves_one_life()
    ensures { ServesOneLife }
{}

/// An attempt of `spawn'` completes only where fewer than 64 threads stand, and adds its thread
/// before the first one of the queue: one more stands, and one more has not ended.
pub fn adds_a_thread()
    ensures { AddsAThread }
{}

/// An attempt of `take'` that completed at a thread took the first one of the queue, and left there
/// what stood behind it.
pub fn takes_the_first()
    ensures { TakesTheFirst }
{}

/// An attempt of `wait` completes only where the thread's mark isn't 0.
pub fn waits_for_the_mark()
    ensures { WaitsForTheMark }
{}

/// Each pick of the body of `spawn'`, `wait`, `val` or `ready`, on whatever store it comes to in
/// which marks are small, leads from its place to one that follows.
pub fn each_call_follows()
    ensures { EachCallFollows }
{}

/// Each run of a program with the prelude is `main'` round `go'`, which runs the component's own
/// `run`, and round servers: each pick is one of these or the prelude's own, and each server came
/// to its stage from its call on, stage by stage.
pub fn each_run_is_served()
    ensures { EachRunIsServed }
{}

/// At each time of such a run at most 64 servers stand beside `go'`, those among them that are yet
/// to be called.
pub fn few_servers()
    ensures { FewServers }
{}
