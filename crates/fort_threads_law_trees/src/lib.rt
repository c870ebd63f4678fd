//! The laws of the servers of the prelude's `for` together: what a pick is to them, and who of them
//! is awake.
//!
//! The chapter "The machine with threads" of docs/MACHINE.md. Nothing is computed here. Each function
//! names a law by its clause and does nothing.
#![tactic(auto)]

ghost use Rattle.fort_threads_law_trees.specs.Laws.{EachPickChanges, FreeServersAreAwake, LeavesStandApart, TakersAreAwake, ThreadsAreAwake};

use fort_core::{Journal, Program};

/// Takes the types whose meaning is written here.
pub fn unread(_program: &Program, _journal: &Journal) {}

/// Each pick of the servers' tree calls one of them, is one of theirs, or leaves some that are done.
pub fn each_pick_changes()
    ensures { EachPickChanges }
{}

/// Who is awake in the term of a thread that a server runs is awake in the root's term.
pub fn threads_are_awake()
    ensures { ThreadsAreAwake }
{}

/// Where a thread is in the queue and a server is free, somebody is awake who is no such thread.
pub fn free_servers_are_awake()
    ensures { FreeServersAreAwake }
{}

/// So is a server that has taken a thread and not begun it.
pub fn takers_are_awake()
    ensures { TakersAreAwake }
{}

/// The paths of two servers aren't one behind the other.
pub fn leaves_stand_apart()
    ensures { LeavesStandApart }
{}
