//! The machine with spawned threads, and its laws.
//!
//! What a run of a component with spawned threads is in words of threads: each begins and ends, and
//! has a term of its own. The chapter "The machine with threads" of docs/MACHINE.md, which
//! `specs/` restates.
//!
//! Nothing is computed here. Each function names a law by its clause and does nothing.
#![tactic(auto)]

ghost use Rattle.fort_threads.specs.Conservative.{IsConservative};
ghost use Rattle.fort_threads.specs.Kept.{BegunWereKept, UndoneAddNone};
ghost use Rattle.fort_threads.specs.Limits.{FewInside, FewStand};
ghost use Rattle.fort_threads.specs.Lives.{EachLivesOnce, FirstLivesOnce};
ghost use Rattle.fort_threads.specs.Lives.{NoneBeginsTwice, NothingFollows};
ghost use Rattle.fort_threads.specs.Objects.{ObjectsStandApart};
ghost use Rattle.fort_threads.specs.Worked.{SpawnsAndWaits};

use fort_core::{Journal, Program};

/// Takes the types whose meaning is written here.
pub fn unread(_program: &Program, _journal: &Journal) {}

/// Each thread that is spawned begins at most once in a run, takes its picks behind that, and ends
/// at most once, behind all its picks.
pub fn each_lives_once()
    ensures { EachLivesOnce }
{}

/// Thread 0 has begun from the start: it takes its picks, and ends at most once, behind them.
pub fn first_lives_once()
    ensures { FirstLivesOnce }
{}

/// No thread begins twice in a run.
pub fn none_begins_twice()
    ensures { NoneBeginsTwice }
{}

/// At each time of a run at most 64 threads stand beside thread 0.
pub fn few_stand()
    ensures { FewStand }
{}

/// Inside attempts too at most 64 threads stand beside thread 0, those that the attempts added
/// among them.
pub fn few_inside()
    ensures { FewInside }
{}

/// An attempt that failed or was aborted adds no threads, whatever its inner run added.
pub fn undone_add_none()
    ensures { UndoneAddNone }
{}

/// Each thread that begins in a run was spawned before by a step that no failed and no aborted
/// attempt had in it, at any depth: what such an attempt adds never begins.
pub fn begun_were_kept()
    ensures { BegunWereKept }
{}

/// The runs of a program that has none of the prelude's declarations are those of the machine:
/// thread 0 alone takes its picks, with the same effect and the same end.
pub fn is_conservative()
    ensures { IsConservative }
{}

/// No two of the threads that stand at a time of a run have one object.
pub fn objects_stand_apart()
    ensures { ObjectsStandApart }
{}

/// Where all threads have ended, nothing more happens.
pub fn nothing_follows()
    ensures { NothingFollows }
{}

/// A worked run: one thread is spawned, begins, ends, and is waited for; both threads end at `()`.
pub fn spawns_and_waits()
    ensures { SpawnsAndWaits }
{}
