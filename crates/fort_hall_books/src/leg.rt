//! A leg, and what a book answers to it.

use fort_base::{List, Loc, Shared};
use fort_core::{Path, Pick, Term, Value};
use fort_store_effects::Layer;

/// How a leg was taken.
#[derive(Drop)]
pub enum Kind {
    /// By steps of the part's threads.
    Steps,
    /// By one attempt of an atomic form; with the marks of the form, if it slept before.
    Attempt(Option<List<(Loc, Value)>>),
}

/// What a task did beside its book, which it names.
#[derive(Drop)]
pub struct Leg {
    /// Whether its machine is an attempt's.
    pub inner: bool,
    /// The path of the task.
    pub path: Path,
    /// The part of the book's term that stood there when the leg was begun.
    pub part: Shared<Term>,
    pub kind: Kind,
    /// Over what the leg saw.
    pub done: Layer,
    /// With paths that begin at the part.
    pub picks: List<Pick>,
    /// What the part has become.
    pub term: Shared<Term>,
}

/// Why a leg doesn't fit.
#[derive(Drop, Clone, Copy, Debug, PartialEq, Eq)]
pub enum Cause {
    /// It was taken in an attempt's machine and the book is the root's, or the other way round.
    Machine,
    /// With it the book would cost more than it may.
    Cost,
    /// At some location there isn't what it found there.
    Store,
    /// The form that it tried sleeps.
    Asleep,
}

/// What a book answers to a leg.
#[derive(Drop)]
pub enum Answer {
    /// The leg was appended, as one entry. Here is the term that the book had, to be let go outside
    /// the book's lock.
    Done(Shared<Term>),
    /// It doesn't fit, and is handed back.
    Stale(Cause, Leg),
}
