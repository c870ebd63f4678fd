//! What a worker has in hand: a task that was lent, and a leg of it.
use fort_base::Shared;
use fort_core::{Path, Term};
use fort_hall_books::Leg;
use fort_hall_forms::AtForm;
use fort_store_effects::Layers;

/// A task that is lent: its part of its book's term, and the store to which the book had come.
#[derive(Drop)]
pub struct State {
    /// The task's number in its book.
    pub task: u64,
    /// Whether the book's machine is an attempt's.
    pub inner: bool,
    /// The task's path in the book's term.
    pub path: Path,
    pub part: Shared<Term>,
    /// The store, with no attempt open.
    pub view: Shared<Layers>,
    /// What the book may still cost.
    pub left: u64,
    /// What a leg of the task may cost.
    pub slice: u64,
    /// The number of attempts round the task.
    pub depth: u32,
    /// The atomic form of the part of which an attempt is to be opened, if one is.
    pub form: Option<AtForm>,
}

/// A leg of a task, by its number.
#[derive(Drop)]
pub struct TaskLeg {
    pub task: u64,
    pub leg: Leg,
}

/// What a book lets go with a leg: the term that it had, or a leg that doesn't fit.
#[derive(Drop)]
pub enum Waste {
    Term(Shared<Term>),
    Leg(Leg),
}
