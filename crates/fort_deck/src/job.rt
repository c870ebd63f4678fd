//! What lies in a deck.
use fort_base::{BookId, TaskId};

/// A task of a book that some worker may take up.
#[derive(Clone, Copy, Debug, PartialEq, Eq)]
pub struct Job {
    pub book: BookId,
    pub task: TaskId,
}
