//! What a call's words and files lead to: something to say, or a program to run.
use crate::answer::Answer;
use fort_core::Program;

/// What is written of a run.
#[derive(Clone, Copy, Debug, PartialEq, Eq)]
pub(crate) enum Written {
    /// What it prints, while it goes on.
    Output,
    /// Its record, once it has ended.
    Record,
}

/// A program to run with a fuel, by so many workers, and what is to be written of the run.
#[derive(Drop)]
pub(crate) struct Task {
    pub program: Program,
    pub workers: u32,
    pub fuel: u64,
    pub writes: Written,
}

/// What a call means: to say something, or to run a program and tell its run.
#[derive(Drop)]
pub(crate) enum Meant {
    Says(Answer),
    Runs(Task),
}
