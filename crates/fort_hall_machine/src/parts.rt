//! What a machine is told, and what it answers.

/// What a book has for who asks for a task.
#[derive(Drop)]
pub enum Found<S> {
    /// A state of which legs can be made.
    Runs(S),
    /// A state that stands at an atomic form: an attempt of it is to be opened.
    Form(S),
    /// Nothing: the task has ended, waits, sleeps, was left, or another worker has it.
    Nothing,
}

/// What became of a state.
#[derive(Drop)]
pub enum Made<L, S> {
    /// A leg, for the book from which the state came.
    Leg(L),
    /// The state stands at an atomic form: an attempt of it is to be opened.
    Form(S),
    /// Nothing. The hall puts the task back.
    Nothing,
}

/// What a worker may use for a leg.
#[derive(Drop, Clone, Copy, Debug, PartialEq, Eq)]
pub struct Room {
    /// The first number for new locations. No other worker of the run is told a number of this
    /// worker's range, of 2^50 numbers, nor was this worker told a number from here on before.
    pub from: u64,
    /// What the leg may cost.
    pub most: u64,
    /// The worker's number, counted from 0.
    pub worker: u32,
}

/// What a leg that was appended leaves to do.
#[derive(Drop)]
pub struct After<S> {
    /// The task with which this worker goes on, and what the book has for it: it is lent on. It
    /// need not be the task of the leg.
    pub next: Option<(u64, Found<S>)>,
    /// The first of the new tasks, which have numbers in a row.
    pub first: u64,
    /// How many new tasks there are for other workers.
    pub count: u64,
    /// Whether tasks that had been there may be lent again, since a sleeper woke or a task that
    /// waited goes on: who looks for work will look again.
    pub woken: bool,
}

/// What a book answers to a leg.
#[derive(Drop)]
pub enum Submitted<S> {
    /// The leg was appended, as one entry.
    Done(After<S>),
    /// It doesn't fit any more, and nothing was appended. Its task is lent on, with the state that
    /// it has now; or nothing is lent.
    Stale(Option<(u64, Found<S>)>),
    /// The book has ended or hasn't that task any more. Nothing was appended, and nothing is lent.
    Gone,
}
