//! The book of the counters.
ghost use Rattle.std.specs.Prelude.{◌≡◌, ◌<◌, ◌≤◌, [], ◌∷◌, ◌++◌, length, slice_index, slice_set, true, IfOk, MatchResult};
ghost use Rattle.fort_hall_test_machine.specs.Runs.{Raises};

use fort_base::Memory;
use std::alloc::Global;
use std::snapshot::Snapshot;

/// One leg: the pass that appended it, the counter, and its values before and after.
#[derive(Drop, Clone, Copy, Debug, PartialEq, Eq)]
pub struct Entry {
    pub pass: u64,
    pub at: u64,
    pub from: u64,
    pub to: u64,
}

/// A task: how often it has still to raise its counter. It forks first, where it forks at all.
#[derive(Drop, Clone, Copy, Debug, PartialEq, Eq)]
pub struct Task {
    pub at: u64,
    pub left: u64,
    /// It raises in attempts, each of which has two tasks.
    pub tries: bool,
    pub forks: u64,
    /// Some worker has it.
    pub lent: bool,
}

/// How the counters began, what they are, the legs, and the tasks.
#[derive(Drop)]
pub struct Book {
    pub begun: Snapshot<Vec<u64>>,
    pub cells: Vec<u64>,
    pub legs: Vec<Entry>,
    pub tasks: Vec<Task>,
    /// How many tasks have something left.
    pub live: u64,
    pub depth: u32,
}

impl Book {
    /// Counters with one task, which has something left, and no leg.
    ///
    /// # Errors
    ///
    /// `Memory` where memory is wanting.
    pub fn new(alloc: Global, cells: Vec<u64>, task: Task, depth: u32) -> Result<Book, Memory>
        ensures { IfOk result (λ b. (b.begun.value.items ≡ cells.items)
            × (b.cells.items ≡ cells.items) × (b.legs.items ≡ [])) }
    {
        let mut tasks = Vec::new(alloc);
        tasks.push(task)?;
        Ok(Book {
            begun: Snapshot::of(&cells),
            cells,
            legs: Vec::new(alloc),
            tasks,
            live: 1,
            depth,
        })
    }

    /// Whether the counter has the value that the leg read.
    pub fn fits(&self, entry: Entry) -> bool
        requires { entry.from ≤ entry.to }
        ensures { result ≡ true → Raises self.now.cells.items entry }
    {
        let at = entry.at as usize;
        at < self.cells.len() && self.cells[at] == entry.from
    }

    /// Appends a leg.
    ///
    /// # Errors
    ///
    /// `Memory` where memory is wanting; the book is as it was.
    pub fn append(&mut self, entry: Entry) -> Result<(), Memory>
        requires { Raises self.old.cells.items entry }
        ensures begun { self.new.begun ≡ self.old.begun }
        ensures legs { MatchResult result
            (λ _. (self.new.legs.items ≡ self.old.legs.items ++ entry ∷ [])
            × (self.new.cells.items ≡ slice_set self.old.cells.items entry.at entry.to))
            (λ _. (self.new.legs.items ≡ self.old.legs.items)
            × (self.new.cells.items ≡ self.old.cells.items)) }
    {
        self.legs.push(entry)?;
        self.cells[entry.at as usize] = entry.to;
        Ok(())
    }

    /// New tasks, with numbers in a row, and the number of the first one.
    ///
    /// # Errors
    ///
    /// `Memory` where memory is wanting; some tasks may have been added.
    pub fn fork(&mut self, count: u64, task: Task) -> Result<u64, Memory>
        ensures { (self.new.begun ≡ self.old.begun) × (self.new.cells ≡ self.old.cells)
            × (self.new.legs ≡ self.old.legs) }
    {
        let first = self.tasks.len() as u64;
        self.live = self.live.saturating_add(count);
        add_tasks(&mut self.tasks, count, self.cells.len() as u64, task)?;
        Ok(first)
    }

    /// Marks whether a task is lent.
    pub fn lend(&mut self, n: usize, lent: bool)
        ensures { (self.new.begun ≡ self.old.begun) × (self.new.cells ≡ self.old.cells)
            × (self.new.legs ≡ self.old.legs) }
    {
        if n < self.tasks.len() {
            self.tasks[n].lent = lent;
        }
    }

    /// The task has raised its counter so often.
    pub fn go_on(&mut self, n: usize, raised: u64)
        ensures { (self.new.begun ≡ self.old.begun) × (self.new.cells ≡ self.old.cells)
            × (self.new.legs ≡ self.old.legs) }
    {
        if n < self.tasks.len() {
            let left = self.tasks[n].left.saturating_sub(raised);
            self.tasks[n].left = left;
            self.tasks[n].forks = 0;
            if left == 0 {
                self.live = self.live.saturating_sub(1);
            }
        }
    }

    /// Whether a task can be lent.
    pub fn is_free(&self, n: usize) -> bool
        ensures { result ≡ true → n < length self.now.tasks.items }
    {
        n < self.tasks.len() && !self.tasks[n].lent && self.tasks[n].left > 0
    }
}

// So many tasks like this one; of those of the root each has the next counter, and every second one
// tries.
fn add_tasks(tasks: &mut Vec<Task>, count: u64, cells: u64, like: Task) -> Result<(), Memory> {
    for i in 0..count {
        let mut task = like;
        if like.tries {
            task.at = i % cells.max(1);
            task.tries = i % 2 == 1;
        }
        tasks.push(task)?;
    }
    Ok(())
}
