//! The machine of the counters.
ghost use Rattle.std.specs.Prelude.{◌≡◌, ◌<◌, ◌≤◌, ◌++◌, List, ℕ, [], ◌∷◌, length, IfOk, IfSome, MatchResult};
ghost use Rattle.fort_hall_machine.specs.Words.{IsLent};
ghost use Rattle.fort_hall_test_machine.specs.Runs.{Raises, Runs, letters, four_zeros};

use crate::book::{Book, Entry, Task};
use fort_base::Memory;
use fort_hall_machine::{After, Found, Machine, Made, Room, Submitted};
use fort_port::{Gate, Point};
use std::alloc::Global;

/// Four counters. The root's task forks into so many tasks, each of which raises a counter so often.
#[derive(Drop)]
pub struct Counters<G: Gate + Drop> {
    pub alloc: Global,
    pub tasks: u64,
    pub times: u64,
    /// Whether every second task raises in attempts.
    pub tries: bool,
    /// A task whose attempts come to no end.
    pub lost: Option<u64>,
    pub gate: G,
}

/// A task that is lent, with the counters as they were.
#[derive(Drop)]
pub struct State {
    pub number: u64,
    pub task: Task,
    pub depth: u32,
    pub cells: Vec<u64>,
}

/// A leg of a task: how often it raised its counter, or into how many tasks it forks.
#[derive(Drop, Clone, Copy)]
pub struct Leg {
    pub number: u64,
    pub at: u64,
    pub from: u64,
    pub to: u64,
    pub raised: u64,
    pub forks: u64,
}

impl<G: Gate + Drop> Machine for Counters<G> {
    ghost use Rattle.std.specs.Prelude.{◌≡◌, ◌==◌, ◌<◌, ◌≤◌, List, ℕ, length};
    ghost use Rattle.fort_hall_test_machine.specs.declared.book.Entry.{Entry as It};
    ghost use Rattle.fort_hall_test_machine.specs.Runs.{Runs, letters, four_zeros};
    ghost use Rattle.fort_hall_test_machine.specs.Laws.{letters_grow};

    type Book = Book;

    type State = State;

    type Leg = Leg;

    type Waste = Leg;

    ghost Entry = { It };

    ghost Origin = { List ℕ };

    ghost by = { λ e. e.pass };

    ghost start = { four_zeros };

    ghost origin = { λ b. b.begun.value.items };

    ghost history = { λ b. b.legs.items };

    ghost output = { λ b. letters b.legs.items };

    ghost ended = { λ b. b.live == 0 };

    ghost keeps = { λ b. Runs b.begun.value.items b.legs.items b.cells.items };

    ghost good = { λ s. s.task.at < length s.cells.items };

    ghost form = { λ s. s.cells.items };

    ghost is_leg = { λ l. l.from ≤ l.to };

    fn root(&self) -> Result<Book, Memory> {
        let cells = vec![in self.alloc; 0u64; 4]?;
        let task = Task {
            at: 0,
            left: 1,
            tries: false,
            forks: self.tasks,
            lent: false,
        };
        Book::new(self.alloc, cells, task, 0)
    }

    fn checkout(&self, book: &mut Book, task: u64) -> Result<Found<State>, Memory> {
        let n = task as usize;
        if !book.is_free(n) {
            return Ok(Found::Nothing);
        }
        let it = book.tasks[n];
        if it.at as usize >= book.cells.len() {
            return Ok(Found::Nothing);
        }
        let cells = book.cells.clone()?;
        book.lend(n, true);
        let state = State {
            number: task,
            task: it,
            depth: book.depth,
            cells,
        };
        Ok(if it.tries {
            Found::Form(state)
        } else {
            Found::Runs(state)
        })
    }

    fn put_back(&self, book: &mut Book, task: u64) {
        book.lend(task as usize, false);
    }

    fn leave(&self, book: &mut Book, task: u64) {
        book.lend(task as usize, false);
        book.go_on(task as usize, u64::MAX);
    }

    fn advance(&self, state: State, room: Room) -> Result<(Made<Leg, State>, u64), Memory> {
        let State {
            number,
            task,
            depth,
            cells,
        } = state;
        self.gate.at(Point {
            worker: room.worker,
            depth,
            child: (number % 1000) as u32,
        });
        let from = cells[task.at as usize];
        let raised = task.left.min(room.most.max(1));
        let more = if task.forks > 0 { 0 } else { raised };
        let leg = Leg {
            number,
            at: task.at,
            from,
            to: from.saturating_add(more),
            raised,
            forks: task.forks,
        };
        Ok((Made::Leg(leg), room.from))
    }

    fn submit(
        &self,
        book: &mut Book,
        leg: Leg,
        pass: u64,
        _wanted: u32,
    ) -> Result<(Submitted<State>, Leg), Memory> {
        if book.live == 0 {
            return Ok((Submitted::Gone, leg));
        }
        book.lend(leg.number as usize, false);
        let entry = Entry {
            pass,
            at: leg.at,
            from: leg.from,
            to: leg.to,
        };
        if !book.fits(entry) {
            let found = self.checkout(book, leg.number)?;
            return Ok((Submitted::Stale(Some((leg.number, found))), leg));
        }
        let first = self.append(book, leg, entry)?;
        let after = self.what_is_left(book, leg, first);
        Ok((Submitted::Done(after), leg))
    }

    fn look(&self, book: &Book, from: u64) -> Option<u64> {
        let count = book.tasks.len();
        let start = from as usize % count.max(1);
        for n in start..count {
            if book.is_free(n) {
                return Some(n as u64);
            }
        }
        for n in 0..start {
            if book.is_free(n) {
                return Some(n as u64);
            }
        }
        None
    }

    fn ended(&self, book: &Book) -> bool {
        book.live == 0
    }

    fn length(book: &Book) -> u64 {
        book.legs.len() as u64
    }

    fn begin(&self, at: &State) -> Result<Book, Memory> {
        let cells = at.cells.clone()?;
        let task = Task {
            at: at.task.at,
            left: 1,
            tries: false,
            forks: 2,
            lent: false,
        };
        Book::new(self.alloc, cells, task, at.depth.saturating_add(1))
    }

    #[tactic(auto, using(crate::proofs::Raising::runs_long))]
    fn finish(&self, at: State, book: Book) -> Result<Option<Leg>, Memory> {
        if self.lost == Some(at.number) {
            return Ok(None);
        }
        let i = at.task.at as usize;
        Ok(Some(Leg {
            number: at.number,
            at: at.task.at,
            from: at.cells[i],
            to: book.cells[i],
            raised: 1,
            forks: 0,
        }))
    }

    #[tactic(auto, using(crate::proofs::Raising::letter_at, crate::proofs::Raising::front_set))]
    fn output_at(&self, book: &Book, from: u64, into: &mut [u8]) -> usize {
        let n = from as usize;
        if into.is_empty() || n >= book.legs.len() {
            return 0;
        }
        into[0] = 48 + (book.legs[n].to % 10) as u8;
        1
    }

    ghost grows = { λ a b ka kb o p. letters_grow a.legs.items b.legs.items p };
}

impl<G: Gate + Drop> Counters<G> {
    // Appends a leg, and makes the tasks into which it forks. It answers the first one's number.
    #[tactic(auto, using(crate::proofs::Raising::runs_on))]
    fn append(&self, book: &mut Book, leg: Leg, entry: Entry) -> Result<u64, Memory>
        requires keeps { Runs book.old.begun.value.items book.old.legs.items book.old.cells.items }
        requires fits { Raises book.old.cells.items entry }
        ensures keeps { Runs book.new.begun.value.items book.new.legs.items book.new.cells.items }
        ensures begun { book.new.begun ≡ book.old.begun }
        ensures legs { MatchResult result (λ _. book.new.legs.items ≡ book.old.legs.items ++ entry ∷ [])
            (λ _. book.new.legs.items ≡ book.old.legs.items) }
    {
        let first = self.fork(book, leg)?;
        book.append(entry)?;
        book.go_on(leg.number as usize, leg.raised);
        Ok(first)
    }

    // The tasks into which a leg forks.
    fn fork(&self, book: &mut Book, leg: Leg) -> Result<u64, Memory>
        ensures { (book.new.begun ≡ book.old.begun) × (book.new.cells ≡ book.old.cells)
            × (book.new.legs ≡ book.old.legs) }
    {
        let inner = book.depth > 0;
        let task = Task {
            at: leg.at,
            left: if inner { 1 } else { self.times },
            tries: !inner && self.tries,
            forks: 0,
            lent: false,
        };
        book.fork(leg.forks, task)
    }

    // What a leg leaves to do: its task goes on, or the first of its new ones does and the others
    // are offered.
    fn what_is_left(&self, book: &mut Book, leg: Leg, first: u64) -> After<State>
        requires { Runs book.old.begun.value.items book.old.legs.items book.old.cells.items }
        ensures keeps { Runs book.new.begun.value.items book.new.legs.items book.new.cells.items }
        ensures same { (book.new.begun.value.items ≡ book.old.begun.value.items)
            × (book.new.legs.items ≡ book.old.legs.items) }
        ensures good { IsLent (λ s. s.task.at < length s.cells.items) result.next }
    {
        if leg.forks > 0 {
            let next = self.lend_on(book, first);
            After {
                woken: next.is_none(),
                next,
                first: first.wrapping_add(1),
                count: leg.forks - 1,
            }
        } else {
            let next = self.lend_on(book, leg.number);
            After {
                woken: next.is_none(),
                next,
                first: 0,
                count: 0,
            }
        }
    }

    // This task is lent on where it can be.
    fn lend_on(&self, book: &mut Book, task: u64) -> Option<(u64, Found<State>)>
        requires { Runs book.old.begun.value.items book.old.legs.items book.old.cells.items }
        ensures keeps { Runs book.new.begun.value.items book.new.legs.items book.new.cells.items }
        ensures same { (book.new.begun.value.items ≡ book.old.begun.value.items)
            × (book.new.legs.items ≡ book.old.legs.items) }
        ensures good { IsLent (λ s. s.task.at < length s.cells.items) result }
    {
        match self.checkout(book, task) {
            Ok(Found::Nothing) => None,
            Ok(found) => Some((task, found)),
            Err(Memory) => None,
        }
    }
}
