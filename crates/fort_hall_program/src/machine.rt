//! The machine.
ghost use Rattle.std.specs.Prelude.{◌≡◌, ℕ, ◌==◌, ◌&&◌, ◌-◌, ◌<◌, ◌≤◌, [], take, drop, length, IfOk, IfSome};
ghost use Rattle.fort_core.specs.declared.program.Program.{Program as a_program};
ghost use Rattle.fort_hall_law_books.specs.Books.{Origin as an_origin};
ghost use Rattle.fort_hall_program.specs.Machines.{IsMachine};

use crate::advance::{advance, point_of};
use crate::attempt::{begin, finish};
use crate::book::TaskBook;
use crate::lend::lend;
use crate::state::{State, TaskLeg, Waste};
use crate::submit::submit;
use fort_base::{Memory, Shared};
use fort_core::Term;
use fort_disp::Tables;
use fort_hall_machine::{Found, Machine, Made, Room, Submitted};
use fort_port::Gate;
use fort_store_effects::Layers;
use std::alloc::Global;
use std::marker::{Brand, Model, PhantomData};
use std::mem;

/// Which program it is, where the root's book begins, and what it may cost. Each call of a hall
/// picks it.
pub trait Naming {
    ghost program: { a_program };

    ghost start: { an_origin };

    ghost most: { ℕ };
}

/// A caller that knows none of it before picks it at the call.
impl Naming for Brand {
    ghost use Rattle.fort_machine.specs.Worked.{hello};
    ghost use Rattle.fort_hall_law_books.specs.Books.{root_of};

    ghost program = { hello };

    ghost start = { root_of hello };

    ghost most = { 0 };
}

/// What a machine is told beside its form.
#[derive(Clone, Copy, Debug, PartialEq, Eq)]
pub struct Setting {
    /// Whether the form stands in an attempt's machine.
    pub inner: bool,
    /// What all legs and attempts may cost together.
    pub most: u64,
    /// Where new locations begin in each worker's range of 2^50 numbers, modulo 2^50: a hall that
    /// follows another one over the same store begins behind it, so that no number is given twice.
    pub base: u64,
}

/// A form of a program, whose threads go on in a hall, over a store that stays as it is.
#[derive(Drop)]
pub struct TermMachine<'a, J: Naming, G: Gate> {
    alloc: Global,
    tables: &'a Tables<'a>,
    gate: &'a G,
    inner: bool,
    view: Shared<Layers>,
    first: Shared<Term>,
    most: u64,
    base: u64,
    of: PhantomData<J>,
}

impl<'a, J: Naming, G: Gate> Model for TermMachine<'a, J, G> {
    ghost use Rattle.fort_hall_program.specs.Machines.{IsMachine};

    ghost Value = { Unit {0} };

    ghost view = { λ m. tt };

    ghost invariant = { λ m. IsMachine J.program J.start J.most m.tables.now m.inner m.view
        m.first m.most };
}

impl<'a, J: Naming, G: Gate> TermMachine<'a, J, G> {
    /// The machine of a form on the store that layers show. The gate is told of each leg where it
    /// begins, also of one that then finds no step.
    pub fn new(
        alloc: Global,
        tables: &'a Tables<'a>,
        gate: &'a G,
        view: Shared<Layers>,
        first: Shared<Term>,
        setting: Setting,
    ) -> TermMachine<'a, J, G>
        requires { IsMachine J.program J.start J.most tables.now setting.inner view first setting.most }
    {
        let Setting { inner, most, base } = setting;
        TermMachine {
            alloc,
            tables,
            gate,
            inner,
            view,
            first,
            most,
            base,
            of: PhantomData,
        }
    }
}

impl<'a, J: Naming, G: Gate> Machine for TermMachine<'a, J, G> {
    ghost use Rattle.std.specs.Prelude.{◌≡◌, ◌==◌, ◌&&◌};
    ghost use Rattle.fort_hall_books.specs.declared.book.Entry.{Entry as AnEntry};
    ghost use Rattle.fort_hall_law_books.specs.Books.{Origin as AnOrigin};
    ghost use Rattle.fort_hall_books.specs.Books.{did, origin_of};
    ghost use Rattle.fort_hall_program.specs.States.{IsBookOf, IsGood, IsLegOfTask, form_of, pass_of};
    ghost use Rattle.fort_hall_program.specs.Laws.{grows};

    type Book = TaskBook;

    type State = State;

    type Leg = TaskLeg;

    type Waste = Waste;

    ghost Entry = { AnEntry };

    ghost Origin = { AnOrigin };

    ghost by = { pass_of };

    ghost start = { J.start };

    ghost origin = { λ b. origin_of b.book };

    ghost history = { λ b. b.book.entries };

    ghost output = { λ b. (did b.book).output };

    ghost ended = { λ b. (b.tasks.free == 0) && (b.tasks.lent == 0) };

    ghost keeps = { IsBookOf J.program J.most };

    ghost good = { IsGood J.program J.most };

    ghost form = { form_of J.start };

    ghost is_leg = { IsLegOfTask J.program };

    fn root(&self) -> Result<TaskBook, Memory> {
        let view = self.view.share()?;
        let first = self.first.share()?;
        TaskBook::new(self.alloc, self.inner, view, first, self.most, 0)
    }

    #[tactic(auto, using(crate::proofs::Machines::own_book, crate::proofs::Machines::own_one, crate::proofs::Machines::named_book, crate::proofs::Machines::named_found))]
    fn checkout(&self, book: &mut TaskBook, task: u64) -> Result<Found<State>, Memory> {
        lend(self.alloc, self.tables.program, self.most, book, task)
    }

    #[tactic(auto, using(crate::proofs::Submitting::kept_still))]
    fn put_back(&self, book: &mut TaskBook, task: u64) {
        let legs = book.book.len();
        book.tasks.rest(task, legs);
    }

    #[tactic(auto, using(crate::proofs::Submitting::kept_still))]
    fn leave(&self, book: &mut TaskBook, task: u64) {
        let legs = book.book.len();
        book.tasks.leave(task, legs);
    }

    #[tactic(auto, using(crate::proofs::Machines::own_state, crate::proofs::Machines::own_written, crate::proofs::Machines::named_made))]
    fn advance(&self, state: State, room: Room) -> Result<(Made<TaskLeg, State>, u64), Memory> {
        self.gate.at(point_of(&state, room.worker));
        advance(self.alloc, self.tables, self.most, self.base, state, room)
    }

    #[tactic(auto, using(crate::proofs::Machines::own_book, crate::proofs::Machines::own_one, crate::proofs::Machines::own_leg, crate::proofs::Machines::named_book, crate::proofs::Machines::named_submitted))]
    fn submit(
        &self,
        book: &mut TaskBook,
        leg: TaskLeg,
        pass: u64,
        wanted: u32,
    ) -> Result<(Submitted<State>, Waste), Memory> {
        submit(
            self.alloc,
            self.tables.program,
            self.most,
            book,
            leg,
            pass,
            wanted,
        )
    }

    fn look(&self, book: &TaskBook, from: u64) -> Option<u64> {
        book.tasks.next_free(from)
    }

    fn ended(&self, book: &TaskBook) -> bool {
        book.tasks.have_ended()
    }

    fn length(book: &TaskBook) -> u64
        ensures { result ≡ length book.now.book.entries }
    {
        book.book.len() as u64
    }

    #[tactic(auto, using(crate::proofs::Machines::own_state, crate::proofs::Machines::own_written))]
    fn begin(&self, at: &State) -> Result<TaskBook, Memory> {
        match &at.form {
            None => self.root(),
            Some(form) => begin(self.alloc, self.tables.program, self.most, at, form),
        }
    }

    #[tactic(auto, using(crate::proofs::Machines::own_finish_good, crate::proofs::Machines::finish_origin, crate::proofs::Machines::own_book, crate::proofs::Machines::named_finished))]
    fn finish(&self, at: State, book: TaskBook) -> Result<Option<TaskLeg>, Memory> {
        let mut at = at;
        match mem::replace(&mut at.form, None) {
            None => Ok(None),
            Some(form) => finish(self.alloc, self.tables.program, self.most, at, form, book),
        }
    }

    #[tactic(auto, using(crate::proofs::Machines::more_behind))]
    fn output_at(&self, book: &TaskBook, from: u64, into: &mut [u8]) -> usize {
        let bytes = book.book.done().output();
        copy_front(rest_from(bytes, from), into)
    }

    ghost grows = { grows J.program J.most };
}

// The bytes from a place on, none where there are none.
#[tactic(auto, using(std::proofs::lemmas::List::drop_min))]
fn rest_from(bytes: &[u8], from: u64) -> &[u8]
    ensures { result.now ≡ drop from bytes.now }
{
    &bytes[(from as usize).min(bytes.len())..]
}

// Copies the first bytes, as many as fit, and says how many.
fn copy_front(rest: &[u8], into: &mut [u8]) -> usize
    ensures fits { result ≤ length into.old }
    ensures some { 0 < length into.old → 0 < length rest.now → 0 < result }
    ensures copied { take result into.new ≡ take result rest.now }
{
    let count = rest.len().min(into.len());
    into[..count].copy_from_slice(&rest[..count]);
    count
}
