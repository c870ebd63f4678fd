//! A leg is taken in, and a book is closed.
ghost use Rattle.std.specs.Prelude.{◌≡◌, ◌↔◌, ◌+◌, ◌≤◌, Some, IfOk, IsTrue, MatchOption, OnErr};
ghost use Rattle.fort_machine.specs.Effects.{afterwards};
ghost use Rattle.fort_store_effects.specs.Levels.{effect_of, levels_of, seen};
ghost use Rattle.fort_hall_law_books.specs.Puts.{IsPut};
ghost use Rattle.fort_hall_books.specs.Legs.{AllThere, IsLegOf};
ghost use Rattle.fort_hall_books.specs.Books.{IsClosed, IsKept, IsSame, picks_of};
ghost use Rattle.fort_hall_books.specs.Answers.{Appends, HasAnswered, HasCause, IsAsleep, Stays, Suits};

use crate::book::{Book, Closed, Entry};
use crate::leg::{Answer, Cause, Kind, Leg};
use fort_base::{List, Loc, Memory, Shared};
use fort_core::{Pick, Program, Term, Value};
use fort_store_effects::{Layer, Layers};
use fort_walk_legs::all_under;
use std::alloc::Global;
use std::mem;

impl Book {
    /// A leg is appended where it suits the book, as one entry that names the pass; else it is
    /// handed back. `whole` is the book's term with what the leg's part has become in its place.
    ///
    /// # Errors
    ///
    /// `Memory` where memory is wanting. The leg is let go, and the book is as it was.
    pub fn submit(
        &mut self,
        alloc: Global,
        program: &Program,
        leg: Leg,
        whole: Shared<Term>,
        pass: u64,
    ) -> Result<Answer, Memory>
        requires kept { IsKept program.now self.old }
        requires leg { IsLegOf program.now leg }
        requires put { IsPut self.old.term leg.path.0 leg.part leg.term whole }
        ensures kept { IsKept program.now self.new }
        ensures same { IsSame self.old self.new }
        ensures answered { HasAnswered leg pass whole self.old result self.new }
    {
        if let Some(cause) = self.cause(&leg) {
            return Ok(Answer::Stale(cause, leg));
        }
        Ok(Answer::Done(self.append(alloc, program, leg, whole, pass)?))
    }

    // Why a leg doesn't suit, if it doesn't.
    #[tactic(auto, using(crate::proofs::Suits::too_dear))]
    fn cause(&self, leg: &Leg) -> Option<Cause>
        ensures { MatchOption result (Suits self.now leg.now) (HasCause self.now leg.now) }
    {
        if leg.inner != self.inner {
            return Some(Cause::Machine);
        }
        if !affords(&self.done, &leg.done, self.most) {
            return Some(Cause::Cost);
        }
        if !self.done.admits(self.view.get(), &leg.done) {
            return Some(Cause::Store);
        }
        if sleeps(&self.done, self.view.get(), &leg.kind) {
            return Some(Cause::Asleep);
        }
        None
    }

    // A leg that suits is appended. The old term is handed out.
    fn append(
        &mut self,
        alloc: Global,
        program: &Program,
        leg: Leg,
        whole: Shared<Term>,
        pass: u64,
    ) -> Result<Shared<Term>, Memory>
        requires kept { IsKept program.now self.old }
        requires leg { IsLegOf program.now leg }
        requires put { IsPut self.old.term leg.path.0 leg.part leg.term whole }
        requires suits { Suits self.old leg }
        ensures kept { IsKept program.now self.new }
        ensures same { IsSame self.old self.new }
        ensures ok { IfOk result
            (λ before. Appends leg pass whole self.old self.new × (before ≡ self.old.term)) }
        ensures err { OnErr result (Stays self.old self.new) }
    {
        let _program = program;
        let _most = self.most;
        let Leg {
            inner: _inner,
            path,
            part: _part,
            kind: _kind,
            done: more,
            picks,
            term: _term,
        } = leg;
        let picks = all_under(alloc, &path, picks)?;
        self.entries.push(Entry { pass, picks })?;
        match self.done.append(more) {
            Ok(()) => Ok(mem::replace(&mut self.term, whole)),
            Err(wanting) => {
                self.entries.pop();
                Err(wanting)
            }
        }
    }

    /// All that it took in, as legs over its layers.
    ///
    /// # Errors
    ///
    /// `Memory` where memory is wanting.
    #[tactic(auto, using(crate::proofs::Books::closed))]
    pub fn close(self, alloc: Global, program: &Program) -> Result<Closed, Memory>
        requires { IsKept program.now self }
        ensures { IfOk result (IsClosed program.now self) }
    {
        let _program = program;
        let Book {
            inner: _inner,
            view,
            first: _first,
            most: _most,
            done,
            entries,
            term,
        } = self;
        let picks = in_a_row(alloc, entries)?;
        Ok(Closed {
            view,
            done,
            picks,
            term,
        })
    }
}

// Whether two layers together cost so much at most.
fn affords(done: &Layer, more: &Layer, most: u64) -> bool
    ensures { IsTrue result
        ↔ ((effect_of done.now).cost + (effect_of more.now).cost ≤ most) }
{
    match done.cost().checked_add(more.cost()) {
        None => false,
        Some(both) => both <= most,
    }
}

// Whether the form that was tried sleeps on the store behind what was done.
#[tactic(auto, using(crate::proofs::Suits::asleep_is))]
fn sleeps(done: &Layer, view: &Layers, kind: &Kind) -> bool
    ensures { IsTrue result
        ↔ IsAsleep kind.now (afterwards (effect_of done.now) (seen (levels_of view.now))) }
{
    match kind {
        Kind::Steps => false,
        Kind::Attempt(None) => false,
        Kind::Attempt(Some(marks)) => unchanged(done, view, marks),
    }
}

// Whether each of some marks has its value there.
fn unchanged(done: &Layer, view: &Layers, marks: &List<(Loc, Value)>) -> bool
    ensures { IsTrue result
        ↔ AllThere (afterwards (effect_of done.now) (seen (levels_of view.now))) marks.now }
{
    for mark in marks.as_slice() {
        if !has(done, view, mark.0, &mark.1) {
            return false;
        }
    }
    true
}

// Whether a location has this value there.
fn has(done: &Layer, view: &Layers, loc: Loc, value: &Value) -> bool
    ensures { IsTrue result
        ↔ (afterwards (effect_of done.now) (seen (levels_of view.now)) loc.0 ≡ Some value.now) }
{
    match done.look(view, loc) {
        None => false,
        Some(found) => found.same(value),
    }
}

// The picks of entries.
#[tactic(auto, using(crate::proofs::Books::one_behind))]
fn in_a_row(alloc: Global, entries: List<Entry>) -> Result<List<Pick>, Memory>
    ensures { IfOk result (λ picks. picks ≡ picks_of entries) }
{
    let mut all = List::new(alloc);
    for entry in entries.into_vec() {
        all.append(entry.picks)?;
    }
    Ok(all)
}
