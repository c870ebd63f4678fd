//! A run behind one pointer.
ghost use Rattle.std.specs.Prelude.{◌≡◌, ◌≢◌, ◌+◌, [], nat_le, IfOk, IsTrue, MatchOption};
ghost use Rattle.std.specs.Option.{option_copied};
ghost use Rattle.fort_store_effects.specs.Levels.{levels_of, seen};
ghost use Rattle.fort_walk_course.specs.Courses.{around};
ghost use Rattle.fort_walk_course.specs.Calls.{KeepsForm};

use crate::course::Course;
use fort_base::{Boxed, Loc, Memory};
use fort_core::Value;
use fort_store_effects::Account;
use std::alloc::Global;
use std::marker::Model;

/// A course behind one pointer, which contracts see as the course, so that it is handed on in one
/// word. Who lets one go calls this type's `drop`, which is proved here once for all crates above.
pub struct Execution {
    inner: Boxed<Course>,
}

impl Model for Execution {
    ghost use Rattle.std.specs.Coded.{codes};
    ghost use Rattle.fort_walk_course.specs.contracts.course.Course as held;
    ghost use Rattle.fort_walk_course.specs.declared.course.Course.{Course as a_course};

    ghost Value = { a_course };

    ghost coded = { Prim.hlevel (codes, held.the_row.coded) };

    ghost view = { λ run. run.inner };
}

impl Drop for Execution {
    fn drop(self) {
        let Execution { inner: _inner } = self;
    }
}

impl Execution {
    ghost use Rattle.std.specs.Borrow.{Lends, sem};
    ghost use Rattle.fort_walk_course.specs.contracts.execution.Execution.{the_row};
    ghost use Rattle.fort_walk_course.specs.contracts.course.Course.{the_row as course_row};

    /// Puts a course behind a pointer.
    ///
    /// # Errors
    ///
    /// `Memory` where memory is wanting; the course is let go.
    pub(crate) fn of(alloc: Global, course: Course) -> Result<Execution, Memory>
        ensures { IfOk result (λ run. run ≡ course) }
    {
        let inner = Boxed::new(alloc, course)?;
        Ok(Execution { inner })
    }

    /// The course, lent.
    pub fn get(&self) -> &Course
        ensures { result.now ≡ self.now }
    {
        self.inner.get()
    }

    // The course, to change it in its place.
    pub(crate) fn get_mut(&mut self) -> &mut Course
        ensures* writes_back { sem 𝓛 (Lends the_row course_row self.entry result (λ w. w)) }
        ensures value { result.now ≡ self.old }
    {
        self.inner.get_mut()
    }

    // The course; the pointer's memory is given back.
    pub(crate) fn into_course(self) -> Course
        ensures { result ≡ self }
    {
        let Execution { inner } = self;
        inner.into_inner()
    }

    /// The clock of all machines.
    pub fn clock(&self) -> u64
        ensures { result ≡ self.now.clock }
    {
        self.get().clock
    }

    /// The lowest number above those of all locations, which is 2 to the 64 where the location
    /// before it is there.
    pub fn fresh(&self) -> u128
        ensures { result ≡ self.now.fresh }
    {
        self.get().fresh
    }

    /// What the run has cost so far, each open attempt 1 besides.
    pub fn spent(&self) -> u64
        ensures { result ≡ self.now.spent }
    {
        self.get().spent
    }

    /// The value at a location as the innermost machine sees it, if the location is there.
    pub fn look(&self, loc: Loc) -> Option<&Value>
        ensures { option_copied result ≡ seen (levels_of self.now.layers) loc.0 }
    {
        self.get().look(loc)
    }

    /// Whether the fuel covers a cost.
    pub fn affords(&self, cost: u64) -> bool
        ensures { result ≡ nat_le (self.now.spent + cost) self.now.fuel }
    {
        self.get().affords(cost)
    }

    /// In an attempt's machine, how many picks the thread that waits for it took in its turn;
    /// nothing in the root's.
    pub fn turn(&self) -> Option<u32>
        ensures { MatchOption result (self.now.outer ≡ []) (λ _. self.now.outer ≢ []) }
    {
        self.get().turn()
    }

    /// Whether the innermost machine is an attempt's that may be left, since it was begun with its
    /// form.
    pub fn keeps_form(&self) -> bool
        ensures { IsTrue result → KeepsForm (around self.now) }
    {
        self.get().keeps_form()
    }

    /// The same run with another fuel.
    pub fn with_fuel(self, fuel: u64) -> Execution
        ensures { result ≡ record self { fuel = fuel } }
    {
        let mut course = self;
        course.get_mut().fuel = fuel;
        course
    }

    /// What the root's run printed and cost, without the attempts that are open; it takes no
    /// memory.
    pub fn account(self) -> Account
        ensures output { result.output ≡ (levels_of self.layers).output }
        ensures cost { result.cost ≡ (levels_of self.layers).cost }
    {
        self.into_course().layers.account()
    }
}
