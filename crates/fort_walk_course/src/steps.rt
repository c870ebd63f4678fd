//! A step of the innermost machine.
ghost use Rattle.std.specs.Prelude.{◌≡◌, ◌+◌, ◌≤◌, ◌<◌, ◌^◌, IfOk, IsSome, Some, length};
ghost use Rattle.fort_machine.specs.Effects.{making, printed, reading, writing};
ghost use Rattle.fort_store_effects.specs.Levels.{levels_of, seen};
ghost use Rattle.fort_walk_course.specs.Courses.{StandsAt};
ghost use Rattle.fort_walk_course.specs.Calls.{MayStep, StepsTo};
ghost use Rattle.fort_walk_course.specs.Picked.{PicksStep};
ghost use Rattle.fort_store_effects.specs.Calls.{AreFree};

use crate::execution::Execution;
use fort_base::{Bytes, List, Loc, Memory, Shared};
use fort_core::{Pick, Program, Term, Value};
use fort_frames::Place;
use std::alloc::Global;

impl Execution {
    /// A step that prints a text, at a cost.
    ///
    /// # Errors
    ///
    /// `Memory` where memory is wanting.
    #[tactic(auto, using(crate::proofs::Stepped::known_spent))]
    pub fn print(
        self,
        alloc: Global,
        program: &Program,
        place: &Place,
        next: &Shared<Term>,
        text: Bytes,
        cost: u64,
    ) -> Result<Execution, Memory>
        requires may { MayStep program.now self place.now 0 next.now (printed text cost) }
        requires affords { self.spent + cost ≤ self.fuel }
        ensures stands { IfOk result (λ course. StandsAt program.now course place.now next.now) }
        ensures fuel { IfOk result (λ course. course.fuel ≡ self.fuel) }
        ensures picks { IfOk result (PicksStep self place.now 0) }
    {
        let _program = program;
        let _next = next;
        let mut course = self;
        let _room = course.get().with(cost);
        course.get_mut().layers.print(text, cost)?;
        course.stepped(alloc, place, Loc(0), cost)
    }

    /// A step that reads a location, in which is this value, at the cost of 1.
    ///
    /// # Errors
    ///
    /// `Memory` where memory is wanting.
    #[tactic(auto, using(crate::proofs::Stepped::known_spent))]
    pub fn read(
        self,
        alloc: Global,
        program: &Program,
        place: &Place,
        next: &Shared<Term>,
        loc: Loc,
        value: &Value,
    ) -> Result<Execution, Memory>
        requires may { MayStep program.now self place.now 0 next.now (reading loc.0 value.now) }
        requires there { seen (levels_of self.layers) loc.0 ≡ Some value.now }
        requires affords { self.spent + 1 ≤ self.fuel }
        ensures stands { IfOk result (λ course. StandsAt program.now course place.now next.now) }
        ensures fuel { IfOk result (λ course. course.fuel ≡ self.fuel) }
        ensures picks { IfOk result (PicksStep self place.now 0) }
    {
        let _program = program;
        let _next = next;
        let _value = value;
        let mut course = self;
        let _room = course.get().with(1);
        match course.get_mut().layers.read(loc)? {
            None => unreachable!(),
            Some(_read) => course.stepped(alloc, place, Loc(0), 1),
        }
    }

    /// A step that writes a value to a location that is there, at the cost of 1.
    ///
    /// # Errors
    ///
    /// `Memory` where memory is wanting.
    #[tactic(auto, using(crate::proofs::Stepped::known_spent))]
    pub fn write(
        self,
        alloc: Global,
        program: &Program,
        place: &Place,
        next: &Shared<Term>,
        loc: Loc,
        value: Value,
    ) -> Result<Execution, Memory>
        requires may { MayStep program.now self place.now 0 next.now (writing loc.0 value) }
        requires there { IsSome (seen (levels_of self.layers) loc.0) }
        requires affords { self.spent + 1 ≤ self.fuel }
        ensures stands { IfOk result (λ course. StandsAt program.now course place.now next.now) }
        ensures fuel { IfOk result (λ course. course.fuel ≡ self.fuel) }
        ensures picks { IfOk result (PicksStep self place.now 0) }
    {
        let _program = program;
        let _next = next;
        let mut course = self;
        let _room = course.get().with(1);
        if !course.get_mut().layers.write(loc, value)? {
            unreachable!()
        }
        course.stepped(alloc, place, Loc(0), 1)
    }

    /// A step that puts values into new locations, the first of which has the lowest number above
    /// all others, at a cost.
    ///
    /// # Errors
    ///
    /// `Memory` where memory is wanting.
    pub fn make(
        self,
        alloc: Global,
        program: &Program,
        place: &Place,
        next: &Shared<Term>,
        values: &List<Value>,
        cost: u64,
    ) -> Result<Execution, Memory>
        requires may { MayStep program.now self place.now self.fresh next.now
            (making self.fresh values.now cost) }
        requires first { self.fresh < 2 ^ 64 }
        requires bounded { self.fresh + length values.now ≤ 2 ^ 64 }
        requires affords { self.spent + cost ≤ self.fuel }
        ensures stands { IfOk result (λ course. StandsAt program.now course place.now next.now) }
        ensures fuel { IfOk result (λ course. course.fuel ≡ self.fuel) }
        ensures picks { IfOk result (PicksStep self place.now self.fresh) }
    {
        let first = Loc(self.fresh() as u64);
        self.make_at(alloc, program, place, next, values, first, cost)
    }

    /// The same from a location on, where none of the new ones is there; the last one may be that
    /// of the number 2 to the 64 less 1.
    ///
    /// # Errors
    ///
    /// `Memory` where memory is wanting.
    #[tactic(auto, using(crate::proofs::Stepped::known_spent))]
    pub fn make_at(
        self,
        alloc: Global,
        program: &Program,
        place: &Place,
        next: &Shared<Term>,
        values: &List<Value>,
        first: Loc,
        cost: u64,
    ) -> Result<Execution, Memory>
        requires may { MayStep program.now self place.now first.0 next.now
            (making first.0 values.now cost) }
        requires free { AreFree first.0 (length values.now) (seen (levels_of self.layers)) }
        requires bounded { first.0 + length values.now ≤ 2 ^ 64 }
        requires affords { self.spent + cost ≤ self.fuel }
        ensures stands { IfOk result (λ course. StandsAt program.now course place.now next.now) }
        ensures fuel { IfOk result (λ course. course.fuel ≡ self.fuel) }
        ensures picks { IfOk result (PicksStep self place.now first.0) }
    {
        let _program = program;
        let _next = next;
        let mut course = self;
        let above = above(first.0, values);
        let _room = course.get().with(cost);
        let run = course.get_mut();
        run.layers.make(first, values, cost)?;
        let fresh = higher(run.fresh, above);
        run.fresh = fresh;
        course.stepped(alloc, place, first, cost)
    }

    // One pick more, a step at a place, at a cost.
    pub(crate) fn stepped(
        self,
        alloc: Global,
        place: &Place,
        loc: Loc,
        cost: u64,
    ) -> Result<Execution, Memory>
        requires { self.spent + cost ≤ self.fuel }
        ensures { IfOk result (StepsTo self place.now loc.0 cost) }
    {
        let mut course = self;
        let run = course.get_mut();
        run.picks.push(Pick::Step(place.path.copy(alloc)?, loc))?;
        run.clock = risen(run.clock)?;
        run.spent = run.with(cost);
        Ok(course)
    }
}

// The clock after one pick more.
pub(crate) fn risen(clock: u64) -> Result<u64, Memory>
    ensures { IfOk result (λ later. clock < later) }
{
    match clock.checked_add(1) {
        None => Err(Memory),
        Some(later) => Ok(later),
    }
}

// The lowest number above those of new locations, the first of a number.
fn above(fresh: u64, values: &List<Value>) -> u128
    ensures { result ≡ fresh + length values.now }
{
    fresh as u128 + values.len() as u128
}

// The higher one of two numbers.
pub(crate) fn higher(one: u128, other: u128) -> u128
    ensures first { one ≤ result }
    ensures second { other ≤ result }
{
    if one < other { other } else { one }
}
