//! The end of the fuel.
ghost use Rattle.std.specs.Prelude.{◌≡◌, ◌+◌, ◌<◌, ◌++◌, ◌∷◌, [], IfOk};
ghost use Rattle.fort_core.specs.declared.pick.Pick.{Attempt as an_attempt};
ghost use Rattle.fort_store_effects.specs.Levels.{levels_of};
ghost use Rattle.fort_walk_law_course.specs.Ends.{PassesLast};
ghost use Rattle.fort_walk_course.specs.Courses.{around};
ghost use Rattle.fort_walk_course.specs.Calls.{IsRun, MayAbort, MayTry, PassesAt};
ghost use Rattle.fort_walk_course.specs.Picked.{root_picks};

use crate::course::Waiting;
use crate::ending::Ran;
use crate::execution::Execution;
use fort_base::{List, Loc, Memory, Shared};
use fort_core::{Ending, Mode, Pick, Program, Term};
use fort_frames::Place;
use std::alloc::Global;

impl Execution {
    /// The fuel is out at a step of the form at a place.
    ///
    /// # Errors
    ///
    /// `Memory` where memory is wanting.
    pub fn end_at_step(
        self,
        alloc: Global,
        program: &Program,
        place: &Place,
        loc: Loc,
    ) -> Result<Ran, Memory>
        requires { PassesAt program.now self place.now loc.0 }
        ensures run { IfOk result (IsRun program.now self.fuel) }
        ensures picks { IfOk result (λ ran. ran.journal.picks ≡ root_picks self) }
    {
        let pick = Pick::Step(place.path.copy(alloc)?, loc);
        self.out_of_fuel(program, pick)
    }

    /// The fuel is out at an attempt of the atomic form at a place, which isn't begun.
    ///
    /// # Errors
    ///
    /// `Memory` where memory is wanting.
    pub fn end_at_attempt(
        self,
        alloc: Global,
        program: &Program,
        place: &Place,
        mode: Mode,
        body: &Shared<Term>,
    ) -> Result<Ran, Memory>
        requires may { MayTry program.now self place.now mode body.now }
        requires passes { self.fuel < self.spent + 1 }
        ensures run { IfOk result (IsRun program.now self.fuel) }
        ensures picks { IfOk result (λ ran. ran.journal.picks ≡ root_picks self) }
    {
        let _mode = mode;
        let _body = body;
        let pick = Pick::Attempt(place.path.copy(alloc)?, List::new(alloc));
        self.out_of_fuel(program, pick)
    }

    /// The fuel is out at a step of `abort()` in an attempt.
    ///
    /// # Errors
    ///
    /// `Memory` where memory is wanting.
    pub fn end_at_abort(
        self,
        alloc: Global,
        program: &Program,
        place: &Place,
    ) -> Result<Ran, Memory>
        requires may { MayAbort program.now self place.now }
        requires passes { self.fuel < self.spent + 1 }
        ensures run { IfOk result (IsRun program.now self.fuel) }
        ensures picks { IfOk result (λ ran. ran.journal.picks ≡ root_picks self) }
    {
        let pick = Pick::Step(place.path.copy(alloc)?, Loc(0));
        self.out_of_fuel(program, pick)
    }

    // The pick that is next passes the fuel: within attempts it is the last one of each.
    fn out_of_fuel(self, program: &Program, next: Pick) -> Result<Ran, Memory>
        requires { PassesLast program.now self.fuel (levels_of self.layers) self.picks (around self)
            self.clock next }
        ensures run { IfOk result (IsRun program.now self.fuel) }
        ensures picks { IfOk result (λ ran. ran.journal.picks ≡ root_picks self) }
    {
        let _program = program;
        let mut course = self.into_course();
        let mut pick = next;
        'machines: while let Some(waiting) = course.outer.pop() {
            let (outer, before) = with_last(waiting, course.picks, pick)?;
            pick = outer;
            course.picks = before;
        }
        Ok(course.ended(Ending::OutOfFuel(pick)))
    }
}

// The attempt of a machine that waited, with the pick that is next at its end, and the picks
// before it.
fn with_last(waiting: Waiting, within: List<Pick>, next: Pick) -> Result<(Pick, List<Pick>), Memory>
    ensures pick { IfOk result (λ both. both.0
        ≡ an_attempt waiting.place.path (within ++ next ∷ [])) }
    ensures picks { IfOk result (λ both. both.1 ≡ waiting.picks) }
{
    let Waiting {
        place,
        form: _form,
        mode: _,
        body: _body,
        clock: _,
        fresh: _,
        picks,
        turn: _,
    } = waiting;
    let Place {
        stack: _stack,
        path,
    } = place;
    let mut within = within;
    within.push(next)?;
    Ok((Pick::Attempt(path, within), picks))
}
