//! Legs that were taken beside the run.
ghost use Rattle.std.specs.Prelude.{◌≡◌, ◌+◌, ◌≤◌, IfOk};
ghost use Rattle.fort_machine.specs.Effects.{FitsAll};
ghost use Rattle.fort_machine.specs.Journals.{MakesWithinBounds};
ghost use Rattle.fort_store_effects.specs.Calls.{Adds};
ghost use Rattle.fort_store_effects.specs.Levels.{effect_of, levels_of, seen, spent as all_spent};
ghost use Rattle.fort_walk_course.specs.Courses.{StandsAt};
ghost use Rattle.fort_walk_course.specs.Taken.{MakesBelow, MayTakeIn, PicksMore, TakesIn};

use crate::execution::Execution;
use crate::steps::{higher, risen};
use fort_base::{List, Memory, Shared};
use fort_core::{Pick, Program, Term};
use fort_frames::Place;
use fort_store_effects::Layer;
use fort_walk_legs::all_under;
use std::alloc::Global;

impl Execution {
    /// Legs of the form at a place, attempts among them, which were taken beside the run, over the
    /// layers as they are, are picks of its innermost machine: what they did is done in the layers,
    /// and the form becomes what they made of it. It takes time for each pick and for each location
    /// that they touched.
    ///
    /// # Errors
    ///
    /// `Memory` where memory is wanting, or where the numbers of the clock are at their end.
    pub fn take(
        self,
        alloc: Global,
        program: &Program,
        place: &Place,
        next: &Shared<Term>,
        done: Layer,
        picks: List<Pick>,
    ) -> Result<Execution, Memory>
        requires may { MayTakeIn program.now self place.now next.now (effect_of done) picks }
        requires affords { self.spent + (effect_of done).cost ≤ self.fuel }
        ensures stands { IfOk result (λ course. StandsAt program.now course place.now next.now) }
        ensures fuel { IfOk result (λ course. course.fuel ≡ self.fuel) }
        ensures picks { IfOk result (PicksMore self place.now picks) }
        ensures done { IfOk result (λ course.
            Adds (effect_of done) (levels_of self.layers) (levels_of course.layers)) }
    {
        let _program = program;
        let _next = next;
        self.taken(alloc, place, done, picks)
    }

    // The legs as picks, and what they did.
    fn taken(
        self,
        alloc: Global,
        place: &Place,
        done: Layer,
        picks: List<Pick>,
    ) -> Result<Execution, Memory>
        requires fits { FitsAll (effect_of done) (seen (levels_of self.layers)) }
        requires bounded { MakesWithinBounds (effect_of done) }
        requires spent { self.spent ≡ all_spent (levels_of self.layers) }
        requires affords { self.spent + (effect_of done).cost ≤ self.fuel }
        ensures { IfOk result (TakesIn self place.now (effect_of done) picks) }
    {
        let above = above(&done);
        let mut course = self.into_course();
        let spent = course.with(done.cost());
        course.layers = course.layers.take(done)?;
        course.picks.append(all_under(alloc, &place.path, picks)?)?;
        course.clock = risen(course.clock)?;
        course.spent = spent;
        course.fresh = higher(course.fresh, above);
        Execution::of(alloc, course)
    }
}

// A number above those of all locations that legs made.
fn above(done: &Layer) -> u128
    requires { MakesWithinBounds (effect_of done.now) }
    ensures { MakesBelow result (effect_of done.now) }
{
    match done.bound() {
        None => u64::MAX as u128 + 1,
        Some(bound) => bound as u128,
    }
}
