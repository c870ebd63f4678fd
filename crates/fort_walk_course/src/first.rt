//! Before a run.
ghost use Rattle.std.specs.Prelude.{◌≡◌, ℕ, ◌≤◌, ◌<◌, IfOk, None};
ghost use Rattle.fort_machine.specs.Journals.{opening_store};
ghost use Rattle.fort_walk_course.specs.Courses.{IsGoing, IsWhole};
ghost use Rattle.fort_walk_course.specs.Picked.{PicksNone};

use crate::course::{Course, Going};
use crate::execution::Execution;
use crate::steps::higher;
use fort_base::{List, Loc, Memory};
use fort_core::Program;
use fort_frames::{At, Place, State};
use fort_store_effects::Layers;
use std::alloc::Global;

impl Going {
    /// A program before its run, with a fuel.
    ///
    /// # Errors
    ///
    /// `Memory` where memory is wanting.
    pub fn first(alloc: Global, program: &Program, fuel: u64) -> Result<Going, Memory>
        ensures going { IfOk result (IsGoing program.now) }
        ensures whole { IfOk result (λ going. IsWhole going.state) }
        ensures fuel { IfOk result (λ going. going.course.fuel ≡ fuel) }
        ensures picks { IfOk result (λ going. PicksNone going.course) }
    {
        let at = At::Form(program.first.share()?);
        let course = Course {
            layers: Layers::of(alloc, program)?,
            picks: List::new(alloc),
            outer: List::new(alloc),
            clock: 0,
            spent: 0,
            fuel,
            fresh: fresh_from(program),
        };
        let course = Execution::of(alloc, course)?;
        let place = Place::root(alloc);
        Ok(Going {
            course,
            state: State { place, at },
        })
    }
}

// A number above those of all locations of the opening store.
#[tactic(auto, using(crate::proofs::Before::none_from, crate::proofs::Before::one_more, crate::proofs::Before::none_yet))]
fn fresh_from(program: &Program) -> u128
    ensures { (l : ℕ) → result ≤ l → opening_store program.now l ≡ None }
{
    let mut fresh = 0;
    for entry in program.opening.as_slice() {
        fresh = past(fresh, entry.0);
    }
    fresh
}

// A number above this one's, and not below another one.
fn past(fresh: u128, loc: Loc) -> u128
    ensures above { loc.0 < result }
    ensures rises { fresh ≤ result }
{
    higher(fresh, loc.0 as u128 + 1)
}
