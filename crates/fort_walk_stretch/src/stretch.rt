//! A leg while it is taken.
ghost use Rattle.std.specs.Prelude.{◌≡◌, ◌+◌, ◌<◌, ◌≤◌, IfOk, IsTrue};
ghost use Rattle.fort_store_effects.specs.Levels.{effect_of};
ghost use Rattle.fort_walk_stretch.specs.Stretches.{IsPicked, IsFirst};

use crate::leg::{Leg, Room};
use fort_base::{List, Loc, Memory, Shared};
use fort_core::{Pick, Term};
use fort_frames::{Place, State};
use fort_store_effects::Layer;
use std::alloc::Global;

/// What was taken of a leg so far; the part's term stands beside it.
#[derive(Drop)]
pub(crate) struct Stretch {
    pub done: Layer,
    pub picks: List<Pick>,
    /// The part's term before the first step.
    pub first: Shared<Term>,
    /// It rises at each step.
    pub clock: u64,
    pub fresh: u64,
    /// Whether a step came that there is no room for: no further one is taken.
    pub full: bool,
    /// Whether a thread was left out that can't go on beside the run.
    pub left_out: bool,
}

/// What comes next: another turn, or the leg is whole.
#[derive(Drop)]
pub(crate) enum Turned {
    Goes(Stretch, State),
    Ends(Leg),
}

impl Stretch {
    // Before the first step.
    pub fn new(alloc: Global, first: Shared<Term>, from: u64) -> Stretch
        ensures { IsFirst first from result }
    {
        Stretch {
            done: Layer::new(alloc),
            picks: List::new(alloc),
            first,
            clock: 0,
            fresh: from,
            full: false,
            left_out: false,
        }
    }

    // Whether there is room for a cost.
    pub fn affords(&self, room: Room, cost: u64) -> bool
        ensures { IsTrue result → (effect_of self.now.done).cost + cost ≤ room.cost }
    {
        match room.cost.checked_sub(self.done.cost()) {
            None => false,
            Some(left) => cost <= left,
        }
    }

    // With a step more at a place.
    pub fn picked(self, alloc: Global, place: &Place, loc: Loc) -> Result<Stretch, Memory>
        ensures { IfOk result (IsPicked self place.now loc.0) }
    {
        let mut stretch = self;
        stretch
            .picks
            .push(Pick::Step(place.path.copy(alloc)?, loc))?;
        stretch.clock = risen(stretch.clock)?;
        Ok(stretch)
    }
}

fn risen(clock: u64) -> Result<u64, Memory>
    ensures { IfOk result (λ later. clock < later) }
{
    match clock.checked_add(1) {
        None => Err(Memory),
        Some(later) => Ok(later),
    }
}
