//! How far a run has come.
ghost use Rattle.std.specs.Prelude.{◌≡◌, ◌≢◌, ◌+◌, ◌≤◌, [], nat_le, IsTrue, MatchOption};
ghost use Rattle.std.specs.Option.{option_copied};
ghost use Rattle.fort_store_effects.specs.Levels.{levels_of, seen};
ghost use Rattle.fort_walk_course.specs.Courses.{around};
ghost use Rattle.fort_walk_course.specs.Calls.{KeepsForm};

use crate::execution::Execution;
use fort_base::{List, Loc, Shared};
use fort_core::{Mode, Pick, Term, Value};
use fort_frames::{Place, State};
use fort_store_effects::Layers;

/// How a machine goes through its threads, as far as it must be known at the end of an attempt.
#[derive(Clone, Copy, Debug, PartialEq, Eq)]
pub struct Turn {
    /// How many picks the attempt's thread took before it in its turn.
    pub taken: u32,
    /// Whether no thread took a pick since the left end.
    pub in_vain: bool,
}

/// A machine that waits for the end of an attempt, with what it was before the attempt.
#[derive(Drop)]
pub struct Waiting {
    /// Where the atomic form stands.
    pub place: Place,
    /// The form itself, where the attempt may be left.
    pub form: Option<Shared<Term>>,
    pub mode: Mode,
    pub body: Shared<Term>,
    pub clock: u64,
    /// No location had this number or a higher one.
    pub fresh: u128,
    /// The picks of the machine.
    pub picks: List<Pick>,
    pub turn: Turn,
}

/// All of a run but the term of its innermost machine.
#[derive(Drop)]
pub struct Course {
    /// The store, and what each open attempt did.
    pub layers: Layers,
    /// The picks of the innermost machine.
    pub picks: List<Pick>,
    /// The machines round it, the root's first.
    pub outer: List<Waiting>,
    /// The clock of all machines, which rises at each pick.
    pub clock: u64,
    /// What the run has cost so far, each open attempt 1 besides.
    pub spent: u64,
    pub fuel: u64,
    /// No location has this number or a higher one; it is 2 to the 64 at most.
    pub fresh: u128,
}

/// A run that goes on, with the term of its innermost machine.
#[derive(Drop)]
pub struct Going {
    pub course: Execution,
    pub state: State,
}

impl Course {
    // The value at a location as the innermost machine sees it, if the location is there.
    pub(crate) fn look(&self, loc: Loc) -> Option<&Value>
        ensures { option_copied result ≡ seen (levels_of self.now.layers) loc.0 }
    {
        self.layers.look(loc)
    }

    // What the run has cost with this, which the fuel covers.
    pub(crate) fn with(&self, cost: u64) -> u64
        requires { self.now.spent + cost ≤ self.now.fuel }
        ensures { result ≡ self.now.spent + cost }
    {
        self.spent + cost
    }

    // Whether the fuel covers a cost.
    pub(crate) fn affords(&self, cost: u64) -> bool
        ensures { result ≡ nat_le (self.now.spent + cost) self.now.fuel }
    {
        match self.fuel.checked_sub(self.spent) {
            None => false,
            Some(left) => cost <= left,
        }
    }

    // In an attempt's machine, how many picks the thread that waits for it took in its turn;
    // nothing in the root's.
    pub(crate) fn turn(&self) -> Option<u32>
        ensures { MatchOption result (self.now.outer ≡ []) (λ _. self.now.outer ≢ []) }
    {
        match self.outer.as_slice().last() {
            None => None,
            Some(waiting) => Some(waiting.turn.taken),
        }
    }

    // Whether the innermost attempt may be left, since its form was kept.
    pub(crate) fn keeps_form(&self) -> bool
        ensures { IsTrue result → KeepsForm (around self.now) }
    {
        match self.outer.as_slice().last() {
            None => false,
            Some(waiting) => waiting.form.is_some(),
        }
    }
}
