//! How far a machine has come in going through its threads from left to right.
ghost use Rattle.std.specs.Prelude.{◌≡◌, IsTrue, true, false};

use fort_frames::{Place, Stack};
use fort_walk_course::Turn;

/// How many picks a thread takes in one turn.
pub const TURN: u32 = 1024;

/// How many frames may stand round a thread that is left: its term is put together again then,
/// frame by frame.
const SHALLOW: u32 = 1024;

/// How far a machine has come in going through its threads from left to right.
#[derive(Clone, Copy, Debug, PartialEq, Eq)]
pub struct Sweep {
    /// The picks that the thread took in its turn.
    pub taken: u32,
    /// Whether no pick was taken since the left end of the term, and no attempt was left.
    pub idle: bool,
    /// Whether no pick was taken since then, besides those of attempts that were left.
    pub in_vain: bool,
    /// Whether a thread was met since then that is awake and has no step.
    pub stuck: bool,
    /// Whether sleepers are tried, since nobody else is awake.
    pub wakes: bool,
}

impl Sweep {
    /// From the left end of the term; sleepers are tried where no pick was taken in the sweep
    /// before.
    pub fn new(wakes: bool) -> Sweep
        ensures stuck { result.stuck ≡ false }
        ensures wakes { result.wakes ≡ wakes }
    {
        Sweep {
            taken: 0,
            idle: true,
            in_vain: true,
            stuck: false,
            wakes,
        }
    }

    /// After picks of one thread.
    pub fn picked(taken: u32) -> Sweep
        ensures idle { result.idle ≡ false }
        ensures wakes { result.wakes ≡ false }
    {
        Sweep {
            taken: taken.saturating_add(1),
            idle: false,
            in_vain: false,
            stuck: false,
            wakes: false,
        }
    }

    /// Past a thread whose attempt was left, which began in this turn. Other sleepers are tried too
    /// (`wakes`) where the thread sleeps.
    pub fn left(turn: Turn, wakes: bool) -> Sweep
        ensures idle { result.idle ≡ false }
        ensures wakes { result.wakes ≡ wakes }
    {
        Sweep {
            taken: 0,
            idle: false,
            in_vain: turn.in_vain,
            stuck: false,
            wakes,
        }
    }

    /// What must be known of the sweep once an attempt that begins now is at its end.
    pub fn turn(self) -> Turn {
        Turn {
            taken: self.taken,
            in_vain: self.in_vain,
        }
    }

    /// Whether each thread that was met sleeps, or its attempt was left.
    pub fn met_none(self) -> bool {
        self.in_vain && !self.stuck
    }

    /// Past a thread that sleeps, or whose turn is over.
    pub fn passed(self) -> Sweep
        ensures idle { result.idle ≡ self.idle }
        ensures stuck { result.stuck ≡ self.stuck }
        ensures wakes { result.wakes ≡ self.wakes }
    {
        Sweep { taken: 0, ..self }
    }

    /// Past a thread that is awake and has no step.
    pub fn met_stuck(self) -> Sweep
        ensures idle { result.idle ≡ self.idle }
        ensures stuck { result.stuck ≡ true }
        ensures wakes { result.wakes ≡ self.wakes }
    {
        Sweep {
            taken: 0,
            stuck: true,
            ..self
        }
    }

    /// Whether the thread of a place had its turn; the root's thread has none beside it, and one
    /// that stands deep in its term isn't left.
    pub fn is_over(self, place: &Place) -> bool
        ensures { IsTrue result → self.idle ≡ false }
    {
        if self.idle || self.taken == 0 || self.taken % TURN != 0 {
            return false;
        }
        !place.path.0.is_empty() && is_within(&place.stack, SHALLOW)
    }
}

// Whether no more frames than so many stand round a thread.
fn is_within(stack: &Stack, most: u32) -> bool {
    let mut at = stack;
    for _frame in 0..most {
        match at {
            Stack::Empty => return true,
            Stack::Over(both) => at = &both.get().1,
        }
    }
    false
}
