//! When parts of a program go on side by side, and when attempts are left.
use fort_walk_turns::Sweep;

/// A hall whose legs cost less together was hardly worth while.
const LITTLE: u64 = 1_024;

/// A hall of so many legs, each of which cost less than so much in the mean, was slower than one
/// worker by itself.
const MANY: u64 = 256;

const SHORT: u64 = 128;

/// How many turns pass behind a hall in which little was done, behind one of short legs, and at
/// most. Each time they are twice as many.
const PAUSE: u32 = 1_024;

const REST: u32 = 32_768;

const LONGEST: u32 = 524_288;

/// How many halls there are in a run at most, and how many numbers for new locations each has of
/// each worker's range of 2^50.
const HALLS: u64 = 65_536;

const NUMBERS: u64 = 17_179_869_184;

/// How much of a run may be undone by leaving attempts: so many times what it has cost, and so much
/// besides.
const UNDONE: u64 = 8;

const UNDONE_BESIDES: u64 = 1_048_576;

/// When the next hall comes, and when attempts are left.
///
/// A hall comes where a sweep begins at the left end of the root's term: at the start of a run, and
/// at the next sweep behind a hall that was worth while. Behind one in which little was done, since
/// its tasks waited, say, or whose legs were short, as those of many small attempts are, some turns
/// pass first, twice as many each time.
///
/// An attempt whose threads all sleep is left, and begun anew later, since only others could wake
/// them. None is left any more once a whole sweep of the root's machine has met nobody who goes on,
/// until a thread of it takes a pick that stands; nor where too much was undone so.
#[derive(Clone, Copy, Debug, PartialEq, Eq)]
pub(crate) struct Pace {
    // How many turns pass before the next hall.
    rest: u32,
    // How many passed behind the last one.
    pause: u32,
    // How many halls there were.
    halls: u64,
    // Whether attempts are left, and what those that were left have cost together.
    patient: bool,
    undone: u64,
}

impl Pace {
    /// Before the first turn.
    pub fn new() -> Pace {
        Pace {
            rest: 0,
            pause: 0,
            halls: 0,
            patient: true,
            undone: 0,
        }
    }

    /// Before a turn, in the root's machine or in an attempt's (`inner`).
    pub fn before(self, sweep: Sweep, inner: bool) -> Pace {
        Pace {
            patient: self.patient || (!inner && sweep.taken > 0),
            ..self
        }
    }

    /// Whether attempts are left in a run that has cost so much.
    pub fn leaves(self, spent: u64) -> bool {
        let most = spent.saturating_mul(UNDONE).saturating_add(UNDONE_BESIDES);
        self.patient && self.undone <= most
    }

    /// After an attempt was left, with what it had cost.
    pub fn left(self, cost: u64) -> Pace {
        Pace {
            undone: self.undone.saturating_add(cost),
            ..self
        }
    }

    /// After a sweep in which attempts were left (`in_vain`), though nobody went on, of the root's
    /// machine or an attempt's (`inner`).
    pub fn swept(self, in_vain: bool, inner: bool) -> Pace {
        Pace {
            patient: self.patient && (inner || !in_vain),
            ..self
        }
    }

    /// Whether it is time for a hall where this sweep stands at the left end of the root's term.
    pub fn is_time(self, sweep: Sweep) -> bool {
        let begins = sweep.idle && sweep.taken == 0 && !sweep.stuck && !sweep.wakes;
        begins && self.rest == 0 && self.halls < HALLS
    }

    /// The first number of the next hall for new locations, in each worker's range.
    pub fn base(self) -> u64 {
        self.halls.saturating_mul(NUMBERS)
    }

    /// After a turn without a hall.
    pub fn passed(self) -> Pace {
        Pace {
            rest: self.rest.saturating_sub(1),
            ..self
        }
    }

    /// After a hall, with what its legs cost and how many they were.
    pub fn after(self, cost: u64, legs: u64) -> Pace {
        let are_short = legs >= MANY && cost < legs.saturating_mul(SHORT);
        let pause = if are_short {
            longer(self.pause.max(REST))
        } else if cost < LITTLE {
            longer(self.pause.max(PAUSE))
        } else {
            0
        };
        Pace {
            rest: pause,
            pause,
            halls: self.halls.saturating_add(1),
            ..self
        }
    }
}

// Twice as many turns, up to the most.
fn longer(pause: u32) -> u32 {
    pause.saturating_mul(2).min(LONGEST)
}
