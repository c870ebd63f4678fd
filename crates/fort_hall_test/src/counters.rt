//! Workers that count, each in a state of its own.
ghost use Rattle.std.specs.Prelude.{◌≡◌, ℕ, ◌+◌, ◌<◌, ◌≤◌, length, slice_index_or};
ghost use Rattle.fort_hall_test.specs.Counts.{counter};

use fort_pool::{First, Turned, Work, work};
use std::sync::Wait;
use std::thread::Threads;

/// How far to count.
const GOAL: u64 = 1000;

/// A worker's number, and how far it has counted.
#[derive(Drop, Clone, Copy)]
pub struct Counter {
    pub worker: u32,
    pub count: u64,
}

/// Counting to 1,000.
pub struct Counting;

impl Work for Counting {
    ghost use Rattle.std.specs.Prelude.{◌≡◌, ◌≤◌, refl};
    ghost use Rattle.std.proofs.Common.{rules};

    type State = Counter;

    ghost ready = { λ _ worker s. (s.worker ≡ worker) × (s.count ≤ 1000) };

    ghost keeps = { λ _ _ a b. (b.worker ≡ a.worker) × (a.count ≤ b.count) };

    ghost over = { λ _ _ s. s.count ≡ 1000 };

    fn turn<R: Threads + Wait + Sync>(&self, _rt: &R, _worker: u32, state: &mut Counter) -> Turned {
        if state.count == GOAL {
            return Turned::Over;
        }
        state.count += 1;
        Turned::Did
    }

    ghost reflexive = { Prim.search rules };

    ghost transitive = { Prim.search rules };
}

/// How many turns of worker 0 were seen.
#[derive(Drop)]
pub struct Rounds {
    pub seen: u64,
}

impl First for Rounds {
    ghost use Rattle.std.specs.Prelude.{◌≤◌, ⊤};
    ghost use Rattle.std.proofs.Common.{rules};

    ghost ready = { λ _. ⊤ };

    ghost keeps = { λ a b. a.seen ≤ b.seen };

    fn turn<R: Threads + Wait + Sync>(&mut self, _rt: &R) -> Turned {
        self.seen = self.seen.saturating_add(1);
        Turned::Did
    }

    ghost reflexive = { Prim.search rules };

    ghost transitive = { Prim.search rules };
}

/// Each worker counts to 1,000 in a state of its own.
pub fn count_up<R: Threads + Wait + Sync>(rt: &R, states: &mut [Counter], rounds: &mut Rounds)
    requires few { (0 < length states.old) × (length states.old < 4294967296) }
    requires begun { (i : ℕ) (d : _) → i < length states.old
        → slice_index_or states.old i d ≡ counter i 0 }
    ensures counted { (i : ℕ) (d : _) → i < length states.old
        → slice_index_or states.new i d ≡ counter i 1000 }
    ensures rounds { rounds.old.seen ≤ rounds.new.seen }
{
    work(rt, states, &Counting, rounds);
}

/// Numbers the states by their places, each with nothing counted.
pub fn begin(states: &mut [Counter])
    requires { length states.old < 4294967296 }
    ensures same { length states.new ≡ length states.old }
    ensures begun { (i : ℕ) (d : _) → i < length states.new
        → slice_index_or states.new i d ≡ counter i 0 }
{
    for i in 0..states.len() {
        states[i] = Counter {
            worker: i as u32,
            count: 0,
        };
    }
}
