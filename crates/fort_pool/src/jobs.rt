//! What a pool runs.
ghost use Rattle.std.specs.Prelude.{◌≡◌, ℕ};
ghost use Rattle.fort_pool.specs.declared.turned.Turned.TheVariants.{Over};

use crate::turned::Turned;
use std::sync::Wait;
use std::thread::Threads;

/// Work that many workers share. Each worker has a number, counted from 0, and a state that no
/// other worker sees.
pub trait Work: Sync {
    type State: Send;

    // What each turn of this worker needs of its state, and leaves.
    ghost ready: { Self → ℕ → Self.State → Type 0 };

    // What holds between the state of this worker before and after, through any number of turns.
    ghost keeps: { Self → ℕ → Self.State → Self.State → Type 0 };

    // What a turn of this worker that answers Over gives of its state.
    ghost over: { Self → ℕ → Self.State → Type 0 };

    /// One turn of the worker with this number.
    fn turn<R: Threads + Wait + Sync>(&self, rt: &R, worker: u32, state: &mut Self::State) -> Turned
        requires { ready self.now worker state.old }
        ensures ready { ready self.now worker state.new }
        ensures keeps { keeps self.now worker state.old state.new }
        ensures ended { result ≡ Over → over self.now worker state.new };

    ghost reflexive: { (all : Self) (worker : ℕ) (s : Self.State) → keeps all worker s s };

    ghost transitive: { (all : Self) (worker : ℕ) (a b c : Self.State) → keeps all worker a b → keeps all worker b c → keeps all worker a c };
}

/// What worker 0, in the caller's thread, does between its turns.
pub trait First {
    // What each turn needs, and leaves.
    ghost ready: { Self → Type 0 };

    // What holds before and after, through any number of turns.
    ghost keeps: { Self → Self → Type 0 };

    /// One turn. Its answer only says whether there was something to do.
    fn turn<R: Threads + Wait + Sync>(&mut self, rt: &R) -> Turned
        requires { ready self.old }
        ensures ready { ready self.new }
        ensures keeps { keeps self.old self.new };

    ghost reflexive: { (s : Self) → keeps s s };

    ghost transitive: { (a b c : Self) → keeps a b → keeps b c → keeps a c };
}
