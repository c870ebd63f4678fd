//! The workers' turns.
ghost use Rattle.std.specs.Prelude.{◌≡◌, ℕ, ◌+◌, ◌<◌, length};
ghost use Rattle.std.specs.Thread.{IsSync};
ghost use Rattle.fort_pool.specs.Workers.{EachWorker, EachGoes, HasTurned, HasRun};

use crate::jobs::{First, Work};
use crate::pause::Pause;
use crate::turned::Turned;
use std::sync::Wait;
use std::thread;
use std::thread::{Threads, join_mut};

/// Runs one worker for each state until each worker's turn has answered Over, and returns then. A
/// worker's number is the place of its state, counted from 0, and each of its turns is given that
/// number. Worker 0 is the caller's thread, and after each of its turns `first` has one.
///
/// It needs at least one state and fewer than 2^32. It takes no memory, and no start of a thread
/// can be refused: a worker that gets no thread of its own runs after another one. Nothing is said
/// of when a worker's turns come.
pub fn work<R: Threads + Wait + Sync, W: Work, F: First>(
    rt: &R,
    states: &mut [W::State],
    all: &W,
    first: &mut F,
)
    requires count { (0 < length states.old) × (length states.old < 4294967296) }
    requires ready { EachWorker 0 (W.ready all.now) states.old × F.ready first.old }
    ensures ready { EachWorker 0 (W.ready all.now) states.new × F.ready first.new }
    ensures keeps { EachGoes 0 (W.keeps all.now) states.old states.new }
    ensures over { EachWorker 0 (W.over all.now) states.new }
    ensures first { F.keeps first.old first.new }
{
    let (mine, others) = states.split_at_mut(1);
    side_by_side(rt, all, first, mine, others);
}

// Worker 0 in this thread, and the others beside it. The states' type is a parameter: of two
// closures that lend a `W::State` the borrow checker knows nothing.
fn side_by_side<R: Threads + Wait + Sync, W: Work<State = S>, S: Send, F: First>(
    rt: &R,
    all: &W,
    first: &mut F,
    mine: &mut [S],
    others: &mut [S],
)
    requires count { (length mine.old ≡ 1) × (length others.old + 1 < 4294967296) }
    requires ready { EachWorker 0 (W.ready all.now) mine.old
        × EachWorker 1 (W.ready all.now) others.old × F.ready first.old }
    ensures mine { HasRun W.ready W.keeps W.over all.now 0 mine.old mine.new }
    ensures others { HasRun W.ready W.keeps W.over all.now 1 others.old others.new }
    ensures first { F.ready first.new × F.keeps first.old first.new }
{
    let mut beside = ||
        requires { IsSync R.row × (length others.now + 1 < 4294967296)
            × EachWorker 1 (W.ready all.now) others.now }
        ensures { HasRun W.ready W.keeps W.over all.entry.now 1 others.entry.now others.exit.now }
    { crew(rt, all, others) };
    let mut here = ||
        requires { IsSync R.row × (length mine.now ≡ 1) × EachWorker 0 (W.ready all.now) mine.now
            × F.ready first.now }
        ensures { HasRun W.ready W.keeps W.over all.entry.now 0 mine.entry.now mine.exit.now
            × F.ready first.exit.now × F.keeps first.entry.now first.exit.now }
    { leader(rt, all, first, mine) };
    join_mut(rt, &mut beside, &mut here);
}

// Runs the workers from 1 on, each in a thread of its own where one can be made.
fn crew<R: Threads + Wait + Sync, W: Work>(rt: &R, all: &W, states: &mut [W::State])
    requires count { length states.old + 1 < 4294967296 }
    requires ready { EachWorker 1 (W.ready all.now) states.old }
    ensures { HasRun W.ready W.keeps W.over all.now 1 states.old states.new }
{
    let threads = states.len().max(1);
    thread::for_each_mut(
        rt,
        states,
        threads,
        &|i: usize, state: &mut W::State|
            requires { (i + 1 < 4294967296) × W.ready all.now (i + 1) state.old }
            ensures { HasTurned W.ready W.keeps W.over all.entry.now (i + 1) state.old state.new }
        { turns(rt, i as u32 + 1, all, state) },
    );
}

// The turns of one worker.
fn turns<R: Threads + Wait + Sync, W: Work>(rt: &R, worker: u32, all: &W, state: &mut W::State)
    requires { W.ready all.now worker state.old }
    ensures { HasTurned W.ready W.keeps W.over all.now worker state.old state.new }
{
    let pause = Pause::new();
    for _ in rt.forever() {
        match all.turn(rt, worker, state) {
            Turned::Over => return,
            Turned::Did => pause.reset(),
            Turned::Idle => pause.wait(rt),
        }
    }
    unreachable!()
}

// The turns of worker 0, with one of `first` after each.
fn leader<R: Threads + Wait + Sync, W: Work, F: First>(
    rt: &R,
    all: &W,
    first: &mut F,
    states: &mut [W::State],
)
    requires count { length states.old ≡ 1 }
    requires ready { EachWorker 0 (W.ready all.now) states.old × F.ready first.old }
    ensures mine { HasRun W.ready W.keeps W.over all.now 0 states.old states.new }
    ensures first { F.ready first.new × F.keeps first.old first.new }
{
    lead(rt, all, first, &mut states[0]);
}

fn lead<R: Threads + Wait + Sync, W: Work, F: First>(
    rt: &R,
    all: &W,
    first: &mut F,
    state: &mut W::State,
)
    requires { W.ready all.now 0 state.old × F.ready first.old }
    ensures mine { HasTurned W.ready W.keeps W.over all.now 0 state.old state.new }
    ensures first { F.ready first.new × F.keeps first.old first.new }
{
    let pause = Pause::new();
    for _ in rt.forever() {
        let turned = all.turn(rt, 0, state);
        let between = first.turn(rt);
        match (turned, between) {
            (Turned::Over, _) => return,
            (Turned::Idle, Turned::Idle | Turned::Over) => pause.wait(rt),
            _ => pause.reset(),
        }
    }
    unreachable!()
}
