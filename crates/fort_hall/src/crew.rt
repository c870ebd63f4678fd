//! Workers are made and taken in.
ghost use Rattle.std.specs.Prelude.{◌≡◌, ℕ, ◌+◌, ◌<◌, ◌≤◌, ◌^◌, true, length, [], ◌∷◌, IfOk, OnOk, IfSome, IfNone};
ghost use Rattle.fort_turn.specs.Passes.{IsIdle, number_of, numbers_of, seen_by, is_first, made_by};
ghost use Rattle.fort_pool.specs.Workers.{EachWorker};
ghost use Rattle.fort_hall_work.specs.Seats.{IsSeated, SitsAt};

use fort_base::Memory;
use fort_hall_machine::Machine;
use fort_hall_work::{Own, Rooted, Seat, Victim, Worker};
use fort_turn::{Pass, Turn};
use std::alloc::Global;

// Each worker's new locations have numbers of a range of its own, as long as so many ranges fit
// into the numbers that there are.
const RANGE: u64 = 1 << 50;

const RANGES: u64 = (1 << 14) - 1;

/// A worker for each deck.
pub(crate) fn staff<M: Machine>(
    alloc: Global,
    turn: &Turn<Rooted<M>>,
    first: &mut Pass<Rooted<M>>,
    mut owns: Vec<Own>,
    mut rights: Vec<Vec<Victim>>,
) -> Result<Vec<Worker<M>>, Memory>
    requires first { IsIdle turn.now first.old × (is_first first.old ≡ true) × (made_by first.old ≡ 1) }
    requires few { (length owns.items < 2 ^ 32) × (length rights.items ≡ length owns.items) }
    ensures first { IfOk result (λ v. IsIdle turn.now first.new × (is_first first.new ≡ true) × (made_by first.new ≡ length v.items + 1)
        × (numbers_of first.new ≡ numbers_of first.old) × (seen_by first.new ≡ seen_by first.old)) }
    ensures workers { IfOk result (λ v. EachWorker 0 (λ n w. SitsAt M.history M.by turn.now n w.seat.pass w.seat.legs) v.items) }
    ensures count { IfOk result (λ v. length v.items ≡ length owns.items) }
{
    let mut workers = Vec::new(alloc);
    while let Some(own) = owns.pop() {
        let Some(victims) = rights.pop() else {
            unreachable!()
        };
        add_worker(turn, first, &mut workers, own, victims)?;
    }
    Ok(workers)
}

fn add_worker<M: Machine>(
    turn: &Turn<Rooted<M>>,
    first: &mut Pass<Rooted<M>>,
    workers: &mut Vec<Worker<M>>,
    own: Own,
    victims: Vec<Victim>,
) -> Result<(), Memory>
    requires first { IsIdle turn.now first.old × (is_first first.old ≡ true) × (made_by first.old ≡ length workers.old.items + 1) }
    requires few { length workers.old.items < 2 ^ 32 }
    requires workers { EachWorker 0 (λ n w. SitsAt M.history M.by turn.now n w.seat.pass w.seat.legs) workers.old.items }
    ensures first { IsIdle turn.now first.new × (is_first first.new ≡ true)
        × (numbers_of first.new ≡ numbers_of first.old) × (seen_by first.new ≡ seen_by first.old) }
    ensures made { OnOk result ((made_by first.new ≡ length workers.new.items + 1) × (length workers.new.items ≡ length workers.old.items + 1)) }
    ensures workers { OnOk result (EachWorker 0 (λ n w. SitsAt M.history M.by turn.now n w.seat.pass w.seat.legs) workers.new.items) }
{
    let pass = turn.split(first);
    let fresh = range_of(workers.len());
    let worker = Worker::new(Seat { pass, legs: 0 }, own, victims, fresh);
    workers.push(worker)?;
    Ok(())
}

// Where the range of a worker's new locations begins.
fn range_of(worker: usize) -> u64 {
    (worker as u64 % RANGES + 1) * RANGE
}

/// Takes the last worker off, and hands out its seat.
pub(crate) fn take_last<M: Machine>(
    turn: &Turn<Rooted<M>>,
    workers: &mut Vec<Worker<M>>,
) -> Option<Seat<M>>
    requires { EachWorker 0 (λ n w. SitsAt M.history M.by turn.now n w.seat.pass w.seat.legs) workers.old.items }
    ensures none { IfNone result (length workers.old.items ≡ 0) }
    ensures some { IfSome result (λ s. SitsAt M.history M.by turn.now (length workers.new.items) s.pass s.legs) }
    ensures shorter { IfSome result (λ s. length workers.old.items ≡ length workers.new.items + 1) }
    ensures rest { IfSome result (λ s. EachWorker 0 (λ n w. SitsAt M.history M.by turn.now n w.seat.pass w.seat.legs) workers.new.items) }
{
    match workers.pop() {
        None => None,
        Some(worker) => Some(worker.into_seat()),
    }
}
