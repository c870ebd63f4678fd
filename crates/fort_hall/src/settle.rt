//! The end of a run: the workers' passes are taken in, and the turn is closed.
ghost use Rattle.std.specs.Prelude.{◌≡◌, ℕ, ◌+◌, ◌<◌, ◌≤◌, true, length, [], ◌∷◌, Some, IfOk};
ghost use mathlib.Core.List.{IsPrefix};
ghost use Rattle.fort_turn.specs.Book.{log_of};
ghost use Rattle.fort_turn.specs.Passes.{IsIdle, number_of, numbers_of, seen_by, is_first, made_by};
ghost use Rattle.fort_pool.specs.Workers.{EachWorker};
ghost use Rattle.fort_hall_work.specs.Seats.{IsSeated, SitsAt};
ghost use Rattle.fort_hall.specs.Gathered.{Gathered, Counts};
ghost use Rattle.fort_hall.specs.Output.{SeesMore, Watches};

use crate::crew::take_last;
use fort_base::Memory;
use fort_hall_machine::Machine;
use fort_hall_work::{Rooted, Seat, Worker};
use fort_port_output::Progress;
use fort_turn::{Pass, Turn};
use std::alloc::Global;

/// The root's book at its end, how many legs of each worker are in it, and how far its output was
/// written.
#[derive(Drop)]
pub struct Settled<M: Machine> {
    pub book: M::Book,
    pub legs: Vec<u64>,
    pub progress: Progress,
}

pub(crate) fn zeros(alloc: Global, count: usize) -> Result<Vec<u64>, Memory>
    ensures { IfOk result (λ v. length v.items ≡ count) }
{
    Ok(vec![in alloc; 0u64; count]?)
}

/// Ends the turn.
pub(crate) fn settle<M: Machine>(
    turn: Turn<Rooted<M>>,
    mut first: Pass<Rooted<M>>,
    workers: Vec<Worker<M>>,
    legs: Vec<u64>,
    progress: Progress,
) -> Settled<M>
    requires first { Watches M.keeps M.history M.origin M.by turn M.start first }
    requires made { made_by first ≡ length workers.items + 1 }
    requires workers { EachWorker 0 (λ n w. SitsAt M.history M.by turn n w.seat.pass w.seat.legs) workers.items }
    requires legs { length legs.items ≡ length workers.items }
    ensures keeps { M.keeps result.book × (M.origin result.book ≡ M.start) }
    ensures counts { Counts M.history M.by result.legs.items result.book }
    ensures long { length result.legs.items ≡ length workers.items }
    ensures output { IsPrefix (log_of M.output (seen_by first)) (M.output result.book) }
    ensures progress { result.progress ≡ progress }
{
    let legs = gather(&turn, &mut first, workers, legs);
    let book = turn.close(first).into_book();
    Settled {
        book,
        legs,
        progress,
    }
}

// Takes the workers' passes in, the last one first, and notes how many legs each gave.
fn gather<M: Machine>(
    turn: &Turn<Rooted<M>>,
    first: &mut Pass<Rooted<M>>,
    mut workers: Vec<Worker<M>>,
    mut legs: Vec<u64>,
) -> Vec<u64>
    requires first { Gathered M.history M.origin M.by turn.now M.start legs.items (length workers.items) (length workers.items) first.old }
    requires workers { EachWorker 0 (λ n w. SitsAt M.history M.by turn.now n w.seat.pass w.seat.legs) workers.items }
    requires legs { length legs.items ≡ length workers.items }
    ensures first { Gathered M.history M.origin M.by turn.now M.start result.items 0 (length workers.items) first.new }
    ensures long { length result.items ≡ length workers.items }
    ensures made { made_by first.new ≡ made_by first.old }
    ensures more { SeesMore M.history M.origin first.old first.new }
{
    while let Some(seat) = take_last(turn, &mut workers) {
        let Seat { pass, legs: count } = seat;
        turn.join(first, pass);
        let n = workers.len();
        legs[n] = count;
    }
    legs
}
