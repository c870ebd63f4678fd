//! A run: workers on one root's book, until it has ended or memory is wanting.
ghost use Rattle.std.specs.Prelude.{◌≡◌, ℕ, List, ◌+◌, ◌<◌, ◌≤◌, true, false, length, [], IfOk, OnOk};
ghost use mathlib.Core.List.{IsPrefix};
ghost use Rattle.fort_turn.specs.Book.{log_of};
ghost use Rattle.fort_turn.specs.Passes.{made_by, seen_by};
ghost use Rattle.fort_pool.specs.Workers.{EachWorker};
ghost use Rattle.fort_hall_work.specs.Seats.{IsSeated, SitsAt};
ghost use Rattle.fort_port_output.specs.Written.{Writes};
ghost use Rattle.fort_hall.specs.Gathered.{Counts};
ghost use Rattle.fort_hall.specs.Output.{Watches, WritesOn};

use crate::crew::staff;
use crate::decks::{decks, rights, shelves};
use crate::settle::{Settled, settle, zeros};
use crate::writer::{PIECE, Writer};
use fort_base::Memory;
use fort_hall_machine::Machine;
use fort_hall_work::{Board, Hall, Rooted, Worker};
use fort_pool::{First, work};
use fort_port::Sink;
use fort_port_output::Progress;
use fort_turn::Pass;
use std::alloc::Global;
use std::sync::Wait;
use std::thread::Threads;

/// Runs the machine with so many workers, each of whose legs costs at most `most`, until the root's
/// book has ended.
///
/// Whatever the schedule, the book that it hands out is one of a run from the machine's start and
/// has ended. For each worker there is a number, and of that worker the book has as many entries:
/// those that were appended with its pass, once each. It has no others.
///
/// What the root prints is written meanwhile, by worker 0 between its turns: at the end its first
/// bytes were written, as many as is told, or the output has failed. Where the output had failed
/// before, nothing is written. What is left at the end the caller may write.
///
/// It needs a worker at least, and an output that may be written to unless it had failed. Worker 0
/// is the caller's thread.
///
/// # Errors
///
/// `Memory` where memory is wanting; it ends the run of all workers. A book that had ended and goes
/// on, as no machine's does, would be answered so too.
pub fn run<M: Machine + Send + Sync, R: Threads + Wait + Sync, K: Sink>(
    rt: &R,
    alloc: Global,
    machine: &M,
    count: u32,
    most: u64,
    out: &mut K,
    failed: bool,
) -> Result<Settled<M>, Memory>
where
    M::Book: Send,
    M::State: Send,
    M::Leg: Send,
    M::Waste: Send,
    requires count { 0 < count }
    requires out { failed ≡ false → K.can_write out.old }
    ensures run { IfOk result (λ r. M.keeps r.book × (M.origin r.book ≡ M.start)) }
    ensures ended { IfOk result (λ r. M.ended r.book ≡ true) }
    ensures workers { IfOk result (λ r. length r.legs.items ≡ count) }
    ensures counts { IfOk result (λ r. Counts M.history M.by r.legs.items r.book) }
    ensures writes { IfOk result (λ r. Writes failed (K.can_write out.new) (record {
      was = K.written out.old;
      is = K.written out.new;
      faults_were = K.faults out.old;
      faults_are = K.faults out.new;
    }) (M.output r.book) r.progress) }
{
    let rooted = Rooted::new(machine.root()?);
    let mut owns = decks(alloc, count)?;
    let rights = rights(alloc, &mut owns)?;
    let shelves = shelves(alloc, count)?;
    let Ok((turn, mut first)) = fort_turn::new(alloc, rooted) else {
        return Err(Memory);
    };
    let workers = staff(alloc, &turn, &mut first, owns, rights)?;
    let legs = zeros(alloc, workers.len())?;
    let hall = Hall {
        machine,
        turn,
        shelves,
        board: Board::new(),
        most,
    };
    let (workers, progress) = work_and_write(rt, alloc, workers, &hall, &mut first, out, failed)?;
    let Hall { turn, .. } = hall;
    let settled = settle(turn, first, workers, legs, progress);
    if machine.ended(&settled.book) {
        Ok(settled)
    } else {
        Err(Memory)
    }
}

// The workers' turns, between which the root's output is written. What they need is made before the
// first one.
fn work_and_write<M: Machine + Send + Sync, R: Threads + Wait + Sync, K: Sink>(
    rt: &R,
    alloc: Global,
    workers: Vec<Worker<M>>,
    hall: &Hall<M>,
    first: &mut Pass<Rooted<M>>,
    out: &mut K,
    failed: bool,
) -> Result<(Vec<Worker<M>>, Progress), Memory>
where
    M::Book: Send,
    M::State: Send,
    M::Leg: Send,
    M::Waste: Send,
    requires count { (0 < length workers.items) × (length workers.items < 4294967296) }
    requires ready { EachWorker 0 (λ n w. SitsAt M.history M.by hall.now.turn n w.seat.pass w.seat.legs) workers.items }
    requires first { Watches M.keeps M.history M.origin M.by hall.now.turn M.start first.old }
    requires out { failed ≡ false → K.can_write out.old }
    ensures ready { IfOk result (λ r. EachWorker 0 (λ n w. SitsAt M.history M.by hall.now.turn n w.seat.pass w.seat.legs) r.0.items) }
    ensures long { IfOk result (λ r. length r.0.items ≡ length workers.items) }
    ensures first { OnOk result (Watches M.keeps M.history M.origin M.by hall.now.turn M.start first.new
        × (made_by first.new ≡ made_by first.old)) }
    ensures writes { IfOk result (λ r. (all : List ℕ)
        → IsPrefix (log_of M.output (seen_by first.new)) all
        → Writes failed (K.can_write out.new) (record {
          was = K.written out.old;
          is = K.written out.new;
          faults_were = K.faults out.old;
          faults_are = K.faults out.new;
        }) all r.1) }
{
    let mut piece = vec![in alloc; 0u8; PIECE]?;
    let mut writer = Writer {
        machine: hall.machine,
        turn: &hall.turn,
        pass: first,
        out,
        progress: Progress { bytes: 0, failed },
        piece: piece.as_mut_slice(),
        skipped: 0,
    };
    let workers = at_work(rt, workers, hall, &mut writer);
    let progress = writer.progress;
    Ok((workers, progress))
}

// The workers' turns, and the writer's between those of worker 0.
fn at_work<M: Machine + Send + Sync, R: Threads + Wait + Sync, K: Sink>(
    rt: &R,
    mut workers: Vec<Worker<M>>,
    hall: &Hall<M>,
    writer: &mut Writer<M, K>,
) -> Vec<Worker<M>>
where
    M::Book: Send,
    M::State: Send,
    M::Leg: Send,
    M::Waste: Send,
    requires count { (0 < length workers.items) × (length workers.items < 4294967296) }
    requires ready { EachWorker 0 (λ n w. SitsAt M.history M.by hall.now.turn n w.seat.pass w.seat.legs) workers.items }
    requires writer { Watches M.keeps M.history M.origin M.by writer.old.turn.now M.start writer.old.pass.now
        × (writer.old.progress.failed ≡ false
        → (writer.old.progress.bytes ≤ length (log_of M.output (seen_by writer.old.pass.now)))
        × K.can_write writer.old.out.now) }
    ensures ready { EachWorker 0 (λ n w. SitsAt M.history M.by hall.now.turn n w.seat.pass w.seat.legs) result.items }
    ensures long { length result.items ≡ length workers.items }
    ensures watches { Watches M.keeps M.history M.origin M.by writer.old.turn.now M.start writer.new.pass.now
        × (made_by writer.new.pass.now ≡ made_by writer.old.pass.now) }
    ensures same_pass { writer.new.pass.ghost_name ≡ writer.old.pass.ghost_name }
    ensures same_output { writer.new.out.ghost_name ≡ writer.old.out.ghost_name }
    ensures writes { WritesOn (K.can_write writer.old.out.now) (K.can_write writer.new.out.now) (record {
      was = K.written writer.old.out.now;
      is = K.written writer.new.out.now;
      faults_were = K.faults writer.old.out.now;
      faults_are = K.faults writer.new.out.now;
    }) (log_of M.output (seen_by writer.old.pass.now)) (log_of M.output (seen_by writer.new.pass.now))
        writer.old.progress writer.new.progress }
{
    side_by_side(rt, workers.as_mut_slice(), hall, writer);
    workers
}

fn side_by_side<M: Machine + Send + Sync, R: Threads + Wait + Sync, F: First>(
    rt: &R,
    workers: &mut [Worker<M>],
    hall: &Hall<M>,
    first: &mut F,
)
where
    M::Book: Send,
    M::State: Send,
    M::Leg: Send,
    M::Waste: Send,
    requires count { (0 < length workers.old) × (length workers.old < 4294967296) }
    requires ready { EachWorker 0 (λ n w. SitsAt M.history M.by hall.now.turn n w.seat.pass w.seat.legs) workers.old }
    requires first { F.ready first.old }
    ensures ready { EachWorker 0 (λ n w. SitsAt M.history M.by hall.now.turn n w.seat.pass w.seat.legs) workers.new }
    ensures long { length workers.new ≡ length workers.old }
    ensures first { F.ready first.new × F.keeps first.old first.new }
{
    work(rt, workers, hall, first);
}
