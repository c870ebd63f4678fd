//! The root's output is written while the workers work.
ghost use Rattle.std.specs.Prelude.{◌≡◌, ◌+◌, ◌<◌, ◌≤◌, ◌^◌, ℕ, List, Option, false, length, take};
ghost use mathlib.Core.List.{IsPrefix};
ghost use Rattle.fort_turn.specs.Book.{log_of};
ghost use Rattle.fort_turn.specs.Passes.{seen_by, made_by};
ghost use Rattle.fort_port_output.specs.Written.{ComesNext, HasWritten};
ghost use Rattle.fort_hall.specs.Output.{Watches};

use fort_hall_machine::Machine;
use fort_hall_work::Rooted;
use fort_pool::{First, Turned};
use fort_port::Sink;
use fort_port_output::{Progress, write_next};
use fort_turn::{Pass, Turn};
use std::sync::Wait;
use std::thread::Threads;

// So many bytes are copied in one hold of the book at most.
pub(crate) const PIECE: usize = 65_536;

// Between two turns in which the book is taken the writer lets so many pass. The others wait while
// this thread has the book, and each write is a call of the system: so a program that prints with
// each leg is written in pieces of some legs, and one that prints nothing costs a hold now and
// then. A worker with nothing to do sleeps for 200 microseconds at most between two turns, so what
// was printed then waits for some milliseconds.
const OFTEN: u32 = 16;

/// It writes the root's output while the workers add to the root's book, with the first pass of the
/// turn. It copies a piece while it holds the book, and writes it after it has given the book back.
#[derive(Drop)]
pub(crate) struct Writer<'a, M: Machine, K: Sink> {
    pub machine: &'a M,
    pub turn: &'a Turn<Rooted<M>>,
    pub pass: &'a mut Pass<Rooted<M>>,
    pub out: &'a mut K,
    /// How far it has written.
    pub progress: Progress,
    /// Room for so many bytes as are copied at once.
    pub piece: &'a mut [u8],
    /// Turns since the book was taken.
    pub skipped: u32,
}

impl<'a, M: Machine, K: Sink> First for Writer<'a, M, K> {
    ghost use Rattle.std.specs.Prelude.{◌≡◌, ◌≤◌, false, length};
    ghost use Rattle.std.proofs.Common.{refl, ◌∙◌};
    ghost use Rattle.fort_turn.specs.Book.{log_of};
    ghost use Rattle.fort_turn.specs.Passes.{seen_by, made_by};
    ghost use Rattle.fort_hall.specs.Output.{Watches, WritesOn};
    ghost use Rattle.fort_hall.specs.Composed.{stays, then_on};

    ghost ready = { λ w. Watches M.keeps M.history M.origin M.by w.turn.now M.start w.pass.now
        × (w.progress.failed ≡ false
        → (w.progress.bytes ≤ length (log_of M.output (seen_by w.pass.now))) × K.can_write w.out.now) };

    ghost keeps = { λ v w. (made_by w.pass.now ≡ made_by v.pass.now) × (w.turn.now ≡ v.turn.now)
        × (w.pass.ghost_name ≡ v.pass.ghost_name) × (w.out.ghost_name ≡ v.out.ghost_name)
        × WritesOn (K.can_write v.out.now) (K.can_write w.out.now) (record {
          was = K.written v.out.now;
          is = K.written w.out.now;
          faults_were = K.faults v.out.now;
          faults_are = K.faults w.out.now;
        }) (log_of M.output (seen_by v.pass.now)) (log_of M.output (seen_by w.pass.now)) v.progress w.progress };

    fn turn<R: Threads + Wait + Sync>(&mut self, rt: &R) -> Turned {
        if self.progress.failed || self.skipped < OFTEN {
            self.skipped = self.skipped.saturating_add(1);
            return Turned::Idle;
        }
        let from = self.progress.bytes;
        let count = copy_next(rt, self.machine, self.turn, self.pass, from, self.piece);
        // A full piece may not have been all: then the book is taken in the next turn.
        self.skipped = if count == PIECE { OFTEN } else { 0 };
        if count == 0 || from.checked_add(count as u64).is_none() {
            return Turned::Idle;
        }
        self.progress = write_piece(self.out, self.progress, self.piece, count);
        Turned::Did
    }

    ghost reflexive = { λ s. (refl, refl, refl, refl, stays _ _ _ _ _) };

    ghost transitive = { λ a b c p q. (q.0 ∙ p.0, q.1 ∙ p.1, q.2 ∙ p.2, q.3 ∙ p.3, then_on _ _ _ _ _ _ _ _ _ _ _ _ _ _ _ p.4 q.4) };
}

// Copies the bytes that come next in the output that the book has now, and says how many. The book
// is given back as it was.
fn copy_next<M: Machine, R: Wait>(
    rt: &R,
    machine: &M,
    turn: &Turn<Rooted<M>>,
    pass: &mut Pass<Rooted<M>>,
    from: u64,
    into: &mut [u8],
) -> usize
    requires watches { Watches M.keeps M.history M.origin M.by turn.now M.start pass.old }
    requires within { from ≤ length (log_of M.output (seen_by pass.old)) }
    ensures watches { Watches M.keeps M.history M.origin M.by turn.now M.start pass.new }
    ensures made { made_by pass.new ≡ made_by pass.old }
    ensures grows { IsPrefix (log_of M.output (seen_by pass.old)) (log_of M.output (seen_by pass.new)) }
    ensures count { result ≤ length into.old }
    ensures next { ComesNext (log_of M.output (seen_by pass.new)) from (take result into.new) }
{
    let rooted = turn.take(rt, pass);
    rooted.kept();
    let count = rooted.output_at(machine, from, into);
    turn.give(pass, rooted);
    count
}

// Writes the first bytes of a piece, so many as were copied.
fn write_piece<K: Sink>(out: &mut K, progress: Progress, piece: &mut [u8], count: usize) -> Progress
    requires ready { progress.failed ≡ false → K.can_write out.old }
    requires copied { count ≤ length piece.old }
    requires fits { progress.bytes + count < 2 ^ 64 }
    ensures written { (was : Option (List ℕ)) → (faults_were : ℕ) → (text : List ℕ)
        → ComesNext text progress.bytes (take count piece.old)
        → HasWritten (K.can_write out.old) (record {
          was = was;
          is = K.written out.old;
          faults_were = faults_were;
          faults_are = K.faults out.old;
        }) text progress
        → HasWritten (K.can_write out.new) (record {
          was = was;
          is = K.written out.new;
          faults_were = faults_were;
          faults_are = K.faults out.new;
        }) text result }
    ensures whole { result.failed ≡ false
        → result.bytes ≡ progress.bytes + length (take count piece.old) }
    ensures ready { result.failed ≡ false → K.can_write out.new }
{
    write_next(out, progress, &piece[..count])
}
