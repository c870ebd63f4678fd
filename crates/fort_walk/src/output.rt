//! What the root's run printed is written while the walk goes on.
ghost use Rattle.std.specs.Prelude.{◌≡◌, ◌≤◌, ℕ, List, Option, false, length};
ghost use Rattle.fort_port_output.specs.Written.{Change, HasWritten};
ghost use Rattle.fort_walk.specs.Written.{printed_by};

use fort_port::Sink;
use fort_port_output::{Progress, write_on};
use fort_walk_course::Execution;

/// How many turns pass between two writes.
const TURNS: u64 = 1_024;

/// Before a run nothing was written of its output.
pub(crate) fn unwritten() -> Progress
    ensures bytes { result.bytes ≡ 0 }
    ensures calm { result.failed ≡ false }
{
    Progress {
        bytes: 0,
        failed: false,
    }
}

/// Whether it is time to write, after a turn of this number.
pub(crate) fn is_time(turn: u64) -> bool {
    turn % TURNS == 0
}

/// After a turn, where it is time, what the root's run printed since the last write is written.
pub(crate) fn after_turn<K: Sink>(
    out: &mut K,
    progress: Progress,
    course: &Execution,
    now: bool,
) -> Progress
    requires ready { progress.failed ≡ false → K.can_write out.old }
    requires within { progress.failed ≡ false
        → progress.bytes ≤ length (printed_by course.now) }
    ensures written { (was : Option (List ℕ)) → (faults_were : ℕ)
        → HasWritten (K.can_write out.old) (record {
          was = was;
          is = K.written out.old;
          faults_were = faults_were;
          faults_are = K.faults out.old;
        }) (printed_by course.now) progress
        → HasWritten (K.can_write out.new) (record {
          was = was;
          is = K.written out.new;
          faults_were = faults_were;
          faults_are = K.faults out.new;
        }) (printed_by course.now) result }
{
    if now {
        write_root(out, progress, course)
    } else {
        progress
    }
}

/// What the root's run printed is written, as far as it wasn't yet.
pub(crate) fn write_root<K: Sink>(out: &mut K, progress: Progress, course: &Execution) -> Progress
    requires ready { progress.failed ≡ false → K.can_write out.old }
    requires within { progress.failed ≡ false
        → progress.bytes ≤ length (printed_by course.now) }
    ensures written { (was : Option (List ℕ)) → (faults_were : ℕ)
        → HasWritten (K.can_write out.old) (record {
          was = was;
          is = K.written out.old;
          faults_were = faults_were;
          faults_are = K.faults out.old;
        }) (printed_by course.now) progress
        → HasWritten (K.can_write out.new) (record {
          was = was;
          is = K.written out.new;
          faults_were = faults_were;
          faults_are = K.faults out.new;
        }) (printed_by course.now) result }
    ensures whole { result.failed ≡ false → result.bytes ≡ length (printed_by course.now) }
    ensures ready { result.failed ≡ false → K.can_write out.new }
{
    write_rest(out, progress, course.get().layers.output())
}

/// The bytes of a text that weren't written yet are written.
pub(crate) fn write_rest<K: Sink>(out: &mut K, progress: Progress, text: &[u8]) -> Progress
    requires ready { progress.failed ≡ false → K.can_write out.old }
    requires within { progress.failed ≡ false → progress.bytes ≤ length text.now }
    ensures written { (was : Option (List ℕ)) → (faults_were : ℕ)
        → HasWritten (K.can_write out.old) (record {
          was = was;
          is = K.written out.old;
          faults_were = faults_were;
          faults_are = K.faults out.old;
        }) text.now progress
        → HasWritten (K.can_write out.new) (record {
          was = was;
          is = K.written out.new;
          faults_were = faults_were;
          faults_are = K.faults out.new;
        }) text.now result }
    ensures whole { result.failed ≡ false → result.bytes ≡ length text.now }
    ensures ready { result.failed ≡ false → K.can_write out.new }
{
    if progress.failed {
        return progress;
    }
    write_on(out, progress, text)
}
