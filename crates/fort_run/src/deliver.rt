ghost use Rattle.std.specs.Prelude.{◌≡◌, ◌≤◌, ℕ, List as Seq, Option, false, length, OnOk, OnErr};
ghost use Rattle.fort_port_output.specs.Written.{Takes, Fails, HasWritten};
ghost use Rattle.fort_run.specs.Delivery.{Delivers};

use fort_diag::fixed;
use fort_port::{Failed, Sink};
use fort_port_output::{Progress, write_all, write_on};

/// The status of a call that could not write all that it meant to say.
const UNWRITTEN: u8 = 4;

/// Writes what is left of a text for standard output, then the note, and answers the status. After
/// a fault nothing more is written to the sink that failed.
pub(crate) fn deliver<K: Sink, N: Sink>(
    status: u8,
    text: &[u8],
    note: &[u8],
    progress: Progress,
    out: &mut K,
    notes: &mut N,
) -> u8
    requires out { progress.failed ≡ false → K.can_write out.old }
    requires within { progress.failed ≡ false → progress.bytes ≤ length text.now }
    requires notes { N.can_write notes.old }
    ensures { (was : Option (Seq ℕ)) → (faults_were : ℕ)
        → HasWritten (K.can_write out.old) (record {
          was = was;
          is = K.written out.old;
          faults_were = faults_were;
          faults_are = K.faults out.old;
        }) text.now progress
        → Delivers status text.now note.now
        (record {
          was = was;
          is = K.written out.new;
          faults_were = faults_were;
          faults_are = K.faults out.new;
        })
        (record {
          was = N.written notes.old;
          is = N.written notes.new;
          faults_were = N.faults notes.old;
          faults_are = N.faults notes.new;
        }) result }
{
    if write_rest(out, progress, text).is_err() {
        let _ = write_all(notes, fixed(UNWRITTEN).as_bytes());
        return UNWRITTEN;
    }
    if write_all(notes, note).is_err() {
        return UNWRITTEN;
    }
    status
}

/// Writes what is left of a text, up to a fault; nothing where the output has failed before.
fn write_rest<K: Sink>(out: &mut K, progress: Progress, text: &[u8]) -> Result<(), Failed>
    requires out { progress.failed ≡ false → K.can_write out.old }
    requires within { progress.failed ≡ false → progress.bytes ≤ length text.now }
    ensures ok { OnOk result ((was : Option (Seq ℕ)) → (faults_were : ℕ)
        → HasWritten (K.can_write out.old) (record {
          was = was;
          is = K.written out.old;
          faults_were = faults_were;
          faults_are = K.faults out.old;
        }) text.now progress
        → Takes (record {
          was = was;
          is = K.written out.new;
          faults_were = faults_were;
          faults_are = K.faults out.new;
        }) text.now) }
    ensures err { OnErr result ((was : Option (Seq ℕ)) → (faults_were : ℕ)
        → HasWritten (K.can_write out.old) (record {
          was = was;
          is = K.written out.old;
          faults_were = faults_were;
          faults_are = K.faults out.old;
        }) text.now progress
        → Fails (record {
          was = was;
          is = K.written out.new;
          faults_were = faults_were;
          faults_are = K.faults out.new;
        }) text.now) }
{
    if progress.failed {
        return Err(Failed);
    }
    if write_on(out, progress, text).failed {
        return Err(Failed);
    }
    Ok(())
}
