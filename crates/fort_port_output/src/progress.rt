//! An output stands somewhere in a text, and what comes next is written.
ghost use Rattle.std.specs.Prelude.{◌≡◌, ◌+◌, ◌<◌, ◌≤◌, ◌^◌, ℕ, List, Option, true, false, length};
ghost use Rattle.fort_port_output.specs.Written.{Change, ComesNext, HasWritten};

use crate::whole::write_all;
use fort_port::{Failed, Sink};

/// How far a text was written to an output: how many of its bytes, from its first one on, or that
/// the output has failed.
#[derive(Clone, Copy, Debug, PartialEq, Eq)]
pub struct Progress {
    /// How many bytes were written; of no meaning once the output has failed.
    pub bytes: u64,
    /// Whether a write failed: nothing more is written then.
    pub failed: bool,
}

/// Writes on where an output stands in a text, up to the text's end or to a fault, and answers how
/// far it came. Where the output has failed before, nothing is written. The chapter "Statuses and
/// notes" of docs/LANGUAGE.md.
///
/// It takes no memory.
pub fn write_on<K: Sink>(out: &mut K, progress: Progress, text: &[u8]) -> Progress
    requires ready { progress.failed ≡ false → K.can_write out.old }
    requires within { progress.bytes ≤ length text.now }
    ensures written { (was : Option (List ℕ)) → (faults_were : ℕ)
        → HasWritten (K.can_write out.old) (record {
          was = was;
          is = K.written out.old;
          faults_were = faults_were;
          faults_are = K.faults out.old;
        }) text.now progress
        → HasWritten (K.can_write out.new) (record {
          was = was;
          is = K.written out.new;
          faults_were = faults_were;
          faults_are = K.faults out.new;
        }) text.now result }
    ensures whole { result.failed ≡ false → result.bytes ≡ length text.now }
    ensures ready { result.failed ≡ false → K.can_write out.new }
{
    write_next(out, progress, &text[progress.bytes as usize..])
}

/// Writes the bytes that come next in a text, up to their end or to a fault, and answers how far
/// the output came in that text. Where it has failed before, nothing is written. Who calls it needs
/// no more of the text than these bytes.
///
/// It takes no memory.
pub fn write_next<K: Sink>(out: &mut K, progress: Progress, piece: &[u8]) -> Progress
    requires ready { progress.failed ≡ false → K.can_write out.old }
    requires fits { progress.bytes + length piece.now < 2 ^ 64 }
    ensures written { (was : Option (List ℕ)) → (faults_were : ℕ) → (text : List ℕ)
        → ComesNext text progress.bytes piece.now
        → HasWritten (K.can_write out.old) (record {
          was = was;
          is = K.written out.old;
          faults_were = faults_were;
          faults_are = K.faults out.old;
        }) text progress
        → HasWritten (K.can_write out.new) (record {
          was = was;
          is = K.written out.new;
          faults_were = faults_were;
          faults_are = K.faults out.new;
        }) text result }
    ensures whole { result.failed ≡ false → result.bytes ≡ progress.bytes + length piece.now }
    ensures ready { result.failed ≡ false → K.can_write out.new }
    ensures failed { progress.failed ≡ true → (out.new ≡ out.old) × (result.failed ≡ true) }
{
    if progress.failed {
        return progress;
    }
    match write_all(out, piece) {
        Ok(()) => Progress {
            bytes: progress.bytes + piece.len() as u64,
            failed: false,
        },
        Err(Failed) => Progress {
            bytes: progress.bytes,
            failed: true,
        },
    }
}
