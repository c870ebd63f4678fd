//! A text goes on behind what was written of it. Nothing is computed here: each function names a
//! law by its clause and does nothing.
ghost use Rattle.std.specs.Prelude.{◌≡◌, ◌+◌, ◌++◌, ℕ, List, Option, false, length};
ghost use Rattle.fort_port_output.specs.Written.{Change, HasWritten, Writes};
ghost use Rattle.fort_port_output.specs.declared.progress.Progress.{Progress};

use fort_port::Sink;

/// Before the first write nothing was written of any text.
pub fn nothing_was_written<K: Sink>(_out: &K)
    ensures { (out : K) (is : Option (List ℕ)) (faults : ℕ) (text : List ℕ) (p : Progress)
        → K.can_write out → p.failed ≡ false → p.bytes ≡ 0
        → HasWritten (K.can_write out) (record {
          was = is;
          is = is;
          faults_were = faults;
          faults_are = faults;
        }) text p }
{}

/// What was written of a text was written of each text that goes on from it.
pub fn more_was_written<K: Sink>(_out: &K)
    ensures { (out : K) (sink : Change) (text more : List ℕ) (p : Progress)
        → HasWritten (K.can_write out) sink text p
        → HasWritten (K.can_write out) sink (text ++ more) p }
{}

/// A text was written, whole where the output didn't fail, and then so much of what follows it:
/// together this is how far both were written, the one behind the other.
pub fn parts_were_written<K: Sink>(_out: &K)
    ensures { (before after : K) (was is end : Option (List ℕ)) (first mid last : ℕ)
        (text more : List ℕ) (p q r : Progress)
        → HasWritten (K.can_write before) (record {
          was = was;
          is = is;
          faults_were = first;
          faults_are = mid;
        }) text p
        → (p.failed ≡ false → p.bytes ≡ length text)
        → Writes p.failed (K.can_write after) (record {
          was = is;
          is = end;
          faults_were = mid;
          faults_are = last;
        }) more q
        → r.failed ≡ q.failed
        → (q.failed ≡ false → r.bytes ≡ length text + q.bytes)
        → HasWritten (K.can_write after) (record {
          was = was;
          is = end;
          faults_were = first;
          faults_are = last;
        }) (text ++ more) r }
{}
