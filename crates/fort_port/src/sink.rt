ghost use Rattle.std.specs.Prelude.{ℕ, List, Option, ◌≡◌, ◌<◌, ◌≤◌, length, take, OnOk, OnErr, IfOk};
ghost use Rattle.fort_port.specs.Outside.{Rose, adds};

use crate::shelf::Failed;

/// An output, which takes bytes a piece at a time.
pub trait Sink {
    // The bytes written so far, where the sink tells them.
    ghost written: { Self → Option (List ℕ) };

    // The number of faults so far, which stands still at its type's end.
    ghost faults: { Self → ℕ };

    // Whether a piece may be offered. It is known again after `Ok` alone, so who is proved for
    // every sink offers nothing to one that has failed.
    ghost can_write: { Self → Type 0 };

    /// Writes the first bytes of a piece, which isn't empty, and answers how many.
    ///
    /// `Ok(n)` has appended the first `n` bytes, at least one of them. `Failed` comes only where
    /// the count of faults rose; the bytes written are then as before.
    fn write(&mut self, bytes: &[u8]) -> Result<usize, Failed>
        requires ready { can_write self.old }
        requires some { 0 < length bytes.now }
        ensures counts { faults self.old ≤ faults self.new }
        ensures failed { OnErr result (Rose (faults self.old) (faults self.new)) }
        ensures kept { OnErr result (written self.new ≡ written self.old) }
        ensures calm { OnOk result (faults self.new ≡ faults self.old) }
        ensures ready { OnOk result (can_write self.new) }
        ensures takes { IfOk result (λ n. (0 < n) × (n ≤ length bytes.now)) }
        ensures appends { IfOk result (λ n. written self.new
            ≡ adds (take n bytes.now) (written self.old)) };
}
