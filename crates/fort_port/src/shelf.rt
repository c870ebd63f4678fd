ghost use Rattle.std.specs.Prelude.{ℕ, List, ◌≡◌, ◌≤◌, length, take, OnOk, OnErr, IfOk};
ghost use Rattle.fort_port.specs.Outside.{Holding, Gives, Rose};

use fort_base::Bytes;

/// What the outside answers where it fails; a count tells that it did.
#[derive(Clone, Copy, Debug, PartialEq, Eq)]
pub struct Failed;

/// Files to read, by their names.
pub trait Shelf {
    // What the shelf tells of the bytes under a name.
    ghost holding: { Self → List ℕ → Holding };

    // The number of faults so far, which stands still at its type's end.
    ghost faults: { Self → ℕ };

    /// Reads a piece of the file `name`, from byte `at` on, counted from 0.
    ///
    /// `Ok(n)` has put the `n` bytes that stand there into the first `n` places of `into`; the
    /// other places may hold anything. `Ok(0)` for a piece that isn't empty says that the file ends
    /// at `at` or before it. A shelf may give fewer bytes than there are. `Failed` comes only where
    /// the count of faults rose, and a name that the shelf hasn't is a fault; `into` may then hold
    /// anything. What the shelf holds stays.
    fn read_at(&mut self, name: &Bytes, at: u64, into: &mut [u8]) -> Result<usize, Failed>
        ensures kept { holding self.new ≡ holding self.old }
        ensures counts { faults self.old ≤ faults self.new }
        ensures failed { OnErr result (Rose (faults self.old) (faults self.new)) }
        ensures calm { OnOk result (faults self.new ≡ faults self.old) }
        ensures fits { IfOk result (λ n. n ≤ length into.new) }
        ensures gives { IfOk result
            (λ n. Gives (holding self.old name.now) at (take n into.new) (length into.new)) };
}
