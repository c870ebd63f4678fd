//! An output that keeps nothing.
ghost use Rattle.std.specs.Prelude.{None};

use fort_port::{Failed, Sink};

/// An output that takes all bytes and keeps none of them, and never fails: for who wants a run and
/// not what it prints. It tells nothing of what was written.
#[derive(Clone, Copy, Debug, PartialEq, Eq)]
pub struct NoSink;

impl Sink for NoSink {
    ghost written = { λ _. None };

    ghost faults = { λ _. 0 };

    ghost can_write = { λ _. Unit {0} };

    fn write(&mut self, bytes: &[u8]) -> Result<usize, Failed> {
        Ok(bytes.len())
    }
}
