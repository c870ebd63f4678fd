//! A run of the counters, whose letters are written while the workers work.
ghost use Rattle.std.specs.Prelude.{◌≡◌, ◌<◌, IfOk};
ghost use Rattle.fort_port_output.specs.Written.{HasWritten};
ghost use Rattle.fort_hall_test_machine.specs.Runs.{letters};

use crate::counters::Counters;
use fort_base::Memory;
use fort_hall::{Settled, run};
use fort_port::{IdleGate, Sink};
use std::alloc::Global;
use std::sync::Wait;
use std::thread::Threads;

// What a leg may raise at most.
const MOST: u64 = 3;

/// Runs the counters by so many workers. Of the letters that their legs print the first ones were
/// written, or the output has failed: so says the hall of every machine.
///
/// It needs a worker at least, and an output that may be written to.
///
/// # Errors
///
/// `Memory` where memory is wanting.
pub fn printed<R: Threads + Wait + Sync, K: Sink>(
    rt: &R,
    alloc: Global,
    machine: &Counters<IdleGate>,
    workers: u32,
    out: &mut K,
) -> Result<Settled<Counters<IdleGate>>, Memory>
    requires workers { 0 < workers }
    requires out { K.can_write out.old }
    ensures written { IfOk result (λ r. HasWritten (K.can_write out.new) (record {
      was = K.written out.old;
      is = K.written out.new;
      faults_were = K.faults out.old;
      faults_are = K.faults out.new;
    }) (letters r.book.legs.items) r.progress) }
{
    run(rt, alloc, machine, workers, MOST, out, false)
}
