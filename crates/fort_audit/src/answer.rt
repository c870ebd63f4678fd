//! The audit of a record.
ghost use Rattle.std.specs.Prelude.{IfOk};
ghost use Rattle.fort_machine.specs.Written.{WrittenProgram};
ghost use Rattle.fort_audit.specs.Audits.{Audits, Compares};

use crate::parting::parting;
use fort_audit_record::Record;
use fort_base::Memory;
use fort_core::Program;
use fort_plain::{Replayed, replay};
use std::alloc::Global;

/// What an audit answers.
#[derive(Clone, Copy, Debug, PartialEq, Eq)]
pub enum Audited {
    /// The journal is that of a run of the program, and the run printed what was recorded.
    Yes,
    /// The journal is that of no run: it breaks at this number, as `replay` says.
    NotARun(u64),
    /// The journal is that of a run, and the run printed something else: what was recorded and what
    /// was printed part at this byte, from 0, where the bytes differ or one of the two ends.
    OtherOutput(u64),
}

/// Says whether a record is that of a run of a program. Whoever wrote it, nothing is asked of it.
/// The chapter "Audits" of docs/RECORDS.md.
///
/// # Errors
///
/// `Memory` where the replay answers it.
pub fn audit(alloc: Global, program: &Program, kept: &Record) -> Result<Audited, Memory>
    requires { WrittenProgram program.now }
    ensures { IfOk result (Audits program.now kept.now) }
{
    match replay(alloc, program, &kept.journal)? {
        Replayed::Broken(at) => Ok(Audited::NotARun(at)),
        Replayed::Run(output, _cost) => Ok(compared(kept.output.as_slice(), output.as_slice())),
    }
}

// What is to be said of a run, by what was recorded and what it printed.
fn compared(kept: &[u8], printed: &[u8]) -> Audited
    ensures { Compares kept.now printed.now result }
{
    match parting(kept, printed) {
        None => Audited::Yes,
        Some(at) => Audited::OtherOutput(at as u64),
    }
}
