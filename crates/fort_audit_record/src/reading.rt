//! Records are read.
ghost use Rattle.std.specs.Prelude.{◌≡◌, IfErr, IfOk};
ghost use Rattle.fort_audit_record.specs.Reading.{is_whole};
ghost use Rattle.fort_audit_record.specs.Text.{IsFault, IsRecordText};

use crate::reader::{Reader, Stage};
use fort_base::{Bytes, Memory};
use fort_core::Journal;
use std::alloc::Global;

/// What a record is the text of.
#[derive(Drop)]
pub struct Record {
    pub journal: Journal,
    /// What the run printed, in UTF-8.
    pub output: Bytes,
}

/// Why bytes aren't read as a record.
#[derive(Clone, Copy, Debug, PartialEq, Eq)]
pub enum AuditFault {
    /// They are none. The number, from 0, is that of the first byte up to which and with which no
    /// record begins; or of all bytes, where the record isn't at its end.
    Form(u64),
    /// Memory is wanting.
    Memory,
}

impl From<Memory> for AuditFault {
    ghost use Rattle.std.specs.Prelude.{◌≡◌};
    ghost use Rattle.fort_audit_record.specs.declared.reading.AuditFault.TheVariants as a_fault;

    ghost from_gives = { λ _ fault. fault ≡ a_fault.Memory };

    fn from(_: Memory) -> AuditFault {
        AuditFault::Memory
    }
}

/// The journal and the output of which the bytes are the text. There is one such pair at most. The
/// chapter "The text of a record".
///
/// # Errors
///
/// `Form` where the bytes are no record's text; `Memory` where memory is wanting. Attempts at any
/// depth take no stack.
pub fn parsed(alloc: Global, bytes: &[u8]) -> Result<Record, AuditFault>
    ensures ok { IfOk result (λ record_. IsRecordText bytes.now record_.journal record_.output) }
    ensures fault { IfErr result (IsFault bytes.now) }
{
    let mut reader = Reader::new(alloc);
    let mut rest = bytes;
    'bytes: while let Some((byte, more)) = rest.split_first() {
        match reader.read(alloc, *byte)? {
            None => return Err(AuditFault::Form((bytes.len() - rest.len()) as u64)),
            Some(next) => reader = next,
        }
        rest = more;
    }
    if !is_whole(reader.stage) {
        return Err(AuditFault::Form(bytes.len() as u64));
    }
    Ok(Record {
        journal: Journal {
            fuel: reader.fuel,
            picks: reader.picks,
            ending: reader.ending,
        },
        output: reader.output,
    })
}

// Whether all of the output was read.
fn is_whole(stage: Stage) -> bool
    ensures { result ≡ is_whole stage }
{
    match stage {
        Stage::Output(left) => left == 0,
        _ => false,
    }
}
