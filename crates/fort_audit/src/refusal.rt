//! The notes of a refused record.
ghost use Rattle.std.specs.Prelude.{◌≡◌, ◌++◌, codes, decimal, IfOk};
ghost use Rattle.fort_audit.specs.Notes.{note_of};

use fort_base::{Bytes, List, Memory};
use itoa::Buffer;
use std::alloc::Global;

/// Why a record is refused.
#[derive(Clone, Copy, Debug, PartialEq, Eq)]
pub enum Why {
    /// The bytes are no record: the number of the first byte that is wrong, or of all bytes.
    Form(u64),
    /// The journal is that of no run: the number of the pick at which it breaks.
    Pick(u64),
    /// The run printed something else: the byte at which the outputs part.
    Output(u64),
}

/// The note of a refused record, with its line feed. The chapter "Audits" of docs/RECORDS.md.
///
/// # Errors
///
/// `Memory` where memory is wanting.
pub fn note(alloc: Global, why: Why) -> Result<Bytes, Memory>
    ensures { IfOk result (λ note. note ≡ note_of why) }
{
    match why {
        Why::Form(at) => numbered(alloc, b"form at byte ", at),
        Why::Pick(at) => numbered(alloc, b"pick ", at),
        Why::Output(at) => numbered(alloc, b"output at byte ", at),
    }
}

// A refusal by what is wrong, and its number.
fn numbered(alloc: Global, what: &[u8], at: u64) -> Result<Bytes, Memory>
    ensures { IfOk result (λ note. note
        ≡ codes "record refused: " ++ what.now ++ decimal at ++ codes "\n") }
{
    let mut buffer = Buffer::new();
    let mut note = List::from_slice(alloc, b"record refused: ")?;
    note.push_slice(what)?;
    note.push_slice(buffer.format(at).as_bytes())?;
    note.push_slice(b"\n")?;
    Ok(note)
}
