ghost use Rattle.std.specs.Prelude.{◌≡◌, ◌+◌, ◌<◌, ◌≤◌, true, false, length, vec_len, Ok, IfOk, IfErr, OnOk};
ghost use Rattle.fort_run.specs.Reply.{IsFile, record_limit};
ghost use Rattle.fort_run.specs.Fronts.{IsFrontOf, Stops};
ghost use Rattle.fort_run.specs.declared.file.Unread.TheVariants as an_unread;

use fort_base::{Bytes, List, Memory};
use fort_port::{Failed, Shelf};
use std::alloc::{AllocError, Global};

/// The most bytes that a component's file may have.
pub(crate) const FILE_LIMIT: usize = 1_048_576;

/// The most bytes that a record may have.
pub(crate) const RECORD_LIMIT: usize = 1_073_741_824;

/// The most bytes that are asked for at once.
const PIECE: usize = 65_536;

/// Why a file wasn't read whole.
#[derive(Clone, Copy, Debug, PartialEq, Eq)]
pub(crate) enum Unread {
    Failed,
    TooLarge,
    Memory,
}

impl From<Failed> for Unread {
    ghost from_gives = { λ _ unread. unread ≡ an_unread.Failed };

    fn from(_failed: Failed) -> Unread {
        Unread::Failed
    }
}

impl From<Memory> for Unread {
    ghost from_gives = { λ _ unread. unread ≡ an_unread.Memory };

    fn from(_error: Memory) -> Unread {
        Unread::Memory
    }
}

impl From<AllocError> for Unread {
    ghost from_gives = { λ _ unread. unread ≡ an_unread.Memory };

    fn from(_error: AllocError) -> Unread {
        Unread::Memory
    }
}

/// Reads a file to its end, or up to the first byte behind a limit.
pub(crate) fn read_file<F: Shelf>(
    alloc: Global,
    shelf: &mut F,
    name: &Bytes,
    limit: usize,
) -> Result<Bytes, Unread>
    requires { limit ≤ record_limit }
    ensures kept { F.holding shelf.new ≡ F.holding shelf.old }
    ensures file { IfOk result (λ file. IsFile (F.holding shelf.old name.now) file) }
    ensures within { IfOk result (λ file. length file ≤ limit) }
    ensures calm { OnOk result (F.faults shelf.new ≡ F.faults shelf.old) }
    ensures stops { IfErr result
        (Stops limit (F.holding shelf.old name.now) (F.faults shelf.old) (F.faults shelf.new)) }
{
    let mut piece = buffer(alloc)?;
    let mut file = List::new(alloc);
    while file.len() <= limit {
        let room = (limit + 1 - file.len()).min(PIECE);
        if read_more(shelf, name, limit, &mut file, &mut piece[..room])? {
            return Ok(file);
        }
    }
    Err(Unread::TooLarge)
}

/// Room for one piece.
fn buffer(alloc: Global) -> Result<Vec<u8>, AllocError>
    ensures { IfOk result (λ piece. vec_len piece ≡ PIECE) }
{
    vec![in alloc; 0u8; PIECE]
}

/// Reads one more piece of the file, and answers whether the file ended there.
fn read_more<F: Shelf>(
    shelf: &mut F,
    name: &Bytes,
    limit: usize,
    file: &mut Bytes,
    into: &mut [u8],
) -> Result<bool, Unread>
    requires some { 0 < length into.old }
    requires front { IsFrontOf (F.holding shelf.old name.now) file.old }
    requires within { length file.old ≤ limit }
    ensures kept { F.holding shelf.new ≡ F.holding shelf.old }
    ensures calm { OnOk result (F.faults shelf.new ≡ F.faults shelf.old) }
    ensures front { OnOk result (IsFrontOf (F.holding shelf.old name.now) file.new) }
    ensures end { result ≡ Ok true
        → (file.new ≡ file.old) × IsFile (F.holding shelf.old name.now) file.old }
    ensures more { result ≡ Ok false
        → (length file.old < length file.new)
        × (length file.new ≤ length file.old + length into.old) }
    ensures stops { IfErr result
        (Stops limit (F.holding shelf.old name.now) (F.faults shelf.old) (F.faults shelf.new)) }
{
    let _limit = limit;
    let count = shelf.read_at(name, file.len() as u64, into)?;
    if count == 0 {
        return Ok(true);
    }
    file.push_slice(&into[..count])?;
    Ok(false)
}
