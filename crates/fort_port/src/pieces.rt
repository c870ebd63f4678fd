ghost use Rattle.std.specs.Prelude.{◌≡◌, ◌+◌, ◌<◌, ◌≤◌, ◌++◌, length, take, drop, vec_len, vec_capacity, MatchOption};
ghost use Rattle.fort_port.specs.Outside.{Absent, Held, Gives};
ghost use Rattle.fort_port.specs.InMemory.{found};

use fort_base::{Bytes, List};

/// The bytes of the first file of that name.
pub(crate) fn file_named<'a>(files: &'a List<(Bytes, Bytes)>, name: &Bytes) -> Option<&'a [u8]>
    ensures { MatchOption result (found files.now name.now
        ≡ Absent) (λ file. found files.now name.now ≡ Held file.now) }
{
    for file in files.as_slice() {
        if file.0.as_slice() == name.as_slice() {
            return Some(file.1.as_slice());
        }
    }
    None
}

/// Copies what the file has from `at` on, at most `most` bytes of it, and answers how many.
pub(crate) fn copy_piece(file: &[u8], at: u64, most: u64, into: &mut [u8]) -> usize
    requires { 0 < most }
    ensures fits { result ≤ length into.new }
    ensures gives { Gives (Held file.now) at (take result into.new) (length into.new) }
{
    copy_front(rest_from(file, at), most, into)
}

/// The bytes from `at` on, none where there are none.
#[tactic(auto, using(std::proofs::lemmas::List::drop_min))]
fn rest_from(file: &[u8], at: u64) -> &[u8]
    ensures { result.now ≡ drop at file.now }
{
    &file[(at as usize).min(file.len())..]
}

/// Copies the first bytes, as many as fit and at most `most`, and answers how many.
fn copy_front(rest: &[u8], most: u64, into: &mut [u8]) -> usize
    requires { 0 < most }
    ensures fits { result ≤ length into.new }
    ensures within { result ≤ length rest.now }
    ensures copied { take result into.new ≡ take result rest.now }
    ensures none { 0 < length into.new → result ≡ 0 → length rest.now ≡ 0 }
{
    let count = rest.len().min(into.len()).min(most as usize);
    into[..count].copy_from_slice(&rest[..count]);
    count
}

/// Appends the first bytes of a piece, at most `most` of them and no more than fit into so much
/// room.
pub(crate) fn append_piece(held: &mut Vec<u8>, room: u64, most: u64, piece: &[u8]) -> usize
    requires some { 0 < length piece.now }
    requires most { 0 < most }
    requires free { vec_len held.old < room }
    requires taken { room ≤ vec_capacity held.old }
    ensures some { 0 < result }
    ensures within { result ≤ length piece.now }
    ensures appends { held.new.items ≡ held.old.items ++ take result piece.now }
    ensures fits { vec_len held.new ≤ room }
    ensures capacity { vec_capacity held.old ≤ vec_capacity held.new }
{
    let free = room as usize - held.len();
    let count = piece.len().min(free).min(most as usize);
    held.extend_from_slice(&piece[..count]).unwrap();
    count
}
