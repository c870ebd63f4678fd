ghost use Rattle.std.specs.Prelude.{◌≡◌, ◌+◌, ◌<◌, ◌≤◌, Some, [], length, take, vec_capacity, IfOk, OnOk, OnErr};
ghost use Rattle.fort_port.specs.Outside.{Absent, Gives, Rose, adds};
ghost use Rattle.fort_port.specs.InMemory.{found, CalmOutput};

use crate::pieces::{append_piece, copy_piece, file_named};
use crate::shelf::{Failed, Shelf};
use crate::sink::Sink;
use fort_base::{Bytes, List, Memory};
use std::alloc::Global;
use std::marker::Model;

/// Files in memory. A call gives at most `most` bytes, and only a name that isn't there is a fault.
#[derive(Drop)]
pub struct CalmShelf {
    pub files: List<(Bytes, Bytes)>,
    pub most: u64,
    pub faults: u64,
    pub ghost some: { 0 < most },
}

impl CalmShelf {
    /// A shelf of names with their bytes; of files of one name the first counts. It takes no
    /// memory.
    pub fn new(files: List<(Bytes, Bytes)>, most: u64) -> CalmShelf
        requires { 0 < most }
        ensures files { result.files ≡ files }
        ensures most { result.most ≡ most }
        ensures faults { result.faults ≡ 0 }
    {
        CalmShelf {
            files,
            most,
            faults: 0,
        }
    }
}

impl Shelf for CalmShelf {
    ghost holding = { λ s. found s.files };

    ghost faults = { λ s. s.faults };

    fn read_at(&mut self, name: &Bytes, at: u64, into: &mut [u8]) -> Result<usize, Failed>
        ensures kept { found self.new.files ≡ found self.old.files }
        ensures counts { self.old.faults ≤ self.new.faults }
        ensures failed { OnErr result (Rose self.old.faults self.new.faults) }
        ensures calm { OnOk result (self.new.faults ≡ self.old.faults) }
        ensures fits { IfOk result (λ n. n ≤ length into.new) }
        ensures gives { IfOk result
            (λ n. Gives (found self.old.files name.now) at (take n into.new) (length into.new)) }
        ensures absent { OnErr result (found self.old.files name.now ≡ Absent) }
    {
        match file_named(&self.files, name) {
            Some(file) => Ok(copy_piece(file, at, self.most, into)),
            None => {
                self.faults = self.faults.saturating_add(1);
                Err(Failed)
            }
        }
    }
}

/// An output in memory, with room taken beforehand. A call takes at most `most` bytes, and only a
/// write where `room` bytes are held is a fault.
#[derive(Drop)]
pub struct CalmSink {
    held: Vec<u8>,
    room: u64,
    most: u64,
    faults: u64,
}

impl Model for CalmSink {
    ghost Value = { CalmOutput };

    ghost view = { λ s. record { bytes = s.held.items; room = s.room; most = s.most; faults = s.faults } };

    ghost invariant = { λ s. (0 < s.most) × (length s.held.items ≤ s.room) × (s.room ≤ vec_capacity s.held) };
}

impl CalmSink {
    /// An output that holds nothing yet; it takes memory for `room` bytes.
    pub fn new(alloc: Global, room: u64, most: u64) -> Result<CalmSink, Memory>
        requires { 0 < most }
        ensures { IfOk result (λ s. s
            ≡ record { bytes = []; room = room; most = most; faults = 0 }) }
    {
        Ok(CalmSink {
            held: Vec::with_capacity(alloc, room as usize)?,
            room,
            most,
            faults: 0,
        })
    }

    /// What was written.
    pub fn bytes(&self) -> &[u8]
        ensures { result.now ≡ self.now.bytes }
    {
        self.held.as_slice()
    }

    /// The number of faults so far.
    pub fn faults(&self) -> u64
        ensures { result ≡ self.now.faults }
    {
        self.faults
    }
}

impl Sink for CalmSink {
    ghost written = { λ s. Some s.bytes };

    ghost faults = { λ s. s.faults };

    ghost can_write = { λ _. Unit {0} };

    fn write(&mut self, bytes: &[u8]) -> Result<usize, Failed>
        requires some { 0 < length bytes.now }
        ensures counts { self.old.faults ≤ self.new.faults }
        ensures failed { OnErr result (Rose self.old.faults self.new.faults) }
        ensures kept { OnErr result (Some self.new.bytes ≡ Some self.old.bytes) }
        ensures calm { OnOk result (self.new.faults ≡ self.old.faults) }
        ensures ready { OnOk result (Unit {0}) }
        ensures takes { IfOk result (λ n. (0 < n) × (n ≤ length bytes.now)) }
        ensures appends { IfOk result (λ n. Some self.new.bytes
            ≡ adds (take n bytes.now) (Some self.old.bytes)) }
        ensures full { OnErr result (length self.old.bytes ≡ self.old.room) }
    {
        if self.held.len() as u64 == self.room {
            self.faults = self.faults.saturating_add(1);
            return Err(Failed);
        }
        Ok(append_piece(&mut self.held, self.room, self.most, bytes))
    }
}
