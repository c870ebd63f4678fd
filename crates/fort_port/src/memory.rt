ghost use Rattle.std.specs.Prelude.{◌≡◌, ◌<◌, ◌≤◌, Some, [], length, vec_capacity, IfOk};
ghost use Rattle.fort_port.specs.InMemory.{found, Output};

use crate::pieces::{append_piece, copy_piece, file_named};
use crate::shelf::{Failed, Shelf};
use crate::sink::Sink;
use fort_base::{Bytes, List, Memory};
use std::alloc::Global;
use std::marker::Model;

/// Files in memory. A call gives at most `most` bytes; the calls whose numbers, counted from 1,
/// stand in `fails` are faults, and so is a name that isn't there.
#[derive(Drop)]
pub struct MemoryShelf {
    pub files: List<(Bytes, Bytes)>,
    pub most: u64,
    pub fails: List<u64>,
    pub calls: u64,
    pub faults: u64,
    pub ghost some: { 0 < most },
}

impl MemoryShelf {
    /// A shelf of names with their bytes; of files of one name the first counts. It takes no
    /// memory.
    pub fn new(files: List<(Bytes, Bytes)>, most: u64, fails: List<u64>) -> MemoryShelf
        requires { 0 < most }
        ensures files { result.files ≡ files }
        ensures most { result.most ≡ most }
        ensures fails { result.fails ≡ fails }
        ensures calls { result.calls ≡ 0 }
        ensures faults { result.faults ≡ 0 }
    {
        MemoryShelf {
            files,
            most,
            fails,
            calls: 0,
            faults: 0,
        }
    }
}

impl Shelf for MemoryShelf {
    ghost holding = { λ s. found s.files };

    ghost faults = { λ s. s.faults };

    fn read_at(&mut self, name: &Bytes, at: u64, into: &mut [u8]) -> Result<usize, Failed> {
        self.calls = self.calls.saturating_add(1);
        if !self.fails.as_slice().contains(&self.calls) {
            if let Some(file) = file_named(&self.files, name) {
                return Ok(copy_piece(file, at, self.most, into));
            }
        }
        self.faults = self.faults.saturating_add(1);
        Err(Failed)
    }
}

/// An output in memory, with room taken beforehand. A call takes at most `most` bytes; the calls
/// whose numbers, counted from 1, stand in `fails` are faults, and so is a write where `room` bytes
/// are held.
#[derive(Drop)]
pub struct MemorySink {
    held: Vec<u8>,
    room: u64,
    most: u64,
    fails: List<u64>,
    calls: u64,
    faults: u64,
}

impl Model for MemorySink {
    ghost Value = { Output };

    ghost view = { λ s. record { bytes = s.held.items; room = s.room; most = s.most; fails = s.fails; calls = s.calls; faults = s.faults } };

    ghost invariant = { λ s. (0 < s.most) × (length s.held.items ≤ s.room) × (s.room ≤ vec_capacity s.held) };
}

impl MemorySink {
    /// An output that holds nothing yet; it takes memory for `room` bytes.
    pub fn new(alloc: Global, room: u64, most: u64, fails: List<u64>) -> Result<MemorySink, Memory>
        requires { 0 < most }
        ensures { IfOk result (λ s. s
            ≡ record {
              bytes = [];
              room = room;
              most = most;
              fails = fails;
              calls = 0;
              faults = 0;
            }) }
    {
        Ok(MemorySink {
            held: Vec::with_capacity(alloc, room as usize)?,
            room,
            most,
            fails,
            calls: 0,
            faults: 0,
        })
    }

    /// What was written.
    pub fn bytes(&self) -> &[u8]
        ensures { result.now ≡ self.now.bytes }
    {
        self.held.as_slice()
    }

    /// The number of faults so far.
    pub fn faults(&self) -> u64
        ensures { result ≡ self.now.faults }
    {
        self.faults
    }

    /// The number of calls so far.
    pub fn calls(&self) -> u64
        ensures { result ≡ self.now.calls }
    {
        self.calls
    }
}

impl Sink for MemorySink {
    ghost written = { λ s. Some s.bytes };

    ghost faults = { λ s. s.faults };

    ghost can_write = { λ _. Unit {0} };

    fn write(&mut self, bytes: &[u8]) -> Result<usize, Failed> {
        self.calls = self.calls.saturating_add(1);
        if self.held.len() as u64 == self.room || self.fails.as_slice().contains(&self.calls) {
            self.faults = self.faults.saturating_add(1);
            return Err(Failed);
        }
        Ok(append_piece(&mut self.held, self.room, self.most, bytes))
    }
}
