ghost use Rattle.std.specs.Prelude.{None, ◌≤◌, length, IfSome};
ghost use Rattle.fort_port.specs.Outside.{Untold};

use crate::shelf::{Failed, Shelf};
use crate::sink::Sink;
use fort_base::Bytes;
use std::fs;
use std::io::{Read, Seek, SeekFrom, Write};
use std::rt::Files;

/// Real files, by their paths. Whatever the system answers as an error is a fault, and so is a path
/// that isn't UTF-8. Nothing is told of what files hold.
#[derive(Drop)]
pub struct FileShelf<R: Files + Drop> {
    rt: R,
    faults: u64,
}

impl<R: Files + Drop> FileShelf<R> {
    /// The files that a runtime reaches.
    pub fn new(rt: R) -> FileShelf<R> {
        FileShelf { rt, faults: 0 }
    }

    fn piece(&self, name: &Bytes, at: u64, into: &mut [u8]) -> Option<usize>
        ensures { IfSome result (λ n. n ≤ length into.new) }
    {
        let path = str::from_utf8(name.as_slice()).ok()?;
        let mut file = fs::open(&self.rt, path).ok()?;
        file.seek(SeekFrom::Start(at)).ok()?;
        file.read(into).ok()
    }
}

impl<R: Files + Drop> Shelf for FileShelf<R> {
    ghost holding = { λ _ _. Untold };

    ghost faults = { λ s. s.faults };

    fn read_at(&mut self, name: &Bytes, at: u64, into: &mut [u8]) -> Result<usize, Failed> {
        match self.piece(name, at, into) {
            Some(count) => Ok(count),
            None => {
                self.faults = self.faults.saturating_add(1);
                Err(Failed)
            }
        }
    }
}

/// A real output. Whatever the system answers as an error is a fault, and so is a write of no
/// bytes. Nothing is told of what was written.
#[derive(Drop)]
pub struct StreamSink<W: Write + Drop> {
    stream: W,
    faults: u64,
}

impl<W: Write + Drop> StreamSink<W> {
    /// The output that a stream is.
    pub fn new(stream: W) -> StreamSink<W> {
        StreamSink { stream, faults: 0 }
    }
}

impl<W: Write + Drop> Sink for StreamSink<W> {
    ghost written = { λ _. None };

    ghost faults = { λ s. s.faults };

    ghost can_write = { λ _. Unit {0} };

    fn write(&mut self, bytes: &[u8]) -> Result<usize, Failed> {
        match self.stream.write(bytes) {
            Ok(count) if count > 0 => Ok(count),
            _ => {
                self.faults = self.faults.saturating_add(1);
                Err(Failed)
            }
        }
    }
}
