//! Readers and writers in memory that are slow, end early or fail, and count how often they are asked.

ghost use Rattle.std.specs.Prelude.{◌≡◌, IfOk};

use std::alloc::Global;
use std::io::{self, ErrorKind, Read, Write};

/// What comes of a read behind the last byte, or of a write for which there is no room.
#[derive(Clone, Copy, Debug)]
pub enum Ending {
    /// No byte is read or written.
    Ends,
    /// It fails.
    Fails,
    /// It is interrupted.
    Interrupted,
}

impl Ending {
    fn result(self) -> io::Result<usize>
        ensures { IfOk result (λ count. count ≡ 0) }
    {
        match self {
            Ending::Ends => Ok(0),
            Ending::Fails => Err(io::Error::from(ErrorKind::Other)),
            Ending::Interrupted => Err(io::Error::from(ErrorKind::Interrupted)),
        }
    }
}

/// How a stream is read and written.
#[derive(Clone, Copy, Debug)]
pub struct Pace {
    /// The most bytes of a read.
    pub read_each: usize,
    pub read_end: Ending,
    /// The most bytes of a write.
    pub write_each: usize,
    /// The most bytes of all writes.
    pub write_room: usize,
    pub write_end: Ending,
}

/// A reader of bytes in memory.
#[derive(Drop)]
pub struct SlowReader<'t> {
    left: &'t [u8],
    pace: Pace,
    reads: u32,
}

impl<'t> SlowReader<'t> {
    pub fn new(left: &'t [u8], pace: Pace) -> SlowReader<'t> {
        SlowReader {
            left,
            pace,
            reads: 0,
        }
    }

    /// The bytes that were not read.
    pub fn left(&self) -> &'t [u8] {
        self.left
    }

    /// How many reads there were.
    pub fn reads(&self) -> u32 {
        self.reads
    }
}

impl Read for SlowReader<'_> {
    fn read(&mut self, buf: &mut [u8]) -> io::Result<usize> {
        self.reads = self.reads.saturating_add(1);
        if self.left.is_empty() {
            return self.pace.read_end.result();
        }
        let count = buf.len().min(self.left.len()).min(self.pace.read_each);
        let (now, later) = self.left.split_at(count);
        buf[..count].copy_from_slice(now);
        self.left = later;
        Ok(count)
    }
}

/// A writer to memory.
#[derive(Drop)]
pub struct SlowWriter {
    bytes: Vec<u8>,
    room: usize,
    pace: Pace,
    writes: u32,
}

impl SlowWriter {
    pub fn new(alloc: Global, pace: Pace) -> SlowWriter {
        SlowWriter {
            bytes: Vec::new(alloc),
            room: pace.write_room,
            pace,
            writes: 0,
        }
    }

    /// The bytes that were written.
    pub fn bytes(&self) -> &[u8] {
        &self.bytes
    }

    /// How many writes there were.
    pub fn writes(&self) -> u32 {
        self.writes
    }
}

impl Write for SlowWriter {
    fn write(&mut self, buf: &[u8]) -> io::Result<usize> {
        self.writes = self.writes.saturating_add(1);
        if self.room == 0 {
            return self.pace.write_end.result();
        }
        let count = buf.len().min(self.room).min(self.pace.write_each);
        match self.bytes.extend_from_slice(&buf[..count]) {
            Ok(()) => {
                self.room -= count;
                Ok(count)
            }
            Err(_) => Err(io::Error::from(ErrorKind::OutOfMemory)),
        }
    }

    fn flush(&mut self) -> io::Result<()> {
        Ok(())
    }
}
