//! Files in memory of which one stops.

use sqlite::Files;
use sqlite_disk::{Crash, Disk, Fuse, Memory};
use std::alloc::{AllocError, Global};
use std::fmt::{self, Display, Formatter, Write};
use std::io;
use std::marker::PhantomData;

/// A database file and its log, each with a fuse.
pub type FusedFiles = Files<Fuse<Memory>>;

/// The calls of a file that never stops.
const ALL_CALLS: u64 = u64::MAX;

/// The file whose calls fail from some call on.
#[derive(Clone, Copy, Debug, PartialEq, Eq)]
pub enum Stopped {
    Log,
    Database,
}

/// What a stop leaves in the files.
#[derive(Clone, Copy, Debug, PartialEq, Eq)]
pub enum Left {
    /// All that was written, as when a process is killed.
    Written,
    /// What was synced, as when power fails.
    Synced,
}

impl Display for Stopped {
    fn fmt<W: Write>(&self, f: &mut Formatter<W>) -> fmt::Result {
        f.write_str(match self {
            Stopped::Log => "log",
            Stopped::Database => "database",
        })
    }
}

impl Display for Left {
    fn fmt<W: Write>(&self, f: &mut Formatter<W>) -> fmt::Result {
        f.write_str(match self {
            Left::Written => "written bytes are kept",
            Left::Synced => "unsynced bytes are lost",
        })
    }
}

/// The bytes of a database file and of its log, for tables over a disk.
#[derive(Drop)]
pub struct Image<D> {
    log: Vec<u8>,
    database: Vec<u8>,
    disk: PhantomData<D>,
}

impl<D> Image<D> {
    /// No bytes.
    pub fn empty(alloc: Global) -> Image<D> {
        Image {
            log: Vec::new(alloc),
            database: Vec::new(alloc),
            disk: PhantomData,
        }
    }

    /// Files of these bytes.
    pub fn files(&self, alloc: Global) -> io::Result<FusedFiles> {
        self.fused(alloc, ALL_CALLS, ALL_CALLS)
    }

    /// Files of these bytes, of which one stops after so many calls.
    pub fn stopping(&self, alloc: Global, stopped: Stopped, calls: u64) -> io::Result<FusedFiles> {
        match stopped {
            Stopped::Log => self.fused(alloc, calls, ALL_CALLS),
            Stopped::Database => self.fused(alloc, ALL_CALLS, calls),
        }
    }

    fn fused(&self, alloc: Global, log_calls: u64, database_calls: u64) -> io::Result<FusedFiles> {
        Ok(Files {
            log: Fuse::new(file_of(alloc, &self.log)?, log_calls),
            db: Fuse::new(file_of(alloc, &self.database)?, database_calls),
        })
    }

    /// What is left in the files.
    pub fn left(alloc: Global, mut files: FusedFiles, left: Left) -> Result<Image<D>, AllocError> {
        if left == Left::Synced {
            files.log.crash();
            files.db.crash();
        }
        Image::of(alloc, &files)
    }

    // What is written in the files.
    fn of(alloc: Global, files: &FusedFiles) -> Result<Image<D>, AllocError> {
        Ok(Image {
            log: Vec::from_slice(alloc, files.log.inner().bytes())?,
            database: Vec::from_slice(alloc, files.db.inner().bytes())?,
            disk: PhantomData,
        })
    }
}

/// Files with no bytes, none of which stops.
pub fn no_files(alloc: Global) -> FusedFiles {
    Files {
        log: Fuse::new(Memory::new(alloc), ALL_CALLS),
        db: Fuse::new(Memory::new(alloc), ALL_CALLS),
    }
}

// A file of these bytes, all of them synced.
fn file_of(alloc: Global, bytes: &[u8]) -> io::Result<Memory> {
    let mut file = Memory::new(alloc);
    file.write_at(0, bytes)?;
    file.sync()?;
    Ok(file)
}

/// Whether one of the files has come to its last call.
pub fn is_stopped(files: &mut FusedFiles) -> bool {
    if !files.may_be_used() {
        return true;
    }
    files.log.len().is_err() || files.db.len().is_err()
}
