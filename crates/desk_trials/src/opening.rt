//! Tables in files in memory of which one may stop: connections to them, and stores over them. All that is
//! played over tables is over any disk that stands for the one in memory, and only `main` names the disk in
//! memory: at a disk that is named the checker compares all that a store stands on for each call.

ghost use Rattle.std.specs.Prelude.{◌≡◌, false, IfOk};

use crate::disk::FusedFiles;
use desk_tables::SqliteStore;
use sqlite::{Connection, FileStore, Files, Options};
use sqlite_disk::{Disk, Fuse, Memory};
use std::alloc::Global;

/// A disk that stands for the disk in memory with a fuse, which is one.
pub trait Fused: Disk + Drop {
    /// A file in memory, as one of this disk.
    fn of_fused(file: Fuse<Memory>) -> Self;

    /// A file of this disk, as one in memory.
    fn into_fused(self) -> Fuse<Memory>;
}

impl Fused for Fuse<Memory> {
    fn of_fused(file: Fuse<Memory>) -> Fuse<Memory> {
        file
    }

    fn into_fused(self) -> Fuse<Memory> {
        self
    }
}

// How many pages are kept: few, since files are opened again and again, which takes as long as it takes to
// drop them.
const CACHED_PAGES: usize = 16;

// Whether new files get sums on their pages, as a desk's do.
const NEW_HAS_SUMS: bool = true;

/// A connection to the database of the files, or the files if there is none.
pub fn connect<D: Fused>(
    alloc: Global,
    files: FusedFiles,
) -> Result<Connection<FileStore<D>>, FusedFiles>
    ensures settled { IfOk result (λ c. c.in_transaction ≡ false) }
{
    let files = of_fused::<D>(files);
    if !files.may_be_used() {
        return Err(into_fused(files));
    }
    let options = Options {
        cache_pages: CACHED_PAGES,
        ..Options::new(1)
    };
    match Connection::open_files_with(alloc, files, options, NEW_HAS_SUMS) {
        Ok(connection) => Ok(connection),
        Err((_, left)) => Err(into_fused(left.into_files())),
    }
}

/// The files of a connection, which is closed as far as they let it.
pub fn close<D: Fused>(connection: Connection<FileStore<D>>) -> FusedFiles {
    into_fused(match connection.close_files() {
        Ok(files) => files,
        Err((_, store)) => store.close(),
    })
}

/// The store over the files, or the files if it can't be opened.
pub fn open<D: Fused>(
    alloc: Global,
    files: FusedFiles,
) -> Result<SqliteStore<FileStore<D>>, FusedFiles> {
    match connect(alloc, files) {
        Ok(connection) => adopt(alloc, connection),
        Err(files) => Err(files),
    }
}

fn adopt<D: Fused>(
    alloc: Global,
    connection: Connection<FileStore<D>>,
) -> Result<SqliteStore<FileStore<D>>, FusedFiles>
    requires settled { connection.in_transaction ≡ false }
{
    match SqliteStore::adopt(alloc, connection) {
        Ok(store) => Ok(store),
        Err(refused) => Err(close(refused.connection)),
    }
}

/// The files of a store, which is closed as far as they let it.
pub fn close_store<D: Fused>(store: SqliteStore<FileStore<D>>) -> FusedFiles {
    close(store.release())
}

// Files in memory, as files of a disk that stands for them.
fn of_fused<D: Fused>(files: FusedFiles) -> Files<D> {
    let Files { log, db } = files;
    Files {
        log: D::of_fused(log),
        db: D::of_fused(db),
    }
}

// Files of a disk that stands for the one in memory, as files in memory.
fn into_fused<D: Fused>(files: Files<D>) -> FusedFiles {
    let Files { log, db } = files;
    Files {
        log: log.into_fused(),
        db: db.into_fused(),
    }
}
