//! Opens the files at a path, or reports why they were not opened. Nothing else makes a `NotOpened`. A
//! parameter `start` stands for what the files held before, which only contracts read.

ghost use Rattle.std.specs.Prelude.{◌≡◌, IfErr, IfOk, IsTrue, None, true, false};
ghost use Rattle.std.specs.Option.{IsSomeAnd};
ghost use Rattle.sqlite_wal.specs.Files.{image_at};
ghost use Rattle.sqlite_std_file.specs.File.{file_is_usable, IsFresh};
ghost use Rattle.sqlite.specs.{Files.image_of, Files.IsCleanLeft, Files.LeavesFiles, Held.IsNew};
ghost use Rattle.table_load.specs.Files.{Finds, IsUnread, IsUnreached, log_frames};

use crate::fault::OpenFault;
use sqlite::{Connection, FileFrom, FileStore, Files, Leftover, Options, Start};
use sqlite_disk::Disk;
use sqlite_std_file::OpenError;
use std::alloc::Global;
use std::hash::{BuildHasher, RandomState};
use std::io::ErrorKind;
use std::snapshot::Snapshot;

// Whether the pages of new files get checksums, as by SQLite's cksumvfs.
const NEW_HAS_SUMS: bool = true;

// How many frames (pages written) the WAL has before it is checkpointed: what 20 to 60 changes write.
const LOG_FRAMES: usize = 320;

/// Why files were not opened. Only functions that try to open files make one.
#[derive(Drop)]
pub struct NotOpened<D: Disk> {
    fault: OpenFault,
    // The files as they were left, if both were there. They are closed; only contracts read this.
    left: Option<Snapshot<Leftover<D>>>,
}

impl<D: Disk> NotOpened<D> {
    /// Why the files were not opened.
    pub fn fault(&self) -> OpenFault
        ensures { result ≡ self.now.fault }
    {
        self.fault
    }
}

/// Connects to the database in `files`, which are open. `OutOfMemory` if memory runs out, and `Store` if
/// SQLite fails for another cause. If the disk returned what was written, the connection shows their
/// database. For contracts, the error has the files as they were left.
pub(crate) fn connect_over<D: Disk + Drop>(
    alloc: Global,
    files: Files<D>,
    options: Options,
) -> Result<Connection<FileStore<D>>, NotOpened<D>>
    requires log { IsTrue (D.Disk.is_usable files.log) }
    requires db { IsTrue (D.Disk.is_usable files.db) }
    ensures found { IfOk result (Finds (image_of D.Disk files)) }
    ensures fresh { IfOk result IsNew }
    ensures unread { IfErr result (λ it. IsUnread it.fault) }
    ensures left { IfErr result (λ it. IsSomeAnd it.left (λ s.
        IsCleanLeft s.value → LeavesFiles files s.value)) }
{
    match Connection::open_files_with(alloc, files, options, NEW_HAS_SUMS) {
        Ok(connection) => Ok(connection),
        Err((error, left)) => Err(NotOpened {
            fault: OpenFault::from(error),
            left: Some(Snapshot::of(&left)),
        }),
    }
}

/// Opens the database file at `path` and its WAL. Each of the two that isn't there is made. `OutOfMemory` if
/// memory runs out. `Store` if `path` is `:memory:` or begins with `file:`, which SQLite doesn't read as
/// paths, or if the files can't be opened for another cause. In the contract, the fault is one of these two.
pub(crate) fn open_pair<S: Start>(
    rt: &HostRuntime,
    path: &str,
    start: S,
) -> Result<Files<FileFrom<S>>, NotOpened<FileFrom<S>>>
    ensures log { IfOk result (λ files. IsTrue (file_is_usable S.Start files.log)) }
    ensures db { IfOk result (λ files. IsTrue (file_is_usable S.Start files.db)) }
    ensures fresh { IfOk result (λ files. IsFresh true files.log × IsFresh false files.db) }
    ensures unread { IfErr result (IsUnreached (image_at S.Start)) }
{
    if path == ":memory:" || path.starts_with("file:") {
        return Err(not_opened(OpenFault::Store));
    }
    match sqlite_std_file::open(rt, path, start) {
        Ok(files) => Ok(files),
        Err(OpenError::OutOfMemory) => Err(not_opened(OpenFault::OutOfMemory)),
        Err(OpenError::Io(error)) if error.kind() == ErrorKind::OutOfMemory => {
            Err(not_opened(OpenFault::OutOfMemory))
        }
        Err(_) => Err(not_opened(OpenFault::Store)),
    }
}

/// The options of a connection: after how many frames its WAL is checkpointed, and the seed for the salts of
/// the WAL. The seed is the hash of a constant under a random key of the operating system; `Store` if that
/// fails. No contract speaks of the seed.
pub(crate) fn options<D: Disk>(rt: &HostRuntime) -> Result<Options, NotOpened<D>>
    ensures frames { IfOk result (λ options. options.checkpoint_frames ≡ log_frames) }
    ensures fault { IfErr result (λ it. IsUnread it.fault) }
    ensures left { IfErr result (λ it. it.left ≡ None) }
{
    let random = RandomState::new(rt).map_err(|_| not_opened(OpenFault::Store))?;
    Ok(Options {
        checkpoint_frames: LOG_FRAMES,
        ..Options::new(random.hash_one(&0u8))
    })
}

/// The error with the cause `fault`, for two files that were not both opened. It keeps none of them.
pub(crate) fn not_opened<D: Disk>(fault: OpenFault) -> NotOpened<D>
    ensures fault { result.fault ≡ fault }
    ensures left { result.left ≡ None }
{
    NotOpened { fault, left: None }
}
