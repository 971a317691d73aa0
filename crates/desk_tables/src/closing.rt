//! Closing a store over files. The database file alone has its state then.

ghost use Rattle.std.specs.Prelude.{IfErr, IfOk};
ghost use Rattle.sqlite_wal.specs.Reads.{AreClean};
ghost use Rattle.sqlite.specs.Closing.{IsCopied};
ghost use Rattle.desk_tables.specs.Store.{IsLeftUnclosed};

use crate::store::SqliteStore;
use sqlite::{Error, FileStore, Files};
use sqlite_disk::Disk;

/// Files whose checkpoint failed. Only `close` makes one, after it tried a checkpoint. They can only be
/// dropped, which closes them as they are.
#[derive(Drop)]
pub struct CheckpointError<D: Disk> {
    error: Error,
    left: FileStore<D>,
}

impl<D: Disk + Drop> SqliteStore<FileStore<D>> {
    /// Checkpoints the WAL into the database file and empties it; returns the files. If the disk returned
    /// what was written, the database file alone has the state then, also after a crash.
    ///
    /// # Errors
    ///
    /// `CheckpointError` if the checkpoint fails: memory ran out, the disk failed or returned other bytes, or
    /// an error had shut the connection before. The state stays, also after a crash: it is read from both
    /// files when they are opened again.
    pub fn close(self) -> Result<Files<D>, CheckpointError<D>>
        ensures copied { IfOk result (λ files. AreClean D.Disk files.log files.db →
            IsCopied self.held files) }
        ensures unclosed { IfErr result (IsLeftUnclosed self.held) }
    {
        match self.release().close_files() {
            Ok(files) => Ok(files),
            Err((error, left)) => Err(CheckpointError { error, left }),
        }
    }
}
