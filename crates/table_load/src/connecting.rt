//! Connections to the files at a path: a database file and its WAL. A parameter `start: S` stands for what
//! the files held before, which only contracts read; `S` also says what a torn write is assumed to leave.

ghost use Rattle.std.specs.Prelude.{IfErr, IfOk};
ghost use Rattle.sqlite_wal.specs.Files.{image_at};
ghost use Rattle.sqlite.specs.Held.{IsNew};
ghost use Rattle.table_load.specs.Files.{Finds, IsUnreached};

use crate::fault::OpenFault;
use crate::path::{NotOpened, connect_over, not_opened, open_pair, options};
use sqlite::{Connection, FileFrom, FileStore, Start};
use std::fs::{exists, metadata};

/// Connects to the database in the file at `path` and its WAL. Each of the two that isn't there is made. If
/// the disk returned what was written, the connection shows the database that the files held.
///
/// # Errors
///
/// `OutOfMemory` if memory runs out, and `Store` if the files can't be opened for another cause. The contract
/// only says that the fault is one of these two.
pub fn connect<S: Start>(
    rt: &HostRuntime,
    path: &str,
    start: S,
) -> Result<Connection<FileStore<FileFrom<S>>>, NotOpened<FileFrom<S>>>
    ensures found { IfOk result (Finds (image_at S.Start)) }
    ensures fresh { IfOk result IsNew }
    ensures unread { IfErr result (IsUnreached (image_at S.Start)) }
{
    let options = options(rt)?;
    let files = open_pair(rt, path, start)?;
    connect_over(rt.alloc(), files, options)
}

/// As `connect`, but the database file must exist and not be empty. The contract doesn't say that it does.
///
/// # Errors
///
/// Those of `connect`, and `Store` if there is no file at `path`, if it is empty, or if that can't be known.
pub fn connect_to_existing<S: Start>(
    rt: &HostRuntime,
    path: &str,
    start: S,
) -> Result<Connection<FileStore<FileFrom<S>>>, NotOpened<FileFrom<S>>>
    ensures found { IfOk result (Finds (image_at S.Start)) }
    ensures fresh { IfOk result IsNew }
    ensures unread { IfErr result (IsUnreached (image_at S.Start)) }
{
    match metadata(rt, path) {
        Ok(found) if found.len() > 0 => connect(rt, path, start),
        _ => Err(not_opened(OpenFault::Store)),
    }
}

/// As `connect`, but there must be nothing at `path`. The contract doesn't say that this was checked.
///
/// # Errors
///
/// Those of `connect`, and `Store` if there is something at `path`, or if that can't be known.
pub fn connect_new<S: Start>(
    rt: &HostRuntime,
    path: &str,
    start: S,
) -> Result<Connection<FileStore<FileFrom<S>>>, NotOpened<FileFrom<S>>>
    ensures found { IfOk result (Finds (image_at S.Start)) }
    ensures fresh { IfOk result IsNew }
    ensures unread { IfErr result (IsUnreached (image_at S.Start)) }
{
    match exists(rt, path) {
        Ok(false) => connect(rt, path, start),
        _ => Err(not_opened(OpenFault::Store)),
    }
}
