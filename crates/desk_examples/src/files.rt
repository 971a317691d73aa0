//! Files of a desk, and connections to them.

ghost use Rattle.std.specs.Prelude.{◌≡◌, IfOk, Bool, false, length};
ghost use Rattle.sqlite_wal.specs.Reads.{AreClean};
ghost use Rattle.sqlite.specs.Closing.{IsCopied};
ghost use Rattle.desk_store.specs.World.{World};
ghost use Rattle.table_load.specs.{Moving.ShowsContent, Files.OpensIn, Files.no_files};

use desk_run::Desk;
use desk_tables::{OpenFault, SqliteStore, read_stats};
use sqlite::{Connection, FileFrom, FileStore, Files, Unknown};
use sqlite_disk::Disk;
use sqlite_trees::store::Alter;
use std::alloc::Global;

/// A desk over files.
pub type FileDesk<D> = Desk<SqliteStore<FileStore<D>>>;

/// Opens the desk in the files at a path, or makes a new one there.
///
/// # Errors
///
/// Why the files can't be opened, or are no desk's.
pub fn open_desk(rt: &HostRuntime, path: &str) -> Result<FileDesk<FileFrom<Unknown>>, OpenFault>
    ensures { IfOk result (λ desk. OpensIn no_files desk.store.held desk.store.world) }
{
    match SqliteStore::open(rt, path) {
        Ok(store) => Ok(Desk::new(store)),
        Err(refused) => Err(refused.fault),
    }
}

/// Closes the store of a desk over files, as `into_store` gives it: if the disk returned what was written,
/// the database file alone is the desk then.
///
/// # Errors
///
/// `Store` if the log can't be copied into the database file.
pub fn close_store<D: Disk + Drop>(store: SqliteStore<FileStore<D>>) -> Result<Files<D>, OpenFault>
    ensures { IfOk result (λ files. AreClean D.Disk files.log files.db → IsCopied store.held files) }
{
    store.close().map_err(|_| OpenFault::Store)
}

/// How many plans the database of a connection has, closed ones too, in either schema.
///
/// # Errors
///
/// `OutOfMemory` if memory runs out, `NotADesk` if the database is no desk's, `Store` if SQLite refuses.
pub fn plan_count<S: Alter>(
    alloc: Global,
    connection: &mut Connection<S>,
) -> Result<usize, OpenFault>
    requires { connection.old.in_transaction ≡ false }
    ensures { IfOk result (λ count. (is_old : Bool) × (w : World) × (count ≡ length w.plans)
        × ShowsContent S.Store connection.old connection.new is_old w) }
{
    Ok(read_stats(alloc, connection)?.plans)
}
