//! Opens the desk over the database that a command names.

ghost use Rattle.std.specs.Prelude.{◌≡◌, IfErr, IfOk};
ghost use Rattle.sqlite_wal.specs.Files.{image_at};
ghost use Rattle.desk_rules.specs.Outcome.{no_terms};
ghost use Rattle.uss_desk.specs.OpenedFor.{IsBlank, IsMemory, IsMigratedAt, IsMigratedIn, IsOpenedAt, IsOpenedIn, HasNoted, HasNotedAt, HasNotedDesk};

use crate::rolls::NotedOperators;
use crate::watching::PathChecked;
use db_file::Ram;
use desk_admin::unopened::{FileOpenError, OpenError, open_failure};
use desk_cli::{Database, ErrorCode};
use desk_run::Desk;
use desk_tables::{OpenFault, SqliteStore};
use host_files::files::LocalHost;
use host_files::naming::make_private;
use host_files::paths::{NoPaths, OpenPaths};
use sqlite::{FileFrom, FileStore, Start};
use sqlite_disk::Disk;
use std::alloc::Global;

/// A desk over a database in files of a disk `D`, with their paths `N`.
pub type DeskAt<D, N> = Desk<PathChecked<FileStore<D>, N>>;

/// A desk in memory.
pub type MemoryDesk = DeskAt<Ram, NoPaths>;

/// A desk over the database in files; the type `F` stands for their content before, and `N` are their paths.
pub type FileDesk<F, N> = DeskAt<FileFrom<F>, N>;

/// What was opened over a database: a desk in memory (`M`), or one over files (`D`).
#[derive(Drop)]
pub enum Opened<M: Drop, D: Drop> {
    /// A desk in memory.
    Memory(M),
    /// A desk over files.
    Files(D),
}

/// What is opened over a database: a desk or why there is none; the type `F` stands for the content of its
/// files before, and `N` are their paths.
pub type OpenedDesk<F, N> = Opened<Result<MemoryDesk, ErrorCode>, FoundDesk<F, N>>;

/// A desk over files, or why it can't be opened.
pub type FoundDesk<F, N> = Result<FileDesk<F, N>, FileOpenError<F>>;

/// A desk over files and how many plans were migrated to it from schema 1, or why it can't be opened.
pub type MigratedDesk<F, N> = Result<(FileDesk<F, N>, u32), FileOpenError<F>>;

/// Opens the desk over a database, in memory or in files. For files, `start` stands for their content,
/// `paths` are theirs, and the operators of the desk are noted in `roll`.
pub fn open_database<F: Start, N: OpenPaths + Drop>(
    host: LocalHost<'_>,
    database: &Database,
    start: F,
    paths: N,
    roll: &mut NotedOperators,
) -> OpenedDesk<F, N>
    ensures opened { IsOpenedAt (image_at F.Start) database.now result }
    ensures noted { HasNotedAt result roll.new }
{
    match database {
        Database::InMemory => Opened::Memory(open_in_memory(host.alloc())),
        Database::File(path) => Opened::Files(open_file(host, path, start, paths, roll)),
    }
}

/// Opens a desk in memory, without operators and plans.
///
/// # Errors
///
/// `Memory` if memory runs out.
pub fn open_in_memory(alloc: Global) -> Result<MemoryDesk, ErrorCode>
    ensures blank { IfOk result IsBlank }
    ensures failure { IfErr result IsMemory }
{
    match SqliteStore::in_memory(alloc) {
        Ok(store) => Ok(Desk::new(PathChecked::over(store, NoPaths))),
        Err(fault) => Err(open_failure(&fault)),
    }
}

/// Opens the desk over the database file at `path`. A missing file is made, and only its owner can read and
/// write it. `start` stands for the content of the files, and `paths` are theirs: which files they lead to is
/// noted before opening, and again after it, for a file that was missing. The operators are noted in `roll`.
///
/// # Errors
///
/// The files are refused; the error code is the `open_failure` of their fault.
pub fn open_file<F: Start, N: OpenPaths + Drop>(
    host: LocalHost<'_>,
    path: &str,
    start: F,
    mut paths: N,
    roll: &mut NotedOperators,
) -> FoundDesk<F, N>
    ensures opened { IsOpenedIn (image_at F.Start) result }
    ensures noted { HasNotedDesk result roll.new }
{
    make_private(host.rt, path);
    paths.note_open_files();
    match SqliteStore::open_from(host.rt, path, start) {
        Ok(store) => {
            roll.note(&store);
            paths.note_open_files();
            Ok(Desk::new(PathChecked::over(store, paths)))
        }
        Err(refused) => Err(OpenError::of(refused)),
    }
}

/// The desk as if it was just opened: over the same store, without terms, and with its operators noted in
/// `roll` if they are needed there.
pub fn opened_anew<D: Disk + Drop, N: OpenPaths + Drop>(
    desk: DeskAt<D, N>,
    roll: &mut NotedOperators,
) -> DeskAt<D, N>
    ensures same { result ≡ record { store = desk.store; terms = no_terms } }
    ensures noted { HasNoted result.store roll.new }
{
    let store = desk.into_store();
    store.note(roll);
    Desk::new(store)
}

/// Opens the desk over a database that may be of schema 1, and migrates its plans to schema 2; also returns
/// how many were migrated. `start` stands for the content of its files, and `paths` are theirs.
///
/// # Errors
///
/// The files are refused; the error code is the `open_failure` of their fault. It is `Store` for a database
/// in memory, which can't have plans of schema 1.
pub fn open_old<F: Start, N: OpenPaths + Drop>(
    host: LocalHost<'_>,
    database: &Database,
    start: F,
    paths: N,
) -> MigratedDesk<F, N>
    ensures { IsMigratedAt (image_at F.Start) database.now result }
{
    match database {
        Database::InMemory => Err(OpenError::unread(OpenFault::Store)),
        Database::File(path) => open_old_file(host, path, start, paths),
    }
}

// Opens the desk over the database file at `path` and migrates its plans of schema 1; also returns how many
// were migrated. `start` stands for the content of the files. Which files the `paths` lead to is noted before
// opening, and again after it.
fn open_old_file<F: Start, N: OpenPaths + Drop>(
    host: LocalHost<'_>,
    path: &str,
    start: F,
    mut paths: N,
) -> MigratedDesk<F, N>
    ensures { IsMigratedIn (image_at F.Start) result }
{
    paths.note_open_files();
    match SqliteStore::migrate_from(host.rt, path, start) {
        Ok((store, count)) => {
            paths.note_open_files();
            Ok((Desk::new(PathChecked::over(store, paths)), count))
        }
        Err(refused) => Err(OpenError::of(refused)),
    }
}
