//! Opens stores of plans over files: a database file and its WAL. A parameter `start: S` stands for what the
//! files held before, which only contracts read; `S` also says what a torn write is assumed to leave. A state
//! has the operators with their ceilings, and all plans; it is valid if it keeps the desk's limits. Schema 1
//! is the older one, whose rows are in `volume` and `span`.

ghost use Rattle.std.specs.Prelude.{◌≡◌, IfErr, IfOk, MatchResult};
ghost use Rattle.sqlite_wal.specs.{Files.image_at, Recovery.Image};
ghost use Rattle.sqlite.specs.{Held.IsNew, Files.over_files};
ghost use Rattle.table_load.specs.{OpeningSteps.IsCompletedAs, OpeningSteps.IsCutShort, OpeningSteps.IsMovedOn, Moving.AreStatsOf, Opening.HaveFewRows};
ghost use Rattle.table_load.specs.Files.{AreNotMoved, AreRefused, Finds, OpensIn, OpensMoved, no_files, IsGuarded, IsSettledAt};
ghost use Rattle.desk_store.specs.World.{World, IsContent};
ghost use Rattle.desk_tables.specs.Copying.{AreNotCopied, AreNotMade, AreNotRead, IsMadeIn, IsUnmadeOf, LooksIn};
ghost use Rattle.row_codec.specs.SpanBounds.{Knows};

use crate::opening::copying::store_of;
use crate::store::SqliteStore;
use row_codec::content::Content;
use row_codec::known::MemoryIndex;
use sqlite::{Connection, FileFrom, FileStore, Start, Unknown};
use sqlite_disk::Disk;
use sqlite_trees::store::Alter;
use std::alloc::Global;
use table_load::connecting::{connect, connect_new, connect_to_existing};
use table_load::fault::OpenFault;
use table_load::looking::{DbStats, read_content, stats_of};
use table_load::path::NotOpened;

// A connection to files, the state that was read from them, the indexes in memory, and whether the rows are
// those of schema 1.
type ReadFiles<S> = (Connection<S>, Content, MemoryIndex, bool);

/// A connection to the database that was copied; and the copy's store, with its statistics.
pub type Copied<D, E> = (
    Connection<FileStore<D>>,
    (SqliteStore<FileStore<E>>, DbStats),
);

/// Why files were refused, with the connection that read them, or the error if they weren't opened.
#[derive(Drop)]
pub struct FilesFault<D: Disk> {
    /// The cause.
    pub fault: OpenFault,
    /// The connection, with the rows that it had; or the error if the files weren't opened.
    pub connection: Result<Connection<FileStore<D>>, NotOpened<D>>,
}

/// The connection to the database that was to be copied. It can only be dropped.
#[derive(Drop)]
pub struct Source<D: Disk> {
    connection: Connection<FileStore<D>>,
}

/// Why nothing was copied.
#[derive(Drop)]
pub enum CopyFault<D: Disk, E: Disk> {
    /// The database to be copied wasn't read.
    Unread(FilesFault<D>),
    /// No store was made in the new files. The database to be copied is as it was.
    Unmade(FilesFault<E>, Source<D>),
}

impl<S: Start> SqliteStore<FileStore<FileFrom<S>>> {
    /// Opens the store over the database in the files at `path`, as `adopt` does. Missing files are made.
    ///
    /// # Errors
    ///
    /// The connection, if there was one, and `OutOfMemory` if memory runs out. `Store` if the files can't be
    /// opened, or if SQLite fails for another cause. `OldSchema` if there are rows of schema 1. `NotADesk` if
    /// the tables aren't a desk's, or if their rows aren't those of a valid state.
    pub fn open_from(
        rt: &HostRuntime,
        path: &str,
        start: S,
    ) -> Result<SqliteStore<FileStore<FileFrom<S>>>, FilesFault<FileFrom<S>>>
        ensures begins { IfOk result (λ store.
            OpensIn (image_at S.Start) store.held store.world) }
        ensures left { IfOk result (λ store. IsSettledAt over_files store.held store.world) }
        ensures guarded { IfOk result (λ store. IsGuarded store.held) }
        ensures fault { IfErr result (λ e. AreRefused (image_at S.Start) e.fault e.connection) }
        ensures cut { MatchResult result (λ store. IsCutShort IsCompletedAs (image_at S.Start) store.held)
            (λ e. IfOk e.connection (IsCutShort IsCompletedAs (image_at S.Start))) }
    {
        match connect(rt, path, start) {
            Ok(connection) => adopt_files(rt.alloc(), connection),
            Err(unreached) => Err(FilesFault {
                fault: unreached.fault(),
                connection: Err(unreached),
            }),
        }
    }

    /// Opens the store over the database in the files at `path`, which it migrates if it is of schema 1, as
    /// `adopt_old` does. Also returned is how many plans were migrated.
    ///
    /// # Errors
    ///
    /// The connection, if there was one, and `OutOfMemory` if memory runs out. `Store` if there is no file or
    /// an empty one, if the files can't be opened, or if SQLite fails for another cause. `NotADesk` if the
    /// tables aren't a desk's, or if their rows aren't those of a valid state in either schema.
    pub fn migrate_from(
        rt: &HostRuntime,
        path: &str,
        start: S,
    ) -> Result<(SqliteStore<FileStore<FileFrom<S>>>, u32), FilesFault<FileFrom<S>>>
        ensures begins { IfOk result (λ moved.
            OpensMoved (image_at S.Start) moved.0.held moved.0.world moved.1) }
        ensures left { IfOk result (λ moved. IsSettledAt over_files moved.0.held moved.0.world) }
        ensures guarded { IfOk result (λ moved. IsGuarded moved.0.held) }
        ensures fault { IfErr result (λ e. AreNotMoved (image_at S.Start) e.fault e.connection) }
        ensures cut { MatchResult result (λ moved. IsCutShort IsMovedOn (image_at S.Start) moved.0.held)
            (λ e. IfOk e.connection (IsCutShort IsMovedOn (image_at S.Start))) }
    {
        match connect_to_existing(rt, path, start) {
            Ok(connection) => adopt_old_files(rt.alloc(), connection),
            Err(unreached) => Err(FilesFault {
                fault: unreached.fault(),
                connection: Err(unreached),
            }),
        }
    }
}

impl SqliteStore<FileStore<FileFrom<Unknown>>> {
    /// As `open_from`, but the contracts can name no contents: they take the files as new (*no_files*). A
    /// torn write is assumed to leave each byte old or new.
    ///
    /// # Errors
    ///
    /// Those of `open_from`.
    pub fn open(
        rt: &HostRuntime,
        path: &str,
    ) -> Result<SqliteStore<FileStore<FileFrom<Unknown>>>, FilesFault<FileFrom<Unknown>>>
        ensures begins { IfOk result (λ store. OpensIn no_files store.held store.world) }
        ensures left { IfOk result (λ store. IsSettledAt over_files store.held store.world) }
        ensures fault { IfErr result (λ e. AreRefused no_files e.fault e.connection) }
        ensures cut { MatchResult result (λ store. IsCutShort IsCompletedAs no_files store.held)
            (λ e. IfOk e.connection (IsCutShort IsCompletedAs no_files)) }
    {
        SqliteStore::open_from(rt, path, Unknown)
    }

    /// As `migrate_from`, but the contracts can name no contents: they take the files as new (*no_files*). A
    /// torn write is assumed to leave each byte old or new.
    ///
    /// # Errors
    ///
    /// Those of `migrate_from`.
    pub fn migrate(
        rt: &HostRuntime,
        path: &str,
    ) -> Result<(SqliteStore<FileStore<FileFrom<Unknown>>>, u32), FilesFault<FileFrom<Unknown>>>
        ensures begins { IfOk result (λ moved.
            OpensMoved no_files moved.0.held moved.0.world moved.1) }
        ensures left { IfOk result (λ moved. IsSettledAt over_files moved.0.held moved.0.world) }
        ensures fault { IfErr result (λ e. AreNotMoved no_files e.fault e.connection) }
        ensures cut { MatchResult result (λ moved. IsCutShort IsMovedOn no_files moved.0.held)
            (λ e. IfOk e.connection (IsCutShort IsMovedOn no_files)) }
    {
        SqliteStore::migrate_from(rt, path, Unknown)
    }
}

/// The statistics of the database in the files at `path`, with the connection that read it. No table or row
/// is changed. A WAL is made if there is none.
///
/// # Errors
///
/// The connection, if there was one, and `OutOfMemory` if memory runs out. `Store` if there is no file or an
/// empty one, if the files can't be opened, or if SQLite fails for another cause. `NotADesk` if there is no
/// table, if the tables aren't a desk's, or if the rows aren't those of a valid state in either schema.
pub fn look_at<S: Start>(
    rt: &HostRuntime,
    path: &str,
    start: S,
) -> Result<(Connection<FileStore<FileFrom<S>>>, DbStats), FilesFault<FileFrom<S>>>
    ensures looks { IfOk result (λ found. (w : World) × AreStatsOf found.1 w
        × LooksIn (image_at S.Start) found.0 found.1.is_old w) }
    ensures fault { IfErr result (λ e. AreNotRead (image_at S.Start) e.fault e.connection) }
{
    let (connection, content, _, old) = read_at(rt, path, start)?;
    Ok((connection, stats_of(&content, old)))
}

/// Copies the state of the database in the files at `path` into new files at `to`; returns the connection to
/// the first, the store over the new ones, and the statistics of the state. In the first files no table or
/// row is changed. `other` is the `start` of the new files.
///
/// # Errors
///
/// `Unread`, with the errors of `look_at`, if the first files aren't read. `Unmade` if there is no copy: with
/// `OutOfMemory` if memory runs out, and with `Store` if there is a file at `to`, if the new files can't be
/// opened, if they have a table, or if SQLite fails. The new files may have a part of the copy then.
pub fn copy_from<S: Start, N: Start>(
    rt: &HostRuntime,
    path: &str,
    start: S,
    to: &str,
    other: N,
) -> Result<Copied<FileFrom<S>, FileFrom<N>>, CopyFault<FileFrom<S>, FileFrom<N>>>
    ensures looks { IfOk result (λ copied. AreStatsOf copied.1.1 copied.1.0.world
        × LooksIn (image_at S.Start) copied.0 copied.1.1.is_old copied.1.0.world) }
    ensures made { IfOk result (λ copied. IsMadeIn (image_at N.Start) copied.1.0.held) }
    ensures left { IfOk result (λ copied. IsSettledAt over_files copied.1.0.held copied.1.0.world) }
    ensures fault { IfErr result (AreNotCopied (image_at S.Start) (image_at N.Start)) }
{
    match read_at(rt, path, start) {
        Ok(found) => copy_read(rt, found, to, other),
        Err(refused) => Err(CopyFault::Unread(refused)),
    }
}

// Makes the store with the state that was read, `found`, in new files at `to`; returns what `copy_from` does.
// Its error is `Unmade`, with the connection of `found`.
fn copy_read<D: Disk + Drop, N: Start>(
    rt: &HostRuntime,
    found: ReadFiles<FileStore<D>>,
    to: &str,
    other: N,
) -> Result<Copied<D, FileFrom<N>>, CopyFault<D, FileFrom<N>>>
    requires content { IsContent found.1 }
    requires few { HaveFewRows found.1.plans }
    requires known { Knows found.2 found.1 }
    ensures same { IfOk result (λ copied. copied.0 ≡ found.0) }
    ensures world { IfOk result (λ copied. copied.1.0.world ≡ found.1) }
    ensures counted { IfOk result (λ copied. AreStatsOf copied.1.1 found.1) }
    ensures schema { IfOk result (λ copied. copied.1.1.is_old ≡ found.3) }
    ensures made { IfOk result (λ copied. IsMadeIn (image_at N.Start) copied.1.0.held) }
    ensures left { IfOk result (λ copied. IsSettledAt over_files copied.1.0.held copied.1.0.world) }
    ensures unmade { IfErr result (IsUnmadeOf (image_at N.Start) found.0) }
{
    let (connection, content, known, old) = found;
    match store_at(rt, to, other, &content, known) {
        Ok(store) => Ok((connection, (store, stats_of(&content, old)))),
        Err(refused) => Err(CopyFault::Unmade(refused, Source { connection })),
    }
}

// Reads the state of the database in the files at `path`; returns it with the connection. It fails as
// `look_at` does.
fn read_at<S: Start>(
    rt: &HostRuntime,
    path: &str,
    start: S,
) -> Result<ReadFiles<FileStore<FileFrom<S>>>, FilesFault<FileFrom<S>>>
    ensures looks { IfOk result (λ found. LooksIn (image_at S.Start) found.0 found.3 found.1) }
    ensures content { IfOk result (λ found. IsContent found.1) }
    ensures few { IfOk result (λ found. HaveFewRows found.1.plans) }
    ensures known { IfOk result (λ found. Knows found.2 found.1) }
    ensures fault { IfErr result (λ e. AreNotRead (image_at S.Start) e.fault e.connection) }
{
    match connect_to_existing(rt, path, start) {
        Ok(connection) => read_connected(rt.alloc(), connection),
        Err(unreached) => Err(FilesFault {
            fault: unreached.fault(),
            connection: Err(unreached),
        }),
    }
}

// Reads the state of the database that `connection` has open; returns it with the connection, which also
// comes with an error. It changes nothing.
fn read_connected<D: Disk + Drop>(
    alloc: Global,
    mut connection: Connection<FileStore<D>>,
) -> Result<ReadFiles<FileStore<D>>, FilesFault<D>>
    requires fresh { IsNew connection }
    ensures looks { (image : Image) → Finds image connection → IfOk result (λ found.
        LooksIn image found.0 found.3 found.1) }
    ensures content { IfOk result (λ found. IsContent found.1) }
    ensures few { IfOk result (λ found. HaveFewRows found.1.plans) }
    ensures known { IfOk result (λ found. Knows found.2 found.1) }
    ensures fault { (image : Image) → Finds image connection → IfErr result (λ e.
        AreNotRead image e.fault e.connection) }
{
    match read_content(alloc, &mut connection) {
        Ok((content, known, old)) => Ok((connection, content, known, old)),
        Err(fault) => Err(FilesFault {
            fault,
            connection: Ok(connection),
        }),
    }
}

// Makes a store with the state `content` in new files at `path`. `Store` if there is a file at `path`, if the
// files have a table, or if SQLite fails; `OutOfMemory` if memory runs out.
fn store_at<S: Start>(
    rt: &HostRuntime,
    path: &str,
    start: S,
    content: &Content,
    known: MemoryIndex,
) -> Result<SqliteStore<FileStore<FileFrom<S>>>, FilesFault<FileFrom<S>>>
    requires content { IsContent content.now }
    requires few { HaveFewRows content.now.plans }
    requires known { Knows known content.now }
    ensures value { IfOk result (λ store. store.world ≡ content.now) }
    ensures made { IfOk result (λ store. IsMadeIn (image_at S.Start) store.held) }
    ensures left { IfOk result (λ store. IsSettledAt over_files store.held store.world) }
    ensures fault { IfErr result (λ e. AreNotMade (image_at S.Start) e.fault e.connection) }
{
    match connect_new(rt, path, start) {
        Ok(connection) => store_files(rt.alloc(), connection, content, known),
        Err(unreached) => Err(FilesFault {
            fault: unreached.fault(),
            connection: Err(unreached),
        }),
    }
}

// Makes a store with the state `content` in the new files that `connection` has open, as `store_of` does.
fn store_files<D: Disk + Drop>(
    alloc: Global,
    connection: Connection<FileStore<D>>,
    content: &Content,
    known: MemoryIndex,
) -> Result<SqliteStore<FileStore<D>>, FilesFault<D>>
    requires fresh { IsNew connection }
    requires content { IsContent content.now }
    requires few { HaveFewRows content.now.plans }
    requires known { Knows known content.now }
    ensures value { IfOk result (λ store. store.world ≡ content.now) }
    ensures made { (image : Image) → Finds image connection → IfOk result (λ store.
        IsMadeIn image store.held) }
    ensures left { IfOk result (λ store. IsSettledAt over_files store.held store.world) }
    ensures fault { (image : Image) → Finds image connection → IfErr result (λ e.
        AreNotMade image e.fault e.connection) }
{
    match store_of(alloc, connection, content, known) {
        Ok(store) => Ok(store),
        Err(refused) => Err(FilesFault {
            fault: refused.fault,
            connection: Ok(refused.connection),
        }),
    }
}

// As `adopt`, over a connection to files on a disk of any type: so it is proved once for all of them.
fn adopt_files<D: Disk + Drop>(
    alloc: Global,
    connection: Connection<FileStore<D>>,
) -> Result<SqliteStore<FileStore<D>>, FilesFault<D>>
    requires fresh { IsNew connection }
    ensures begins { (image : Image) → Finds image connection → IfOk result (λ store.
        OpensIn image store.held store.world) }
    ensures left { IfOk result (λ store. IsSettledAt over_files store.held store.world) }
    ensures guarded { IsGuarded connection → IfOk result (λ store. IsGuarded store.held) }
    ensures fault { (image : Image) → Finds image connection → IfErr result (λ e.
        AreRefused image e.fault e.connection) }
    ensures cut { (image : Image) → Finds image connection → MatchResult result
        (λ store. IsCutShort IsCompletedAs image store.held)
        (λ e. IfOk e.connection (IsCutShort IsCompletedAs image)) }
{
    match SqliteStore::adopt(alloc, connection) {
        Ok(store) => Ok(store),
        Err(refused) => Err(FilesFault {
            fault: refused.fault,
            connection: Ok(refused.connection),
        }),
    }
}

// As `adopt_old`, over a connection to files on a disk of any type.
fn adopt_old_files<D: Disk + Drop>(
    alloc: Global,
    connection: Connection<FileStore<D>>,
) -> Result<(SqliteStore<FileStore<D>>, u32), FilesFault<D>>
    requires fresh { IsNew connection }
    ensures begins { (image : Image) → Finds image connection → IfOk result (λ moved.
        OpensMoved image moved.0.held moved.0.world moved.1) }
    ensures left { IfOk result (λ moved. IsSettledAt over_files moved.0.held moved.0.world) }
    ensures guarded { IsGuarded connection → IfOk result (λ moved. IsGuarded moved.0.held) }
    ensures fault { (image : Image) → Finds image connection → IfErr result (λ e.
        AreNotMoved image e.fault e.connection) }
    ensures cut { (image : Image) → Finds image connection → MatchResult result
        (λ moved. IsCutShort IsMovedOn image moved.0.held)
        (λ e. IfOk e.connection (IsCutShort IsMovedOn image)) }
{
    match SqliteStore::adopt_old(alloc, connection) {
        Ok(moved) => Ok(moved),
        Err(refused) => Err(FilesFault {
            fault: refused.fault,
            connection: Ok(refused.connection),
        }),
    }
}
