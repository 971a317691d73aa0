//! The commands `check` and `copy` on a database file.

ghost use Rattle.std.specs.Prelude.{◌≡◌, ℕ, [], List, IfErr, IfOk, IfSome, Ok, OnErr, OnOk, option_copied, string_bytes, unwrap_or};
ghost use Rattle.sqlite_wal.specs.{Files.image_at, Recovery.Image};
ghost use Rattle.desk_store.specs.World.{World};
ghost use Rattle.desk_program.specs.Keeping.{bytes_written, ended};
ghost use Rattle.sqlite.specs.{Files.file_state};
ghost use Rattle.desk_cli.specs.Lines.{file_of};
ghost use Rattle.table_load.specs.Moving.{AreStatsOf, has_others};
ghost use Rattle.desk_tables.specs.Copying.{AreNotCopied};
ghost use Rattle.desk_admin.specs.FilesReported.{FailsAtFiles, FailsBy, FailsReporting, FailsToCopy, FailsToLook, FailsToRead, FailsUntried, IsChecked, IsCopied, IsCopyMade, IsNamedIf, IsReadAs, IsAsCopied, IsNamedNow, ReportsHoldings, ReportsOthers, admin_outside};
ghost use Rattle.host_files.specs.Naming.{Reports, AreNames, ChangesOwn, Follows, GivesUp, HasFailedStep, IsNotFree, IsUnnamed, LeavesOthers, Synced, TakesAll, free_steps, named_steps};
ghost use Rattle.desk_admin.specs.ScratchCopies.{IsStoredAs, found_size};
ghost use Rattle.host_files.specs.Paths.{steps_of};

use crate::causes::{report_cause, report_database};
use crate::unopened::{FileOpenError, OpenError, open_failure};
use desk_cli::{CopyArgs, Database, ErrorCode, ExitReport, report_exit};
use desk_host::room::make_room;
use desk_program::{CheckedFile, print_checked, print_copied};
use desk_tables::{
    CheckpointError, Copied, CopyFault, DbStats, FilesFault, OpenFault, copy_from, look_at,
};
use host_files::files::{Found, HostFiles, LocalHost, has_checksums};
use host_files::naming::{Folder, NewFile, name_with, names_of, publish};
use host_files::reporting::report_text;
use sqlite::{Connection, FileFrom, FileStore, Files, Start};
use sqlite_disk::Disk;
use std::alloc::{AllocError, Global};
use std::io::{ErrorKind, Write};
use std::snapshot::Snapshot;
use table_load::looking::has_others;

/// A connection with which a file was read. `F` is a type that stands for the content of the file before.
pub type ReadConnection<F> = Connection<FileStore<FileFrom<F>>>;

/// The result of a copy from files of a disk `D` to files of a disk `N`: the connection to the former, and
/// the new files with the statistics of what was copied.
pub type Copies<D, N> = (Connection<FileStore<D>>, (Files<N>, DbStats));

/// Why nothing was copied. `R` is the error of the source files, `M` that of the new ones, and `U` that of
/// closing these. Refused files are closed; their snapshots exist only for the contracts.
#[derive(Drop)]
pub struct CopyError<R, M, U: Drop> {
    /// The error code with which the command ends.
    pub failure: ErrorCode,
    /// The error of the files to be copied, if these were refused.
    pub unread: Option<Snapshot<R>>,
    /// The error of the new files, if these were refused.
    pub unmade: Option<Snapshot<M>>,
    /// The new files, if their WAL can't be checkpointed.
    pub unclosed: Option<U>,
}

/// Why files of a disk `D` were not copied to files of a disk `N`.
pub type CopyEnd<D, N> = CopyError<FilesFault<D>, FilesFault<N>, CheckpointError<N>>;

impl<D: Disk + Drop, N: Disk + Drop> CopyError<FilesFault<D>, FilesFault<N>, CheckpointError<N>> {
    // An error with no refused files: none were opened, or the new ones can't be given their names.
    fn untried(failure: ErrorCode) -> CopyEnd<D, N>
        ensures { FailsUntried failure result }
    {
        CopyError {
            failure,
            unread: None,
            unmade: None,
            unclosed: None,
        }
    }
}

impl<D: Disk + Drop, N: Disk + Drop> From<AllocError>
    for CopyError<FilesFault<D>, FilesFault<N>, CheckpointError<N>> {
    ghost use Rattle.desk_cli.specs.declared.failure.ErrorCode.TheVariants.{Memory};
    ghost use Rattle.desk_admin.specs.FilesReported.{FailsUntried};

    ghost from_gives = { λ _ it. FailsUntried Memory it };

    fn from(_error: AllocError) -> CopyEnd<D, N> {
        CopyError::untried(ErrorCode::Memory)
    }
}

// The error of a copy that was `refused`: for its source files (`Unread`) or for its new files (`Unmade`).
fn refused_copy<D: Disk + Drop, N: Disk + Drop>(refused: &CopyFault<D, N>) -> CopyEnd<D, N>
    ensures { FailsBy refused.now result }
{
    match refused {
        CopyFault::Unread(files) => CopyError {
            unread: Some(Snapshot::of(files)),
            ..CopyError::untried(open_failure(&files.fault))
        },
        CopyFault::Unmade(files, _) => CopyError {
            unmade: Some(Snapshot::of(files)),
            ..CopyError::untried(open_failure(&files.fault))
        },
    }
}

/// The output streams of an administrator's command.
#[derive(Drop)]
pub struct Writers<W: Drop, E: Drop> {
    /// Where it prints its result.
    pub output: W,
    /// Where it reports why it fails, and prints the error code.
    pub errors: E,
}

/// What stands for the content that the files of a copy had before.
#[derive(Drop)]
pub struct Starts<F: Drop, N: Drop> {
    /// That of the files to be copied.
    pub source: F,
    /// That of the new files.
    pub copy: N,
}

// What is known of a file apart from its rows.
#[derive(Clone, Copy)]
struct FileStats {
    // whether its pages have checksums
    has_checksums: bool,
    // the size of the file, in bytes
    size: u64,
    // the size of its WAL, in bytes
    log: u64,
}

/// Runs the command `check`: prints the statistics of a database, which isn't changed, to `writers.output`.
/// Returns the exit report with the connection that read it, or why it can't be read: the clause speaks of
/// these, and the caller drops them. `start` stands for the content of the file.
///
/// # Errors
///
/// If the database can't be read (`Store` for one in memory), the cause and the error code go to
/// `writers.errors`. If the statistics can't be printed, the code is `Write`, or `Memory` if memory ran out. A
/// failed write to `writers.errors` leaves the exit status as it is.
pub fn check_file<F: Start, W: Write + Drop, E: Write + Drop>(
    host: LocalHost<'_>,
    database: &Database,
    start: F,
    writers: &mut Writers<W, E>,
) -> (ExitReport<E>, Result<ReadConnection<F>, FileOpenError<F>>)
    ensures { IsChecked (image_at F.Start) database.now
        (ended E.Write result.0 writers.old.errors writers.new.errors) result.1
        (bytes_written W.Write writers.old.output writers.new.output) }
{
    match look_in_database(host, database, start) {
        Ok((connection, file)) => {
            let exit = print_checked(
                host.alloc(),
                &file,
                &mut writers.output,
                &mut writers.errors,
            );
            (exit, Ok(connection))
        }
        Err(unread) => {
            let exit = report_unread(host, database, unread.failure, &mut writers.errors);
            (exit, Err(unread))
        }
    }
}

// Reports why a database can't be read, and prints the error code `failure`, both to `errors`. A failed write
// is ignored.
fn report_unread<E: Write>(
    host: LocalHost<'_>,
    database: &Database,
    failure: ErrorCode,
    errors: &mut E,
) -> ExitReport<E>
    ensures { FailsReporting failure (ended E.Write result errors.old errors.new) }
{
    report_database(host, database, failure, errors);
    report_exit(errors, Err(failure))
}

// The statistics of a database, with the connection that read it. A database in memory is refused with
// `Store`, since it has no file to read.
#[tactic(auto, using(crate::proofs::KeepLemmas::look_fails))]
fn look_in_database<F: Start>(
    host: LocalHost<'_>,
    database: &Database,
    start: F,
) -> Result<(ReadConnection<F>, CheckedFile), FileOpenError<F>>
    ensures looks { IfOk result (λ found. IsReadAs (image_at F.Start) found.0 found.1) }
    ensures fault { IfErr result (FailsToLook (image_at F.Start) database.now) }
{
    match database {
        Database::File(path) => look_in(host, path, start),
        Database::InMemory => Err(OpenError::unread(OpenFault::Store)),
    }
}

/// The statistics of the database file at `path`, whose content `start` stands for, with the connection that
/// read it.
///
/// # Errors
///
/// Why the file is refused; `Memory` if memory runs out.
#[tactic(auto, using(crate::proofs::KeepLemmas::read_as, crate::proofs::KeepLemmas::refused_fails))]
pub fn look_in<F: Start>(
    host: LocalHost<'_>,
    path: &str,
    start: F,
) -> Result<(ReadConnection<F>, CheckedFile), FileOpenError<F>>
    ensures looks { IfOk result (λ found. IsReadAs (image_at F.Start) found.0 found.1) }
    ensures fault { IfErr result (FailsToRead (image_at F.Start)) }
{
    let log = name_with(host.alloc(), path, "-wal")?;
    // `has_checksums` opens and closes the file, which would release the locks of a connection to it. So the
    // connection is made after that.
    let stats = stats_at(&host, path, &log, has_checksums(&host, path));
    match look_at(host.rt, path, start) {
        Ok((connection, holdings)) => Ok((connection, checked_file(&holdings, stats))),
        Err(refused) => Err(OpenError::of(refused)),
    }
}

// What `check` reports of a file, from the counts of its rows (`holdings`) and the other statistics
// (`stats`).
fn checked_file(holdings: &DbStats, stats: FileStats) -> CheckedFile
    ensures counted { (w : World) → AreStatsOf holdings.now w → ReportsHoldings result w }
    ensures schema { result.is_old ≡ holdings.now.is_old }
    ensures stats { (result.has_checksums ≡ stats.has_checksums) × (result.size ≡ stats.size)
        × (result.log ≡ stats.log) }
{
    CheckedFile {
        is_old: holdings.is_old,
        has_checksums: stats.has_checksums,
        operators: holdings.operators,
        plans: holdings.plans,
        live: holdings.live,
        spans: holdings.spans,
        most_spans: holdings.most_spans,
        most_cells: holdings.most_cells,
        size: stats.size,
        log: stats.log,
    }
}

// The sizes in bytes of the file at `path` and of its WAL at `log`, each 0 if it can't be reached; with
// `has_checksums`, which is already known.
fn stats_at<F: HostFiles>(files: &F, path: &str, log: &str, has_checksums: bool) -> FileStats
    ensures sums { result.has_checksums ≡ has_checksums }
    ensures sizes { IfSome (F.answers files.now) (λ it. (result.size ≡ found_size (it.found path.now))
        × (result.log ≡ found_size (it.found log.now))) }
{
    FileStats {
        has_checksums,
        size: size_of(files.find(path)),
        log: size_of(files.find(log)),
    }
}

// The size in bytes of what was `found` at a path; 0 if nothing can be reached there.
fn size_of(found: Result<Found, ErrorKind>) -> u64
    ensures { result ≡ found_size found }
{
    found.map_or(0, |found| found.len)
}

/// Runs the command `copy` with its arguments `words`: copies a database to a new file in `folder`, prints
/// how many operators and plans it has, and returns the exit report with the connection to the database and
/// the new files, or why nothing was copied. The database isn't changed. It is read at the path `scratch`, if
/// given, but reported under its own name. `starts` stands for the content of the files before. Causes and
/// error codes go to `writers.errors`; a failed write there is ignored.
#[tactic(auto, using(crate::proofs::KeepLemmas::uncopied))]
pub fn copy_file<F: Start, N: Start, P: Folder, W: Write + Drop, E: Write + Drop>(
    host: LocalHost<'_>,
    folder: &mut P,
    words: &CopyArgs,
    scratch: Option<&str>,
    starts: Starts<F, N>,
    writers: &mut Writers<W, E>,
) -> (
    ExitReport<E>,
    Result<Copies<FileFrom<F>, FileFrom<N>>, CopyEnd<FileFrom<F>, FileFrom<N>>>,
)
    ensures copied { IsCopied (image_at F.Start) (image_at N.Start) words.now.database (admin_outside W.Write
        E.Write writers.old writers.new (steps_of P.Folder folder.old folder.new) result.0) result.1 }
    ensures named { IsNamedIf result.1 (string_bytes words.now.to) (steps_of P.Folder folder.old folder.new) }
    ensures own { LeavesOthers (string_bytes words.now.to) (steps_of P.Folder folder.old folder.new) }
{
    match copy_database(host, folder, words, scratch, starts, &mut writers.errors) {
        Ok(copies) => {
            report_others(
                host.alloc(),
                &words.database,
                &copies.0,
                &mut writers.errors,
            );
            let holdings = &copies.1.1;
            let exit = print_copied(
                host.alloc(),
                holdings.operators,
                holdings.plans,
                &mut writers.output,
                &mut writers.errors,
            );
            (exit, Ok(copies))
        }
        Err(uncopied) => (
            report_exit(&mut writers.errors, Err(uncopied.failure)),
            Err(uncopied),
        ),
    }
}

// Reports to `errors` that tables, indexes and views beside the desk's are not copied, if the `database` has
// any. `connection` is open to it. Nothing is reported for a database in memory. A failed write and running
// out of memory are ignored.
fn report_others<D: Disk, E: Write>(
    alloc: Global,
    database: &Database,
    connection: &Connection<FileStore<D>>,
    errors: &mut E,
)
    ensures reported { (path : List ℕ) → file_of database.now ≡ Some path
        → ReportsOthers (has_others (file_state connection.now).now.schema) path
        (bytes_written E.Write errors.old errors.new) }
{
    if has_others(connection)
        && let Some(path) = database.path()
    {
        let text = "other tables, indexes or views are not copied";
        report_text(alloc, path, text, errors);
    }
}

// Copies a database, read at the path `scratch` if given, to the new file `words.to`. That is written under a
// temporary name, and renamed once it is on the disk, so that an interrupted copy leaves nothing under the
// final name. The cause of a failure goes to `errors`; none is reported for a database in memory (`Store`) or
// if memory runs out.
#[tactic(auto, using(host_files::proofs::lemmas::Naming::leaves_none, host_files::proofs::lemmas::Naming::leaves_all))]
fn copy_database<F: Start, N: Start, P: Folder, E: Write>(
    host: LocalHost<'_>,
    folder: &mut P,
    words: &CopyArgs,
    scratch: Option<&str>,
    starts: Starts<F, N>,
    errors: &mut E,
) -> Result<Copies<FileFrom<F>, FileFrom<N>>, CopyEnd<FileFrom<F>, FileFrom<N>>>
    ensures made { IfOk result
        (IsCopyMade ⟦<FileFrom<N> as Disk>⟧ (image_at F.Start) (image_at N.Start)) }
    ensures fault { IfErr result (FailsToCopy (image_at F.Start) (image_at N.Start) words.now.database
        (steps_of P.Folder folder.old folder.new)) }
    ensures quiet { OnOk result (E.contents errors.new ≡ E.contents errors.old) }
    ensures reported { Reports (bytes_written E.Write errors.old errors.new) }
    ensures named { IsNamedIf result (string_bytes words.now.to) (steps_of P.Folder folder.old folder.new) }
    ensures own { LeavesOthers (string_bytes words.now.to) (steps_of P.Folder folder.old folder.new) }
{
    let Database::File(path) = &words.database else {
        return Err(CopyError::untried(ErrorCode::Store));
    };
    let names = names_of(host.alloc(), &words.to)?;
    if let Err(failure) = make_room_or_report(host.alloc(), folder, path, &names, errors) {
        return Err(CopyError::untried(failure));
    }
    let source = CopySource::of(path, scratch);
    let copied = copy_and_close(host, source.path, &names.part, starts);
    publish_or_discard(host, folder, source, &names, copied, errors)
}

// A file to be copied: its name in reports, and the path at which it is read (that of its scratch copy, if it
// has one).
#[derive(Clone, Copy)]
struct CopySource<'s> {
    name: &'s str,
    path: &'s str,
}

impl<'s> CopySource<'s> {
    // The file at `path`, which is read at `scratch` if it has a scratch copy.
    fn of(path: &'s str, scratch: Option<&'s str>) -> CopySource<'s>
        ensures name { result.name.now ≡ path.now }
        ensures path { result.path.now ≡ unwrap_or (option_copied scratch.entry) path.now }
    {
        CopySource {
            name: path,
            path: scratch.unwrap_or(path),
        }
    }
}

// Gives the new file its final name (of its `names`) if it was `copied`; else reports to `errors` why not,
// and removes what was made. If the name can't be given, that is reported, and the file may stay under its
// temporary name; if only the folder can't be synced, it has its final name all the same.
fn publish_or_discard<D: Disk + Drop, N: Disk + Drop, P: Folder, E: Write>(
    host: LocalHost<'_>,
    folder: &mut P,
    source: CopySource<'_>,
    names: &NewFile,
    copied: Result<Copies<D, N>, CopyEnd<D, N>>,
    errors: &mut E,
) -> Result<Copies<D, N>, CopyEnd<D, N>>
    ensures made { IfOk result (λ it. copied ≡ Ok it) }
    ensures fault { IfErr result (IsAsCopied copied (steps_of P.Folder folder.old folder.new)) }
    ensures quiet { OnOk result (E.contents errors.new ≡ E.contents errors.old) }
    ensures reported { Reports (bytes_written E.Write errors.old errors.new) }
    ensures named { (to : List ℕ) → AreNames to names.now
        → IsNamedNow result to (steps_of P.Folder folder.old folder.new) }
    ensures own { (to : List ℕ) → AreNames to names.now
        → TakesAll (ChangesOwn to) (steps_of P.Folder folder.old folder.new) }
{
    let copies = match copied {
        Ok(copies) => copies,
        Err(uncopied) => {
            report_and_discard(host, folder, source, names, uncopied.failure, errors);
            return Err(uncopied);
        }
    };
    if let Err(failure) = publish_copy(host.alloc(), folder, names, errors) {
        return Err(CopyError::untried(failure));
    }
    Ok(copies)
}

// Gives a complete new file, which has a temporary name, its final one (`names` has both). If that fails,
// this is reported to `errors`, and the error code is `Store`. A failed write and running out of memory are
// ignored.
#[tactic(auto, using(host_files::proofs::lemmas::Reporting::reports_nothing))]
fn publish_copy<P: Folder, E: Write>(
    alloc: Global,
    folder: &mut P,
    names: &NewFile,
    errors: &mut E,
) -> Result<(), ErrorCode>
    ensures quiet { OnOk result (E.contents errors.new ≡ E.contents errors.old) }
    ensures reported { Reports (bytes_written E.Write errors.old errors.new) }
    ensures named { (to : List ℕ) → AreNames to names.now
        → OnOk result (Follows (steps_of P.Folder folder.old folder.new) (named_steps to (Synced to))) }
    ensures unnamed { (to : List ℕ) → AreNames to names.now
        → OnErr result (IsUnnamed [] to (steps_of P.Folder folder.old folder.new)) }
    ensures own { (to : List ℕ) → AreNames to names.now
        → TakesAll (ChangesOwn to) (steps_of P.Folder folder.old folder.new) }
    ensures failed { IfErr result (λ f. (f ≡ ErrorCode.Store)
        × HasFailedStep (steps_of P.Folder folder.old folder.new)) }
{
    if publish(folder, names) {
        return Ok(());
    }
    let cause = "it can't be given its name, or its folder can't be synced";
    report_text(alloc, &names.to, cause, errors);
    Err(ErrorCode::Store)
}

// Copies the database at `path` to new files at `to`, and closes these. `starts` stands for the content that
// the files of both had before. After an error, what was made stays: the caller removes it.
fn copy_and_close<F: Start, N: Start>(
    host: LocalHost<'_>,
    path: &str,
    to: &str,
    starts: Starts<F, N>,
) -> Result<Copies<FileFrom<F>, FileFrom<N>>, CopyEnd<FileFrom<F>, FileFrom<N>>>
    ensures made { IfOk result
        (IsCopyMade ⟦<FileFrom<N> as Disk>⟧ (image_at F.Start) (image_at N.Start)) }
    ensures fault { IfErr result (FailsAtFiles (image_at F.Start) (image_at N.Start)) }
{
    close_if_copied(copy_from(host.rt, path, starts.source, to, starts.copy))
}

// Closes the new files if they were made; else returns why nothing was copied.
fn close_if_copied<D: Disk + Drop, N: Disk + Drop>(
    copied: Result<Copied<D, N>, CopyFault<D, N>>,
) -> Result<Copies<D, N>, CopyEnd<D, N>>
    ensures made { (image other : Image) → IfOk copied (IsStoredAs image other)
        → IfOk result (IsCopyMade N.Disk image other) }
    ensures fault { (image other : Image) → IfOk copied (IsStoredAs image other)
        → IfErr copied (AreNotCopied image other) → IfErr result (FailsAtFiles image other) }
{
    match copied {
        Ok(copied) => close_copy(copied),
        Err(refused) => Err(refused_copy(&refused)),
    }
}

// Closes the new files of a copy: their WAL is checkpointed. The error code is `Store` if that fails.
#[tactic(auto, using(crate::proofs::KeepLemmas::fails_closing))]
fn close_copy<D: Disk + Drop, N: Disk + Drop>(
    copied: Copied<D, N>,
) -> Result<Copies<D, N>, CopyEnd<D, N>>
    ensures made { (image other : Image) → IsStoredAs image other copied
        → IfOk result (IsCopyMade N.Disk image other) }
    ensures fault { (image other : Image) → IsStoredAs image other copied
        → IfErr result (FailsAtFiles image other) }
{
    let (connection, (store, holdings)) = copied;
    match store.close() {
        Ok(files) => Ok((connection, (files, holdings))),
        Err(unclosed) => Err(CopyError {
            failure: ErrorCode::Store,
            unread: None,
            unmade: None,
            unclosed: Some(unclosed),
        }),
    }
}

// Makes room for the new file: its `names` must be free, and what an interrupted copy left is removed. If
// that fails, the cause is reported to `errors`, and the error code is `Store`. The file to be copied
// (`source`) is never removed. A failed write and running out of memory are ignored.
#[tactic(auto, using(host_files::proofs::lemmas::Reporting::reports_nothing))]
fn make_room_or_report<P: Folder, E: Write>(
    alloc: Global,
    folder: &mut P,
    source: &str,
    names: &NewFile,
    errors: &mut E,
) -> Result<(), ErrorCode>
    ensures quiet { OnOk result (E.contents errors.new ≡ E.contents errors.old) }
    ensures reported { Reports (bytes_written E.Write errors.old errors.new) }
    ensures free { (to : List ℕ) → AreNames to names.now
        → OnOk result (Follows (steps_of P.Folder folder.old folder.new) (free_steps to)) }
    ensures refused { (to : List ℕ) → AreNames to names.now
        → IfErr result (λ f. (f ≡ ErrorCode.Store)
        × IsNotFree to (steps_of P.Folder folder.old folder.new)) }
{
    match make_room(folder, source, names) {
        Ok(()) => Ok(()),
        Err(taken) => {
            report_text(alloc, taken.path, taken.cause, errors);
            Err(ErrorCode::Store)
        }
    }
}

// Reports to `errors` why a copy failed (`failure`), and removes what was made under the temporary one of the
// `names`. If nothing was made, the cause is looked for in the `source`. A failed write and running out of
// memory are ignored.
#[tactic(auto, using(host_files::proofs::lemmas::Reporting::reports_nothing))]
fn report_and_discard<P: Folder, E: Write>(
    host: LocalHost<'_>,
    folder: &mut P,
    source: CopySource<'_>,
    names: &NewFile,
    failure: ErrorCode,
    errors: &mut E,
)
    ensures reported { Reports (bytes_written E.Write errors.old errors.new) }
    ensures gone { (to : List ℕ) → AreNames to names.now
        → GivesUp to (steps_of P.Folder folder.old folder.new) }
{
    if folder.is_free(&names.part) {
        report_cause(host, source.path, source.name, failure, errors);
        return;
    }
    if let ErrorCode::Store = failure {
        let cause = "it can't be written: a full disk, or one that fails";
        report_text(host.alloc(), &names.to, cause, errors);
    }
    folder.remove(&names.part);
    folder.remove(&names.part_log);
}
