//! Puts the tables of a database file in canonical order before a command opens it. A repaired scratch copy
//! of the file is read first: only a valid database is reordered.

ghost use Rattle.std.specs.Prelude.{◌≡◌, IfErr, IfNone, IfOk, Ok, OnErr, OnOk, false, true};
ghost use Rattle.sqlite_wal.specs.{Files.image_at, Recovery.Image};
ghost use Rattle.desk_cli.specs.Lines.{file_of};
ghost use Rattle.desk_program.specs.Keeping.{bytes_written};
ghost use Rattle.desk_admin.specs.FilesReported.{FailsToRead, IsReadAs, IsOpenFailure};
ghost use Rattle.host_files.specs.{Paths.steps_of, Naming.IsWrittenIfRoom, Naming.Reports};
ghost use Rattle.desk_admin.specs.ScratchCopies as spec;
ghost use Rattle.desk_admin.specs.ScratchCopies.{IsAdmitted, IsOrderedByScratch, IsOrderedOr, IsReorderReported, IsReordered, IsReorderedIf};
ghost use Rattle.desk_host.specs.FoundLogs.{AreScratchPaths};

use crate::causes::report_cause;
use crate::keeping::look_in;
use crate::scratch_copies::{CheckResult, ReadResult};
use desk_cli::{Database, ErrorCode};
use desk_host::scratch::{ScratchCopy, make_scratch, remove_scratch};
use desk_host::ways::{ReadMode, read_mode};
use host_files::access::access_cause;
use host_files::files::{HostFiles, LocalHost};
use host_files::naming::Folder;
use host_files::reporting::report_text;
use sqlite::{FileFrom, Start, Unknown};
use sqlite_disk::Disk;
use std::io::Write;

// What is reported of a file that was reordered.
const REORDERED: &str = "its tables are put in a desk's own order";

// The cause that is reported for a file that can be opened but not reordered.
const UNWRITTEN: &str = "it can't be written: a full disk, or one that fails";

/// A file that a command is about to open.
#[derive(Clone, Copy)]
pub struct ReorderTarget<'p> {
    /// Its path.
    pub path: &'p str,
    /// How it has to be read; only a file in `OtherOrder` is reordered.
    pub way: ReadMode,
    /// Whether the command accepts a file of schema 1, the old one.
    pub takes_old: bool,
}

/// Puts the tables of a database in canonical order if they are in another, and reports that on the standard
/// error; a failed write there is ignored. Nothing is done for a database in memory. A file in another order
/// is left alone if its checksums are wrong or its WAL may have a commit (`read_mode` then answers
/// `BadChecksums` or `Itself`). A file of schema 1 is accepted if `takes_old`. The contract gives only the
/// error codes; that of `reorder` says what is done.
///
/// # Errors
///
/// Why that failed, which is reported, unless memory ran out.
#[tactic(auto, using(crate::proofs::ReorderLemmas::reorder_fails))]
pub fn reorder_for(
    host: LocalHost<'_>,
    database: &Database,
    takes_old: bool,
) -> Result<(), ErrorCode>
    ensures memory { IfNone (file_of database.now) (result ≡ Ok (tt {0})) }
    ensures fault { IfErr result IsOpenFailure }
{
    let Some(path) = database.path() else {
        return Ok(());
    };
    // Cheap, so asked first. The `false` below: a file with a damaged WAL was refused by `check_before`.
    if !host.is_out_of_order(path) {
        return Ok(());
    }
    let file = ReorderTarget {
        path,
        way: read_mode(host, path, false),
        takes_old,
    };
    let mut folder = host;
    reorder(host, &mut folder, file, Unknown, &mut host.errors()).0
}

/// Puts the tables of a file in canonical order if `file.way` says that they are in another. A repaired
/// scratch copy is made beside it in `folder`, read and removed; if it is a valid database that the command
/// accepts, the file itself is reordered. Success or the cause of failure goes to `errors`, unless memory
/// runs out; a failed write there is ignored. `start` stands for the content of the scratch copy. Also
/// returns the connection to it, or why it can't be read; `None` if there was no scratch copy.
///
/// # Errors
///
/// Why the file can't be reordered. It is unchanged, unless the reordering itself, which is one commit,
/// failed.
pub fn reorder<F: Start, P: Folder, E: Write>(
    host: LocalHost<'_>,
    folder: &mut P,
    file: ReorderTarget<'_>,
    start: F,
    errors: &mut E,
) -> (Result<(), ErrorCode>, Option<ReadResult<FileFrom<F>>>)
    ensures reordered { IsReorderedIf (image_at F.Start) file.entry.path.now file.entry.takes_old
        file.entry.way result.0 result.1 (steps_of P.Folder folder.old folder.new) }
    ensures reported { IsReorderReported file.entry.path.now result.0 result.1
        (bytes_written E.Write errors.old errors.new) }
{
    match file.way {
        ReadMode::OtherOrder => reorder_by_scratch(host, folder, file, start, errors),
        ReadMode::Itself | ReadMode::Damaged | ReadMode::BadChecksums(_) => (Ok(()), None),
    }
}

// Makes, reads and removes a repaired scratch copy of a file, and reorders the file if the copy is a valid
// database that the command accepts. Else the cause is reported to `errors`, and the file isn't touched.
fn reorder_by_scratch<F: Start, P: Folder, E: Write>(
    host: LocalHost<'_>,
    folder: &mut P,
    file: ReorderTarget<'_>,
    start: F,
    errors: &mut E,
) -> (Result<(), ErrorCode>, Option<ReadResult<FileFrom<F>>>)
    ensures reordered { IsReordered (image_at F.Start) file.entry.path.now file.entry.takes_old
        result.0 result.1 (steps_of P.Folder folder.old folder.new) }
    ensures reported { IsReorderReported file.entry.path.now result.0 result.1
        (bytes_written E.Write errors.old errors.new) }
{
    let scratch = match make_scratch(host.alloc(), folder, file.path, file.path, true, errors) {
        Ok(scratch) => scratch,
        Err(failure) => return (Err(failure), None),
    };
    let found = look_in(host, &scratch.path, start);
    let (done, judged) = reorder_if_valid(host, folder, file, &scratch, found, errors);
    (done, Some(judged))
}

// Removes the scratch copy of a file, and reorders the file if the copy was read as a valid database that the
// command accepts. `found` is the result of reading it. Success or the cause of failure is reported to
// `errors`.
fn reorder_if_valid<D: Disk + Drop, P: Folder, E: Write>(
    host: LocalHost<'_>,
    folder: &mut P,
    file: ReorderTarget<'_>,
    scratch: &ScratchCopy,
    found: CheckResult<D>,
    errors: &mut E,
) -> (Result<(), ErrorCode>, ReadResult<D>)
    ensures ordered { (image : Image) → IfOk found (λ it. IsReadAs image it.0 it.1)
        → IfErr found (FailsToRead image) → AreScratchPaths file.entry.path.now scratch.now
        → IsOrderedByScratch image file.entry.path.now file.entry.takes_old result.0 result.1
        (steps_of P.Folder folder.old folder.new) }
    ensures noted { OnOk result.0 (IsWrittenIfRoom (spec.reordered_line file.entry.path.now)
        (bytes_written E.Write errors.old errors.new)) }
    ensures reported { OnErr result.0 (Reports (bytes_written E.Write errors.old errors.new)) }
{
    let (admitted, judged) = admit_scratch(host, file, &scratch.path, found, errors);
    remove_scratch(folder, scratch);
    match admitted {
        Ok(()) => (reorder_or_report(host, folder, file.path, errors), judged),
        Err(failure) => (Err(failure), judged),
    }
}

// `Ok` if the scratch copy at the path `scratch` was read (`found`) as a valid database that the command
// accepts; else reports to `errors` why it wasn't, under the file's own name. Also returns `found` without
// the statistics. The scratch copy still exists, since the report may read it again.
fn admit_scratch<D: Disk + Drop, E: Write>(
    host: LocalHost<'_>,
    file: ReorderTarget<'_>,
    scratch: &str,
    found: CheckResult<D>,
    errors: &mut E,
) -> (Result<(), ErrorCode>, ReadResult<D>)
    ensures admitted { (image : Image) → IfOk found (λ it. IsReadAs image it.0 it.1)
        → IfErr found (FailsToRead image) → IsAdmitted image file.entry.takes_old result.0 result.1 }
    ensures quiet { OnOk result.0 (E.contents errors.new ≡ E.contents errors.old) }
    ensures reported { OnErr result.0 (Reports (bytes_written E.Write errors.old errors.new)) }
{
    match found {
        Ok((connection, read)) => {
            if is_too_old(file.takes_old, read.is_old) {
                report_cause(host, scratch, file.path, ErrorCode::OldSchema, errors);
                return (Err(ErrorCode::OldSchema), Ok(connection));
            }
            (Ok(()), Ok(connection))
        }
        Err(unread) => {
            report_cause(host, scratch, file.path, unread.failure, errors);
            (Err(unread.failure), Err(unread))
        }
    }
}

// Reorders the file at `path`, and reports to `errors` that it succeeded or why it failed; the error code is
// `Store` then. A failed write and running out of memory are ignored.
fn reorder_or_report<P: Folder, E: Write>(
    host: LocalHost<'_>,
    folder: &mut P,
    path: &str,
    errors: &mut E,
) -> Result<(), ErrorCode>
    ensures ordered { IsOrderedOr path.now result (steps_of P.Folder folder.old folder.new) }
    ensures noted { OnOk result (IsWrittenIfRoom (spec.reordered_line path.now)
        (bytes_written E.Write errors.old errors.new)) }
    ensures reported { OnErr result (Reports (bytes_written E.Write errors.old errors.new)) }
{
    if !folder.order(path) {
        let cause = access_cause(host, path).unwrap_or(UNWRITTEN);
        report_text(host.alloc(), path, cause, errors);
        return Err(ErrorCode::Store);
    }
    report_text(host.alloc(), path, REORDERED, errors);
    Ok(())
}

// Whether a command refuses a file because it is of schema 1 (`is_old`) and the command doesn't accept that
// (`takes_old`).
fn is_too_old(takes_old: bool, is_old: bool) -> bool
    ensures old { result ≡ true → (takes_old ≡ false) × (is_old ≡ true) }
    ensures taken { result ≡ false → takes_old ≡ false → is_old ≡ false }
{
    !takes_old && is_old
}
