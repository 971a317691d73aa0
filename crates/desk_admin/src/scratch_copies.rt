//! The commands `check` and `copy` by a scratch copy, which is read in place of the database file and removed
//! afterwards. The file itself isn't opened as a database, and so isn't changed.

ghost use Rattle.std.specs.Prelude.{◌≡◌, IfErr, IfOk, IfSome, string_bytes};
ghost use Rattle.sqlite_wal.specs.{Files.image_at, Recovery.Image};
ghost use Rattle.desk_program.specs.Keeping.{bytes_written, ended};
ghost use Rattle.desk_admin.specs.FilesReported.{FailsReporting, FailsToRead, IsReadAs, admin_outside};
ghost use Rattle.host_files.specs.{Paths.steps_of, Naming.IsWrittenIfRoom};
ghost use Rattle.desk_host.specs.FoundLogs.{scratch_of, is_mended};
ghost use Rattle.desk_admin.specs.ScratchCopies as spec;
ghost use Rattle.desk_admin.specs.ScratchCopies.{AreRowsRefused, IsCopiedByScratchIf, IsJudged, IsJudgedIf, IsWrittenIfAny, IsTestReported, IsScratchRefused, WasScratch};

use crate::causes::report_cause;
use crate::keeping::{Copies, CopyEnd, ReadConnection, Starts, Writers, copy_file, look_in};
use crate::unopened::{FileOpenError, OpenError};
use db_file::order_text;
use desk_cli::{CopyArgs, Database, ErrorCode, ExitReport, report_exit};
use desk_host::scratch::{make_scratch, remove_scratch};
use desk_host::ways::ReadMode;
use desk_program::{CheckedFile, print_checked};
use host_files::files::LocalHost;
use host_files::naming::Folder;
use host_files::reporting::{report_line, report_text};
use sqlite::{Connection, FileFrom, FileStore, Start};
use sqlite_disk::Disk;
use std::alloc::{AllocError, Global};
use std::io::Write;

/// What is reported of the rows of a file whose pages have wrong checksums.
#[derive(Clone, Copy, Debug, PartialEq, Eq)]
pub enum Rows {
    /// They are those of a valid database.
    OfADesk,
    /// They are invalid, or can't be read.
    OfNoDesk,
    /// They were copied, and nothing else was tested.
    TestedAlone,
}

impl Rows {
    // What the report says about the rows, after the words "the rows".
    fn text(self) -> &'static str
        ensures { result.now ≡ spec.rows_text self }
    {
        match self {
            Rows::OfADesk => "are a desk's",
            Rows::OfNoDesk => "are no desk's",
            Rows::TestedAlone => "alone were tested",
        }
    }
}

/// A connection to files of a disk `D`, or why they can't be read.
pub type ReadResult<D> = Result<Connection<FileStore<D>>, OpenError<D>>;

/// The same, with the statistics of the files.
pub type CheckResult<D> = Result<(Connection<FileStore<D>>, CheckedFile), OpenError<D>>;

/// Runs the command `check` by a scratch copy beside the file at `path` in `folder`, made as `way` says;
/// `start` stands for its content. Returns the exit report, and the connection to the scratch copy or why it
/// can't be read; `None` if there is no scratch copy. What is wrong with the file (checksums, table order),
/// causes and error codes go to `writers.errors`; a failed write there is ignored.
pub fn check_by_scratch<F: Start, P: Folder, W: Write + Drop, E: Write + Drop>(
    host: LocalHost<'_>,
    folder: &mut P,
    path: &str,
    way: ReadMode,
    start: F,
    writers: &mut Writers<W, E>,
) -> (
    ExitReport<E>,
    Option<Result<ReadConnection<F>, FileOpenError<F>>>,
)
    ensures judged { IsJudgedIf (image_at F.Start) path.now way result.1 (admin_outside W.Write E.Write
        writers.old writers.new (steps_of P.Folder folder.old folder.new) result.0) }
    ensures scratch { IfSome result.1 (λ _. WasScratch path.now (scratch_of path.now) (is_mended way)
        (steps_of P.Folder folder.old folder.new)) }
{
    let scratch = match make_scratch(
        host.alloc(),
        folder,
        path,
        path,
        way.is_mended(),
        &mut writers.errors,
    ) {
        Ok(scratch) => scratch,
        Err(failure) => return (report_exit(&mut writers.errors, Err(failure)), None),
    };
    let found = look_in(host, &scratch.path, start);
    let (exit, judged) = report_found(host, path, &scratch.path, way, found, writers);
    remove_scratch(folder, &scratch);
    (exit, Some(judged))
}

// Prints the statistics of the file at `path` to `writers.output`, or reports to `writers.errors` why its
// scratch copy, at `scratch` and made as `way` says, is refused. `found` is the result of reading the scratch
// copy, which still exists, since the report may read it again.
fn report_found<D: Disk + Drop, W: Write + Drop, E: Write + Drop>(
    host: LocalHost<'_>,
    path: &str,
    scratch: &str,
    way: ReadMode,
    found: CheckResult<D>,
    writers: &mut Writers<W, E>,
) -> (ExitReport<E>, ReadResult<D>)
    ensures { (image : Image) → IfOk found (λ it. IsReadAs image it.0 it.1) → IfErr found (FailsToRead image)
        → IsJudged image path.now way result.1 (ended E.Write result.0 writers.old.errors writers.new.errors)
        (bytes_written W.Write writers.old.output writers.new.output) }
{
    match found {
        Ok((connection, file)) => {
            report_defect(host.alloc(), path, way, &mut writers.errors);
            let exit = print_checked(
                host.alloc(),
                &file,
                &mut writers.output,
                &mut writers.errors,
            );
            (exit, Ok(connection))
        }
        Err(unread) => {
            let exit = report_refused(
                host,
                path,
                scratch,
                way,
                unread.failure,
                &mut writers.errors,
            );
            (exit, Err(unread))
        }
    }
}

// Reports to `errors` what is wrong with a file whose scratch copy is a valid database: its checksums or its
// table order, by the `way` in which it was read. A failed write and running out of memory are ignored.
fn report_defect<E: Write>(alloc: Global, path: &str, way: ReadMode, errors: &mut E)
    ensures { IsWrittenIfAny (spec.defect_line path.now way) (bytes_written E.Write errors.old errors.new) }
{
    match way {
        ReadMode::BadChecksums(pages) => report_rows(alloc, path, pages, Rows::OfADesk, errors),
        ReadMode::OtherOrder => report_text(alloc, path, order_text(), errors),
        ReadMode::Itself | ReadMode::Damaged => {}
    }
}

// Reports why the scratch copy (at `scratch`) of the file at `path` is refused with the error code `failure`,
// and prints the error code, both to `errors`. If the file has wrong checksums (`way`), the report says that
// its rows are invalid, and the error code is `Store` unless memory ran out. A failed write is ignored.
fn report_refused<E: Write>(
    host: LocalHost<'_>,
    path: &str,
    scratch: &str,
    way: ReadMode,
    failure: ErrorCode,
    errors: &mut E,
) -> ExitReport<E>
    ensures { IsScratchRefused path.now way failure (ended E.Write result errors.old errors.new) }
{
    match way {
        ReadMode::BadChecksums(pages) => report_invalid_rows(
            host.alloc(),
            path,
            pages,
            failure,
            errors,
        ),
        ReadMode::Itself | ReadMode::Damaged | ReadMode::OtherOrder => {
            report_refused_as(host, path, scratch, failure, errors)
        }
    }
}

// Reports why the scratch copy at the path `scratch` is refused, under the name of its file (`path`), and
// prints the error code `failure`, both to `errors`. A failed write is ignored.
fn report_refused_as<E: Write>(
    host: LocalHost<'_>,
    path: &str,
    scratch: &str,
    failure: ErrorCode,
    errors: &mut E,
) -> ExitReport<E>
    ensures { FailsReporting failure (ended E.Write result errors.old errors.new) }
{
    report_cause(host, scratch, path, failure, errors);
    report_exit(errors, Err(failure))
}

// Reports how many `pages` of a file have wrong checksums and that its rows are invalid, and prints the error
// code `Store`, both to `errors`. If memory ran out (`failure`), only the code `Memory` is printed: that says
// nothing about the rows. A failed write is ignored.
fn report_invalid_rows<E: Write>(
    alloc: Global,
    path: &str,
    pages: u64,
    failure: ErrorCode,
    errors: &mut E,
) -> ExitReport<E>
    ensures { AreRowsRefused path.now pages failure (ended E.Write result errors.old errors.new) }
{
    match failure {
        ErrorCode::Memory => report_exit(errors, Err(ErrorCode::Memory)),
        _ => {
            report_rows(alloc, path, pages, Rows::OfNoDesk, errors);
            report_exit(errors, Err(ErrorCode::Store))
        }
    }
}

/// Runs the command `copy` with its arguments `words`, by a scratch copy beside the new file. The scratch
/// copy is made as `way` says, and copied by `copy_file`. Returns what that returns; `None` in place of the
/// copies if there is no scratch copy: then the cause and the error code go to `writers.errors` (of a
/// database in memory only the code, `Store`). After a copy of a file with wrong checksums, a line there says
/// that only its rows were tested. A failed write there is ignored.
pub fn copy_by_scratch<F: Start, N: Start, P: Folder, W: Write + Drop, E: Write + Drop>(
    host: LocalHost<'_>,
    folder: &mut P,
    words: &CopyArgs,
    way: ReadMode,
    starts: Starts<F, N>,
    writers: &mut Writers<W, E>,
) -> (
    ExitReport<E>,
    Option<Result<Copies<FileFrom<F>, FileFrom<N>>, CopyEnd<FileFrom<F>, FileFrom<N>>>>,
)
    ensures { IsCopiedByScratchIf (image_at F.Start) (image_at N.Start) words.now way result.1 (admin_outside
        W.Write E.Write writers.old writers.new (steps_of P.Folder folder.old folder.new) result.0) }
{
    let Database::File(path) = &words.database else {
        return (
            report_exit(&mut writers.errors, Err(ErrorCode::Store)),
            None,
        );
    };
    let scratch = match make_scratch(
        host.alloc(),
        folder,
        path,
        &words.to,
        way.is_mended(),
        &mut writers.errors,
    ) {
        Ok(scratch) => scratch,
        Err(failure) => return (report_exit(&mut writers.errors, Err(failure)), None),
    };
    let (exit, copied) = copy_file(host, folder, words, Some(&scratch.path), starts, writers);
    remove_scratch(folder, &scratch);
    report_tested(host.alloc(), path, way, exit.status, &mut writers.errors);
    (exit, Some(copied))
}

// Reports to `errors` that only the rows of the file at `path` were tested, if it has wrong checksums (`way`)
// and its copy succeeded (`status` is 0). Else nothing is reported. A failed write and running out of memory
// are ignored.
fn report_tested<E: Write>(alloc: Global, path: &str, way: ReadMode, status: u8, errors: &mut E)
    ensures { IsTestReported path.now way status (bytes_written E.Write errors.old errors.new) }
{
    if let Some(pages) = way.untested_pages(status) {
        report_rows(alloc, path, pages, Rows::TestedAlone, errors);
    }
}

// Reports to `errors` how many pages of the file at `path` have wrong checksums, and what is known of its
// rows. A failed write and running out of memory are ignored.
fn report_rows<E: Write>(alloc: Global, path: &str, pages: u64, rows: Rows, errors: &mut E)
    ensures { IsWrittenIfRoom (spec.rows_line path.now pages rows)
        (bytes_written E.Write errors.old errors.new) }
{
    if let Ok(line) = bad_checksums_line(alloc, path, pages, rows.text()) {
        report_line(&line, errors);
    }
}

// The line, with its line feed, that reports how many `pages` of the file at `path` have wrong checksums, and
// what is known of its rows (`about_rows`, the words of `Rows::text`). Fails if memory runs out.
#[tactic(auto, unfolding(crate::specs::ScratchCopies::bad_checksums_line))]
fn bad_checksums_line(
    alloc: Global,
    path: &str,
    pages: u64,
    about_rows: &str,
) -> Result<String, AllocError>
    ensures { IfOk result (λ line.
        string_bytes line ≡ spec.bad_checksums_line path.now pages about_rows.now) }
{
    format!(in alloc;
        "uss_desk: {path}: {pages} pages without their sums, as sqlite3 leaves them; the rows {about_rows}\n"
    )
}
