//! The command `migrate`: the plans of a database of schema 1 are migrated to schema 2.

ghost use Rattle.std.specs.Prelude.{◌⊎◌, IfErr, false};
ghost use Rattle.desk_program.specs.Keeping.{bytes_written, ended};
ghost use Rattle.desk_admin.specs.FilesReported.{IsOpenFailure, or_failure};
ghost use Rattle.uss_desk.specs.{OpenedFor.IsMigrationReported, Finishing.IsLogRefused};

use crate::closing::close_after;
use crate::opening::{FileDesk, MigratedDesk, open_old};
use crate::refusals::report_refusal;
use desk_admin::reordering::reorder_for;
use desk_cli::{Database, ErrorCode, ExitReport, report_exit};
use desk_host::damage::check_before;
use desk_program::print_migrated;
use host_files::files::LocalHost;
use host_files::paths::{OpenPaths, paths_at};
use sqlite::{Start, Unknown};
use std::alloc::Global;
use std::io::Write;

/// Runs the command `migrate` on a database of schema 1: puts the tables in canonical order if they are in
/// another, migrates the plans, prints how many they are, closes the desk, and returns the exit status. Later
/// errors are in that status. The contract gives only the error codes.
///
/// # Errors
///
/// Why the file is refused for its WAL, or can't be put in canonical order; `Memory` if memory runs out
/// before the database is opened.
#[tactic(auto, using(crate::proofs::LogLemmas::log_refuses))]
pub fn migrate_here(host: LocalHost<'_>, database: &Database) -> Result<u8, ErrorCode>
    ensures { IfErr result (λ f. IsLogRefused false f ⊎ IsOpenFailure f) }
{
    let mut errors = host.errors();
    check_before(host, database, false, &mut errors)?;
    let paths = paths_at(host, database)?;
    reorder_for(host, database, true)?;
    let moved = open_old(host, database, Unknown, paths);
    report_refusal(host, database, false, &moved, &mut errors);
    let (exit, desk) = report_moved(host.alloc(), moved, &mut host.output(), &mut errors);
    Ok(close_after(exit.status, desk, &mut errors).0.status)
}

/// Prints how many plans were migrated to `output`, or the error code to `errors`, and returns the exit
/// report with the desk, if there is one. `moved` is the result of the migration. A failed write to `errors`
/// is ignored; one to `output` is an error, but the plans are migrated all the same.
pub fn report_moved<F: Start, N: OpenPaths + Drop, W: Write, E: Write>(
    alloc: Global,
    moved: MigratedDesk<F, N>,
    output: &mut W,
    errors: &mut E,
) -> (ExitReport<E>, Option<FileDesk<F, N>>)
    ensures { IsMigrationReported (or_failure moved) (ended E.Write result.0 errors.old errors.new) result.1
        (bytes_written W.Write output.old output.new) }
{
    match moved {
        Ok((desk, count)) => {
            let exit = print_migrated(alloc, count, output, errors);
            (exit, Some(desk))
        }
        Err(unread) => (report_exit(errors, Err(unread.failure)), None),
    }
}
