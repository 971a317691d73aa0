//! Closes a desk over files after its command. Its WAL is checkpointed: the database file alone has the state
//! then.

ghost use Rattle.desk_cli.specs.Exits.{ending};
ghost use Rattle.uss_desk.specs.FilesLeft.{IsClosed, IsEnded};

use crate::opening::DeskAt;
use crate::watching::CloseReport;
use desk_cli::{ErrorCode, ExitReport, report_exit};
use host_files::paths::OpenPaths;
use sqlite_disk::Disk;
use std::io::Write;

/// Closes a desk over files after a command that ended with the exit status `status`: its WAL is checkpointed
/// into the database file. Returns the exit report and the result of closing. If the desk can't be closed, or
/// its files were no longer at their paths, a command that had succeeded fails with `Store`, which goes to
/// `errors`; a failed write there is ignored. If `desk` is `None`, no desk is open over files, and there is
/// nothing to close.
pub fn close_after<D: Disk + Drop, N: OpenPaths + Drop, E: Write>(
    status: u8,
    desk: Option<DeskAt<D, N>>,
    errors: &mut E,
) -> (ExitReport<E>, Option<CloseReport<D>>)
    ensures { IsClosed desk status
        (ending result.0 (E.contents errors.old) (E.contents errors.new)) result.1 }
{
    let Some(desk) = desk else {
        return (ExitReport::silent(status), None);
    };
    let closed = desk.into_store().close();
    let exit = exit_closed(status, &closed, errors);
    (exit, Some(closed))
}

// The exit report of a command that ended with `status`, by the result of closing its desk. If the desk can't
// be closed, or its files were no longer at their paths, a command that had succeeded fails with `Store`, which
// goes to `errors`; a failed write there is ignored.
fn exit_closed<D: Disk, E: Write>(
    status: u8,
    closed: &CloseReport<D>,
    errors: &mut E,
) -> ExitReport<E>
    ensures { IsEnded closed.now.files closed.now.are_at_paths status
        (ending result (E.contents errors.old) (E.contents errors.new)) }
{
    let is_closed = closed.are_at_paths && closed.files.is_ok();
    if is_closed || status != 0 {
        return ExitReport::silent(status);
    }
    report_exit(errors, Err(ErrorCode::Store))
}
