//! Runs a command at the desk that was opened for it, over any disk, streams and port.

ghost use Rattle.sqlite.specs.Files.{over_files};
ghost use Rattle.desk_cli.specs.Lines.{IsLine, line_of};
ghost use Rattle.desk_wire.specs.Streams.{course};
ghost use Rattle.desk_program.specs.Keeping.{outside};
ghost use Rattle.uss_desk.specs.{FilesLeft.IsPastOf, FilesLeft.Past, OpenedFor.AreReadsTested, OpenedFor.IsLineRun, OpenedFor.StaysGuarded};

use crate::opening::DeskAt;
use desk_cli::{DeskCommand, ErrorCode, ExitReport};
use desk_program::{Port, Streams, run_opened};
use host_files::paths::OpenPaths;
use sqlite_disk::Disk;
use std::alloc::Global;
use std::io::{Read, Write};

/// Runs the command `action` at the desk that was opened for it, and returns the exit report with the desk,
/// if there is one. If no desk was opened, only its error code is reported. An error code goes to
/// `streams.errors`; a failed write there is ignored.
pub fn run_line<D, N, P, R, W, E>(
    alloc: Global,
    action: DeskCommand<'_>,
    opened: Result<DeskAt<D, N>, ErrorCode>,
    port: &mut P,
    streams: &mut Streams<R, W, E>,
) -> (ExitReport<E>, Option<DeskAt<D, N>>)
where
    D: Disk + Drop,
    N: OpenPaths + Drop,
    P: Port,
    R: Read + Drop,
    W: Write + Drop,
    E: Write + Drop,
    requires { IsLine (line_of action) }
    ensures run { IsLineRun over_files opened (line_of action.entry) (outside R.Read W.Write E.Write
        streams.old streams.new (course (P.traffic port.old) (P.traffic port.new)) result.0) result.1 }
    ensures guarded { (past : Past D) → IsPastOf D.Disk past → AreReadsTested opened
        → StaysGuarded past opened result.1 }
{
    run_opened(alloc, action, opened, port, streams)
}
