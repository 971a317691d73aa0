//! The command `replay`: plays a journal at the desk over the database that it names.

ghost use Rattle.std.specs.Prelude.{IfErr, false};
ghost use Rattle.sqlite.specs.Files.{over_files};
ghost use Rattle.desk_cli.specs.Exits.{ending};
ghost use Rattle.desk_wire.specs.Streams.{passage};
ghost use Rattle.uss_desk.specs.{FilesLeft.IsPastOf, FilesLeft.Past, OpenedFor.AreReadsTested, OpenedFor.StaysGuarded, Finishing.IsReplayRun, Finishing.IsLogRefused};

use crate::closing::close_after;
use crate::opening::{DeskAt, Opened, open_database};
use crate::refusals::report_refusal;
use crate::rolls::NotedOperators;
use desk_admin::unopened::or_failure;
use desk_cli::{ErrorCode, ExitReport, ReplayArgs};
use desk_host::damage::check_before;
use desk_replay::replay_opened;
use host_files::files::LocalHost;
use host_files::paths::{OpenPaths, paths_at};
use sqlite::Unknown;
use sqlite_disk::Disk;
use std::alloc::Global;
use std::io::{BufReader, Read, Write};

/// Runs the command `replay` with its arguments `words`: plays the journal of the standard input at the desk,
/// closes the desk, and returns the exit status. The contract gives only the error codes.
///
/// # Errors
///
/// Why the database file is refused for its WAL; `Memory` if memory runs out before the database is opened.
#[tactic(auto, using(crate::proofs::LogLemmas::log_refuses))]
pub fn replay_here(host: LocalHost<'_>, words: &ReplayArgs) -> Result<u8, ErrorCode>
    ensures { IfErr result (IsLogRefused false) }
{
    let (mut output, mut errors) = (host.output(), host.errors());
    check_before(host, &words.database, false, &mut errors)?;
    let Ok(mut input) = BufReader::new(host.alloc(), host.input()) else {
        return Err(ErrorCode::Memory);
    };
    let paths = paths_at(host, &words.database)?;
    let (alloc, until) = (host.alloc(), words.until);
    let mut roll = NotedOperators::new(alloc, &words.database, false);
    match open_database(host, &words.database, Unknown, paths, &mut roll) {
        Opened::Memory(desk) => {
            let (exit, _) = replay_line(alloc, until, desk, &mut input, &mut output, &mut errors);
            Ok(exit.status)
        }
        Opened::Files(found) => {
            report_refusal(host, &words.database, true, &found, &mut errors);
            let desk = or_failure(found);
            let (exit, desk) = replay_line(
                alloc,
                until,
                desk,
                &mut input,
                &mut output,
                &mut errors,
            );
            Ok(close_after(exit.status, desk, &mut errors).0.status)
        }
    }
}

/// Plays the journal of `input` at the desk that was opened, up to the first request whose Unix second is
/// greater than `until`, if that is given. Prints to `output` how many requests were played and how many of
/// them changed the database, and returns the exit report with the desk, if there is one. If an entry can't
/// be played, its place and the cause go to `errors` before the error code; a failed write there is ignored.
/// If no desk was opened, only its error code is reported.
pub fn replay_line<D: Disk + Drop, N: OpenPaths + Drop, R: Read, W: Write, E: Write>(
    alloc: Global,
    until: Option<u64>,
    opened: Result<DeskAt<D, N>, ErrorCode>,
    input: &mut R,
    output: &mut W,
    errors: &mut E,
) -> (ExitReport<E>, Option<DeskAt<D, N>>)
    ensures run { IsReplayRun R over_files opened until
        (passage R.Read W.Write input.old input.new output.old output.new)
        (ending result.0 (E.contents errors.old) (E.contents errors.new)) result.1 }
    ensures guarded { (past : Past D) → IsPastOf D.Disk past → AreReadsTested opened
        → StaysGuarded past opened result.1 }
{
    replay_opened(alloc, until, opened, input, output, errors)
}
