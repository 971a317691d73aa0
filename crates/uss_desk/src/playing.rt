//! The command `play` with a journal.

ghost use Rattle.sqlite.specs.Files.{over_files};
ghost use Rattle.desk_cli.specs.Lines.{IsPlay};
ghost use Rattle.desk_recording.specs.Inputs.{input_outside};
ghost use Rattle.uss_desk.specs.{FilesLeft.IsPastOf, FilesLeft.Past, OpenedFor.AreReadsTested, OpenedFor.StaysGuarded, Finishing.IsInputRun};

use crate::opening::DeskAt;
use desk_cli::{ErrorCode, ExitReport, PlayArgs};
use desk_recording::{InputPort, Record, RecordedPort, play_opened};
use host_files::paths::OpenPaths;
use sqlite_disk::Disk;
use std::alloc::Global;
use std::io::{Read, Write};

/// Answers the requests of the input behind `port` at the desk that was opened for `play`, and returns the
/// exit report with the desk, if there is one. `words` are the arguments of `play`. Each request is in the
/// journal before the desk decides it, and each answer before it is sent. An error code goes to `errors`; a
/// failed write there is ignored. If no desk was opened, its error code is reported, and nothing is read.
pub fn play_line<D, N, R, W, K, E>(
    alloc: Global,
    words: &PlayArgs,
    opened: Result<DeskAt<D, N>, ErrorCode>,
    port: &mut RecordedPort<InputPort<R, W>, K>,
    errors: &mut E,
) -> (ExitReport<E>, Option<DeskAt<D, N>>)
where
    D: Disk + Drop,
    N: OpenPaths + Drop,
    R: Read + Drop,
    W: Write + Drop,
    K: Record + Drop,
    E: Write,
    requires { IsPlay words.now }
    ensures run { IsInputRun over_files words.now (input_outside K.Record E.Write port.old port.new result.0
        errors.old errors.new) opened result.1 }
    ensures guarded { (past : Past D) → IsPastOf D.Disk past → AreReadsTested opened
        → StaysGuarded past opened result.1 }
{
    play_opened(alloc, words, opened, port, errors)
}
