//! A command with a desk: what it needs is prepared, its desk is opened, and it runs there. No contract says
//! what the operating system did.

ghost use Rattle.std.specs.Prelude.{◌≡◌, ◌↔◌, [], Err, IfErr, IfOk, IsTrue, None};
ghost use Rattle.std.specs.Option.{is_some};
ghost use Rattle.sqlite.specs.Files.{over_files};
ghost use Rattle.desk_cli.specs.Lines.{IsLine, file_of, line_of};
ghost use Rattle.host_files.specs.Naming.{IsWrittenIfRoom, unenrolled_line};
ghost use Rattle.desk_program.specs.Keeping.{bytes_written};
ghost use Rattle.uss_desk.specs.{Finishing.Finishes, OpenedFor.AreReadsTested, OpenedFor.HasNotedDesk, FilesLeft.IsPrepared, FilesLeft.IsUnenrolled};
ghost use Rattle.uss_desk.specs.FilesLeft as spec;

use crate::closing::close_after;
use crate::fail;
use crate::opening::{DeskAt, Opened, open_database};
use crate::playing::play_line;
use crate::recording::{JournalFolder, folder_for};
use crate::refusals::report_refusal;
use crate::rolls::NotedOperators;
use crate::running::run_line;
use desk_admin::reordering::reorder_for;
use desk_admin::unopened::or_failure;
use desk_cli::{DeskArgs, DeskCommand, Enrolment, ErrorCode};
use desk_host::damage::check_before;
use desk_host::operators::{EnrolmentFile, operators_of};
use desk_program::{LocalPort, Streams};
use desk_recording::{InputPort, RecordedPort};
use host_files::files::LocalHost;
use host_files::paths::{LocalOpenPaths, OpenPaths, paths_at};
use host_files::reporting::report_unenrolled;
use sqlite::Unknown;
use sqlite_disk::Disk;
use std::io::{BufReader, Stderr, Stdin, Stdout, Write};

// What a command has at hand, apart from its desk and the desk's paths.
#[derive(Drop)]
struct Session<'s> {
    host: LocalHost<'s>,
    // the arguments of the command that all commands with a desk have
    words: &'s DeskArgs,
    // the operators that it enrols first
    enrolments: &'s [Enrolment],
    streams: Streams<BufReader<Stdin>, Stdout, Stderr>,
    // the file of enrolments that the arguments name, if any
    enrolment_file: EnrolmentFile<'s, LocalHost<'s>>,
    // the folder of its journal, if it keeps one
    folder: Option<JournalFolder<'s>>,
    // the operators that the desk has when it is opened
    roll: NotedOperators,
}

impl<'s> Session<'s> {
    // Prepares the command `action` with its arguments `words` and the `enrolments` that it makes first, and
    // the paths of its database: checks the WAL and the file of enrolments, puts the tables in canonical
    // order, and reads the end of the last journal. The desk isn't opened yet. If that fails, the cause is
    // reported on the standard error, unless memory ran out or the WAL can't be read. The contract says only
    // what the session has.
    fn prepare(
        host: LocalHost<'s>,
        words: &'s DeskArgs,
        enrolments: &'s [Enrolment],
        action: DeskCommand<'_>,
    ) -> Result<(Session<'s>, LocalOpenPaths<'s>), ErrorCode>
        ensures { IfOk result (λ it. IsPrepared words.entry.now enrolments.entry.now it.0 it.1) }
    {
        check_before(host, &words.database, false, &mut host.errors())?;
        let Ok(input) = BufReader::new(host.alloc(), host.input()) else {
            return Err(ErrorCode::Memory);
        };
        let enrolment_file = operators_of(host, host, words.operators.as_deref())?;
        let paths = paths_at(host, &words.database)?;
        reorder_for(host, &words.database, false)?;
        let folder = folder_for(host, words, action)?;
        let roll = NotedOperators::new(host.alloc(), &words.database, folder.is_some());
        let session = Session {
            host,
            words,
            enrolments,
            streams: Streams {
                input,
                output: host.output(),
                errors: host.errors(),
            },
            enrolment_file,
            folder,
            roll,
        };
        Ok((session, paths))
    }

    // Whether the last journal left anything to recover: then the database file has to exist. False without a
    // journal.
    fn needs_recovery(&self) -> bool
        ensures { result ≡ is_some (spec.undone_of self.now.folder) }
    {
        matches!(&self.folder, Some(folder) if folder.needs_recovery())
    }

    // Recovers what the last journal left pending at the desk that was opened over files, and returns that
    // desk. If that fails, the desk is closed and the error returned; an error of opening is returned as it
    // is.
    fn recover<D: Disk + Drop, N: OpenPaths + Drop>(
        &mut self,
        opened: Result<DeskAt<D, N>, ErrorCode>,
    ) -> Result<DeskAt<D, N>, ErrorCode>
        ensures finishes { IfOk opened (λ desk.
            Finishes over_files (spec.undone_of self.old.folder) self.old.roll desk result) }
        ensures unopened { IfErr opened (λ failure. result ≡ Err failure) }
        ensures noted { HasNotedDesk opened self.old.roll → HasNotedDesk result self.new.roll }
        ensures tested { AreReadsTested opened → AreReadsTested result }
    {
        let Some(folder) = &mut self.folder else {
            return opened;
        };
        match opened {
            Ok(desk) => folder.finish(desk, &mut self.roll),
            Err(failure) => Err(failure),
        }
    }

    // Whether the desk is known to have no operator, and the command enrols none.
    fn is_unenrolled(&self) -> bool
        ensures { IsTrue result ↔ IsUnenrolled self.now }
    {
        self.roll.is_empty() && enrols_none(self.words, self.enrolments)
    }

    // Reports to `errors` that no operator is enrolled, if the desk is known to have none and the command
    // enrols none. A failed write and running out of memory are ignored.
    fn report_if_unenrolled<E: Write>(&self, errors: &mut E)
        ensures reported { IsUnenrolled self.now
            → IsWrittenIfRoom (unenrolled_line (file_of self.now.words.now.database))
            (bytes_written E.Write errors.old errors.new) }
        ensures quiet { ¬ IsUnenrolled self.now → E.contents errors.new ≡ E.contents errors.old }
    {
        if self.is_unenrolled() {
            let path = self.words.database.path();
            report_unenrolled(self.host.alloc(), path, errors);
        }
    }

    // Runs the command `action` at the desk that was opened for it, and returns the exit status with the
    // desk, if there is one. If the command keeps a journal, each request of its input or port is recorded.
    // If the journal can't be begun, the command doesn't run. An error code is printed; a failed write of it
    // is ignored. The contract has only a premise: those of `play_line` and `run_line` say what is done.
    fn run<D: Disk + Drop, N: OpenPaths + Drop>(
        self,
        action: DeskCommand<'_>,
        opened: Result<DeskAt<D, N>, ErrorCode>,
    ) -> (u8, Option<DeskAt<D, N>>)
        requires { IsLine (line_of action) }
    {
        let Session {
            host,
            words,
            enrolments,
            mut streams,
            enrolment_file,
            folder,
            roll,
        } = self;
        let (alloc, terms) = (host.alloc(), words.terms);
        let begun = match folder {
            Some(folder) => folder.begin_if(opened.is_ok(), &terms, enrolments, roll),
            None => Ok(None),
        };
        let record = match begun {
            Ok(record) => record,
            Err(failure) => return (fail(host, failure), opened.ok()),
        };
        let mut port = LocalPort::new(host.rt, host.rt, enrolment_file, alloc, host.errors());
        let (exit, desk) = match (record, action) {
            (Some(record), DeskCommand::Play(words)) => {
                let Streams {
                    input,
                    output,
                    mut errors,
                } = streams;
                let requests = InputPort::new(input, output, words.moment);
                let mut port = RecordedPort::new(requests, record);
                play_line(alloc, words, opened, &mut port, &mut errors)
            }
            (Some(record), _) => {
                let mut port = RecordedPort::new(port, record);
                run_line(alloc, action, opened, &mut port, &mut streams)
            }
            (None, _) => run_line(alloc, action, opened, &mut port, &mut streams),
        };
        (exit.status, desk)
    }
}

// Whether a command enrols no operator: neither by its `enrolments` nor by a file that its `words` name.
fn enrols_none(words: &DeskArgs, enrolments: &[Enrolment]) -> bool
    ensures { IsTrue result ↔ (enrolments.now ≡ []) × (words.now.operators ≡ None) }
{
    enrolments.is_empty() && words.operators.is_none()
}

/// Runs the command `action`, with the arguments `words` and the operators that it enrols first
/// (`enrolments`). It runs at its desk with the standard streams, the network and the clock. Tables in a
/// non-canonical order are reordered first. Then the desk is closed, and the exit status returned. The
/// contract has only a premise, that the arguments are valid; those of its parts say what they do.
///
/// # Errors
///
/// Why the desk isn't opened: its WAL, its file of enrolments, its table order or its journal folder, which
/// is reported; or memory ran out. Later errors are in the exit status.
pub fn at_desk(
    host: LocalHost<'_>,
    words: &DeskArgs,
    enrolments: &[Enrolment],
    action: DeskCommand<'_>,
) -> Result<u8, ErrorCode>
    requires { IsLine (line_of action) }
{
    let (mut session, paths) = Session::prepare(host, words, enrolments, action)?;
    match open_database(host, &words.database, Unknown, paths, &mut session.roll) {
        Opened::Memory(desk) => {
            session.report_if_unenrolled(&mut host.errors());
            Ok(session.run(action, desk).0)
        }
        Opened::Files(found) => {
            let is_made = !session.needs_recovery();
            report_refusal(host, &words.database, is_made, &found, &mut host.errors());
            let desk = session.recover(or_failure(found));
            if desk.is_ok() {
                session.report_if_unenrolled(&mut host.errors());
            }
            let (status, desk) = session.run(action, desk);
            Ok(close_after(status, desk, &mut host.errors()).0.status)
        }
    }
}
