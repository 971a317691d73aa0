//! The journal folder of a desk: what the last journal left pending is recovered at the open desk, and then
//! the next journal is begun. No contract says what the operating system did. In reports a journal is called
//! "record".

ghost use Rattle.std.specs.Prelude.{◌≡◌, ◌⊎◌, ◌++◌, ◌↔◌, false, true, IfErr, IfOk, IfSome, IsSome, IsTrue, None, Ok, OnErr, OnOk, Some};
ghost use Rattle.std.specs.Option.{IsSomeAnd, is_some};
ghost use Rattle.sqlite.specs.Files.{over_files};
ghost use Rattle.desk_cli.specs.Lines.{line_of};
ghost use Rattle.desk_host.specs.Operators.{failure_of};
ghost use Rattle.uss_desk.specs.FilesLeft as files;
ghost use Rattle.uss_desk.specs.{FilesLeft.FailsClosed, OpenedFor.AreReadsTested, OpenedFor.RemembersDesk, OpenedFor.HasNoted, OpenedFor.HasNotedDesk};
ghost use Rattle.uss_desk.specs.Finishing.{Finishes, IsDone, IsNumbered, IsUnfinished, KeepsAlone, pending_at, BeginsAlone, HasNothingPending, IsPendingAt, IsFolderFailure, IsClockOrFolderFailure, IsStoreOrFolderFailure};

use crate::closing::close_after;
use crate::opening::{DeskAt, opened_anew};
use crate::rolls::NotedOperators;
use crate::watching::CloseReport;
use desk_cli::{DeskArgs, DeskCommand, Enrolment, ErrorCode, ExitReport};
use desk_host::folders::{
    JournalError, JournalFile, check_empty, check_unchanged, extent_of, last_journal, move_rest,
    name_part, next_number, read_last,
};
use desk_host::journal_file::{LocalJournal, second_now};
use desk_recording::{
    Exchange, Record, Tail, TailEnd, WrittenRecord, missing_enrolments, recover, write_header,
};
use desk_rules::terms::Terms;
use host_files::files::{HostFiles, LocalHost};
use host_files::paths::OpenPaths;
use host_files::reporting::report_text;
use io_ends::Moment;
use sqlite_disk::Disk;
use std::alloc::AllocError;

/// The journal of a command, which gets its requests and answers.
pub type LocalRecord<'s> = WrittenRecord<LocalJournal<'s>>;

/// The journal folder of a desk, as it is before the desk is opened.
#[derive(Drop)]
pub struct JournalFolder<'s> {
    host: LocalHost<'s>,
    path: &'s str,
    // the number of the last journal and its size in bytes; 0 if there is none
    number: u64,
    len: u64,
    // whether both were found unchanged once the desk was open: then no other desk of its file writes here
    is_held: bool,
    // the recovery that the last journal asks for, until it is done
    undone: Option<PendingRecovery<'s>>,
}

// The recovery that the last journal asks for at a database file.
#[derive(Drop)]
struct PendingRecovery<'s> {
    // the path of the database file
    file: &'s str,
    // the last journal
    record: JournalFile,
    // what its whole entries say
    tail: Tail,
    // what follows its last whole entry
    ended: TailEnd,
}

/// The journal folder of the command `action`, if its arguments `words` name one, before its desk is opened.
///
/// # Errors
///
/// `Store` if the folder has a journal and the database file can't be reached, or if the database is in
/// memory and the command isn't `play`; `Write` if the folder can't be read, or its last journal can't be
/// continued (in memory, none can); `Memory`. The cause is reported on the standard error, unless memory ran
/// out.
pub fn folder_for<'s>(
    host: LocalHost<'s>,
    words: &'s DeskArgs,
    action: DeskCommand<'_>,
) -> Result<Option<JournalFolder<'s>>, ErrorCode>
    ensures none { words.now.folder ≡ None → result ≡ Ok None }
    ensures some { IsSome words.now.folder → IfOk result IsSome }
    ensures begun { IfOk result (λ found. IfSome found (λ folder. folder.is_held ≡ false)) }
    ensures fault { IfErr result IsStoreOrFolderFailure }
{
    let Some(path) = words.folder.as_deref() else {
        return Ok(None);
    };
    let last = or_report(host, path, last_journal(host, path))?;
    let (number, len) = extent_of(&last);
    let undone = match words.database.path() {
        Some(file) => recovery_at(host, path, file, last)?,
        None => recovery_in_memory(host, path, action, &last)?,
    };
    Ok(Some(JournalFolder {
        host,
        path,
        number,
        len,
        is_held: false,
        undone,
    }))
}

// The pending recovery of a desk in memory: none, since such a desk continues no journal. For `play` the error
// is `Write` if the folder has a `last` journal. For any other command it is `Store`, since a desk in
// memory has no journal there. The cause is reported.
fn recovery_in_memory<'s>(
    host: LocalHost<'_>,
    folder: &str,
    action: DeskCommand<'_>,
    last: &Option<JournalFile>,
) -> Result<Option<PendingRecovery<'s>>, ErrorCode>
    ensures { BeginsAlone (line_of action.entry) (is_some last.now) result }
{
    match action {
        DeskCommand::Play(_) => {
            or_report(host, folder, check_empty(last))?;
            Ok(None)
        }
        _ => Err(report_store_failure(host, folder, "a record needs a database in a file")),
    }
}

// The recovery that the `last` journal of a folder asks for at the database file `file`, if any. `None` if
// there is no journal. If there is one, and the file can't be reached (`Store`) or the journal can't be
// continued (`Write`), the cause is reported.
fn recovery_at<'s>(
    host: LocalHost<'_>,
    folder: &str,
    file: &'s str,
    last: Option<JournalFile>,
) -> Result<Option<PendingRecovery<'s>>, ErrorCode>
    ensures none { last ≡ None → result ≡ Ok None }
    ensures pending { IfOk result (λ undone. IfSome undone (λ it.
        IsSomeAnd last (λ found. IsPendingAt file.now found it))) }
    ensures fault { IfErr result IsStoreOrFolderFailure }
{
    let Some(record) = last else {
        return Ok(None);
    };
    if host.find(file).is_err() {
        return Err(report_store_failure(host, file, "no such file, and there are records of it"));
    }
    let (tail, ended) = or_report(host, folder, read_last(host, &record))?;
    Ok(recovery_if_any(PendingRecovery {
        file,
        record,
        tail,
        ended,
    }))
}

// The recovery `left`, if it has anything to do; else `None`.
fn recovery_if_any(left: PendingRecovery<'_>) -> Option<PendingRecovery<'_>>
    ensures none { HasNothingPending left.entry.tail left.entry.ended → result ≡ None }
    ensures some { (result ≡ Some left.entry) ⊎ HasNothingPending left.entry.tail left.entry.ended }
{
    (!is_complete(&left.tail, left.ended)).then_some(left)
}

// Whether a journal leaves nothing to recover: it ends with a whole entry, its last request is answered, and
// no enrolment follows that request.
fn is_complete(tail: &Tail, ended: TailEnd) -> bool
    ensures { IsTrue result ↔ HasNothingPending tail.now ended }
{
    ended == TailEnd::End && tail.asked.is_none() && tail.operators.is_empty()
}

// The value in `done`, the result of something done in the journal folder; or the error code. For a cause,
// this is `Write`, and the cause is reported under the name of the `folder`; a failed write of that is
// ignored.
fn or_report<T: Drop>(
    host: LocalHost<'_>,
    folder: &str,
    done: Result<T, JournalError>,
) -> Result<T, ErrorCode>
    ensures converted { result ≡ failure_of done }
    ensures fault { IfErr result IsFolderFailure }
{
    if let Err(JournalError::Cause(cause)) = &done {
        report_text(host.alloc(), folder, cause.text(), &mut host.errors());
    }
    Ok(done?)
}

// Reports the cause for the file at `path` on the standard error, and returns the error code `Store`, which
// alone the contract gives. A failed write and running out of memory are ignored.
fn report_store_failure(host: LocalHost<'_>, path: &str, cause: &str) -> ErrorCode
    ensures { result ≡ ErrorCode.Store }
{
    report_text(host.alloc(), path, cause, &mut host.errors());
    ErrorCode::Store
}

impl<'s> JournalFolder<'s> {
    /// Whether the last journal left anything to recover.
    pub fn needs_recovery(&self) -> bool
        ensures { result ≡ is_some self.now.undone }
    {
        self.undone.is_some()
    }

    /// Recovers at the open desk what the last journal left pending. Returns the desk as if it was just
    /// opened, with its operators noted in `roll`. If nothing is pending, returns the desk as it is. If the
    /// recovery fails, the desk is closed.
    ///
    /// # Errors
    ///
    /// `Write` if the folder can't be read or written, or its last journal has changed; `Store` if the desk
    /// fails or can't be closed; `Broken` if the repeated request or its answer can't be recorded; `Memory`;
    /// `Clock` if the second of that request is out of range. A failure of a file is reported.
    pub fn finish<D: Disk + Drop, N: OpenPaths + Drop>(
        &mut self,
        mut desk: DeskAt<D, N>,
        roll: &mut NotedOperators,
    ) -> Result<DeskAt<D, N>, ErrorCode>
        ensures finishes { Finishes over_files self.old.undone roll.old desk result }
        ensures left { self.new.undone ≡ None }
        ensures noted { HasNoted desk.store roll.old → HasNotedDesk result roll.new }
        ensures tested { AreReadsTested (Ok desk) → AreReadsTested result }
    {
        let Some(undone) = self.undone.take() else {
            return Ok(desk);
        };
        let file = undone.file;
        match self.recover(undone, &mut desk, roll) {
            Ok(()) => Ok(opened_anew(desk, roll)),
            Err(failure) => Err(close_failed(self.host, file, desk, failure)),
        }
    }

    // Recovers at a desk what the last journal left pending (`undone`). First it is checked that the folder
    // is unchanged, and a truncated entry is moved out of that journal. `roll` has the operators of the desk;
    // the error is `Memory` if memory ran out for them. A repeated request is written to the next journal.
    fn recover<D: Disk + Drop, N: OpenPaths + Drop>(
        &mut self,
        undone: PendingRecovery<'_>,
        desk: &mut DeskAt<D, N>,
        roll: &mut NotedOperators,
    ) -> Result<(), ErrorCode>
        ensures done { OnOk result (IsDone over_files (pending_at undone.entry roll.old) desk.old desk.new) }
        ensures remembered { RemembersDesk over_files desk.old desk.new }
        ensures kept { OnOk result (KeepsAlone over_files desk.old desk.new) }
        ensures cause { IfErr result (IsUnfinished undone.entry.tail.asked) }
        ensures undone { self.new.undone ≡ self.old.undone }
        ensures number { OnOk result (IsNumbered undone.entry.tail.asked self.old.number self.new.number) }
    {
        self.check_unchanged()?;
        let (host, path) = (self.host, self.path);
        let PendingRecovery {
            record,
            tail,
            ended,
            ..
        } = undone;
        if ended == TailEnd::Short {
            or_report(host, path, move_rest(host, &record, tail.size))?;
        }
        let Some(operators) = roll.take() else {
            return Err(ErrorCode::Memory);
        };
        let missing = missing_enrolments(host.alloc(), &operators, &tail.operators)?;
        let number = or_report(host, path, next_number(self.number))?;
        let mut journal = LocalRecoveryJournal {
            host,
            folder: path,
            number,
            terms: tail.terms,
            operators: joined(operators, &missing)?,
            record: None,
        };
        let (terms, asked) = (tail.terms, tail.asked);
        let is_asked = asked.is_some();
        recover(host.alloc(), desk, &terms, &missing, asked, &mut journal)?;
        if is_asked {
            self.number = number;
        }
        Ok(())
    }

    // Checks that the folder's last journal and its size are unchanged, unless that was done before. If they
    // have changed, the folder is in use: that is reported, and the error is `Write`. Now that the desk is
    // open, no other desk of its file writes here.
    fn check_unchanged(&mut self) -> Result<(), ErrorCode>
        ensures held { OnOk result (self.new ≡ record self.old { is_held = true }) }
        ensures same { OnErr result (self.new ≡ self.old) }
        ensures once { IsTrue self.old.is_held → result ≡ Ok (tt {0}) }
        ensures fault { IfErr result IsFolderFailure }
    {
        if self.is_held {
            return Ok(());
        }
        let extent = (self.number, self.len);
        or_report(
            self.host,
            self.path,
            check_unchanged(self.host, self.path, extent),
        )?;
        self.is_held = true;
        Ok(())
    }

    /// Begins the journal of a command, if its desk is open (`is_open`; else `None`): with the settings
    /// `terms`, the operators in `roll`, and those that the command enrols (`enrolments`).
    ///
    /// # Errors
    ///
    /// `Write` if the folder can't be written, or its last journal has changed, which is reported; `Memory`;
    /// `Clock` if the clock can't be read.
    pub fn begin_if(
        self,
        is_open: bool,
        terms: &Terms,
        enrolments: &[Enrolment],
        roll: NotedOperators,
    ) -> Result<Option<LocalRecord<'s>>, ErrorCode>
        ensures none { is_open ≡ false → result ≡ Ok None }
        ensures some { IsTrue is_open → IfOk result IsSome }
        ensures fault { IfErr result IsClockOrFolderFailure }
    {
        if !is_open {
            return Ok(None);
        }
        Ok(Some(self.begin(terms, enrolments, roll)?))
    }

    // Begins the journal of a command at its open desk, as `begin_if` does. The journal gets its final name
    // once its first entries are on the disk.
    fn begin(
        mut self,
        terms: &Terms,
        enrolments: &[Enrolment],
        mut roll: NotedOperators,
    ) -> Result<LocalRecord<'s>, ErrorCode>
        ensures { IfErr result IsClockOrFolderFailure }
    {
        self.check_unchanged()?;
        let (host, path) = (self.host, self.path);
        let Some(operators) = roll.take() else {
            return Err(ErrorCode::Memory);
        };
        let number = or_report(host, path, next_number(self.number))?;
        let operators = joined(operators, enrolments)?;
        let journal = begin_part(host, path, number, terms, &operators)?;
        let second = second_now(host)?;
        or_report(host, path, name_part(host, path, number, second))?;
        Ok(WrittenRecord::new(host.alloc(), journal))
    }
}

// Closes a desk whose recovery failed, and returns that error code (`failure`). If the desk can't be closed,
// or its files weren't at their paths, this is reported for the database file `file`, and the code is
// `Store`.
fn close_failed<D: Disk + Drop, N: OpenPaths + Drop>(
    host: LocalHost<'_>,
    file: &str,
    desk: DeskAt<D, N>,
    failure: ErrorCode,
) -> ErrorCode
    ensures { FailsClosed desk failure result }
{
    // With the status 1 of a failed command, `close_after` itself prints nothing.
    if is_closed(close_after(1, Some(desk), &mut host.errors())) {
        return failure;
    }
    report_store_failure(host, file, "it can't be closed")
}

// Whether a desk was closed, with its files at their paths, by the result of `close_after`; false if there
// was no desk over files.
fn is_closed<D: Disk + Drop, E>(ended: (ExitReport<E>, Option<CloseReport<D>>)) -> bool
    ensures { result ≡ files.is_closed ended.1 }
{
    match ended.1 {
        Some(closed) => closed.are_at_paths && closed.files.is_ok(),
        None => false,
    }
}

// `operators` followed by `others`. Fails if memory runs out.
fn joined(mut operators: Vec<Enrolment>, others: &[Enrolment]) -> Result<Vec<Enrolment>, AllocError>
    ensures { IfOk result (λ all. all.items ≡ operators.items ++ others.now) }
{
    operators.extend_from_slice(others)?;
    Ok(operators)
}

// Makes the file of a new journal in `folder` under its temporary name, in place of one that was left there,
// and writes its first entries to the disk: version and `number`, the settings `terms`, the `operators`. If
// that fails, the error is `Write` or `Memory`, and a failure of the file is reported.
fn begin_part<'s>(
    host: LocalHost<'s>,
    folder: &'s str,
    number: u64,
    terms: &Terms,
    operators: &[Enrolment],
) -> Result<LocalJournal<'s>, ErrorCode>
    ensures { IfErr result IsFolderFailure }
{
    let mut journal = or_report(host, folder, LocalJournal::make(host, folder, number))?;
    write_header(host.alloc(), &mut journal, number, terms, operators)?;
    Ok(journal)
}

// Why a repeated request, or its answer, can't be recorded. If a file is the cause, that was reported.
#[derive(Drop)]
struct RepeatError {
    failure: ErrorCode,
}

impl From<ErrorCode> for RepeatError {
    ghost use Rattle.std.specs.Prelude.{◌≡◌};

    ghost from_gives = { λ failure error. error.failure ≡ failure };

    fn from(failure: ErrorCode) -> RepeatError {
        RepeatError { failure }
    }
}

// The journal of a request that recovery repeats. It gets its final name once the request is in it.
#[derive(Drop)]
struct LocalRecoveryJournal<'s> {
    host: LocalHost<'s>,
    folder: &'s str,
    // the number, the settings and the operators with which it begins
    number: u64,
    terms: Terms,
    operators: Vec<Enrolment>,
    // the journal itself, once it has the request
    record: Option<LocalRecord<'s>>,
}

impl<'s> LocalRecoveryJournal<'s> {
    // Makes the journal with the request (`bytes`, decided at `moment`) in it, and then gives it its final
    // name.
    fn begin(&mut self, moment: Moment, bytes: &[u8]) -> Result<LocalRecord<'s>, ErrorCode>
        ensures same { self.new ≡ self.old }
        ensures fault { IfErr result IsClockOrFolderFailure }
    {
        let journal = begin_part(
            self.host,
            self.folder,
            self.number,
            &self.terms,
            &self.operators,
        )?;
        let mut record = WrittenRecord::new(self.host.alloc(), journal);
        record.append_request(moment, bytes)?;
        let second = second_now(self.host)?;
        or_report(
            self.host,
            self.folder,
            name_part(self.host, self.folder, self.number, second),
        )?;
        Ok(record)
    }

    // Appends the answer to the journal's only request, and flushes it. `NoRecord` if no request was appended.
    fn append_last(&mut self, connection: Exchange<'_>) -> Result<(), ErrorCode>
        ensures { IfErr result (λ f. (f ≡ ErrorCode.NoRecord) ⊎ IsFolderFailure f) }
    {
        let Some(record) = &mut self.record else {
            return Err(ErrorCode::NoRecord);
        };
        record.append_answer(connection)?;
        Ok(record.sync()?)
    }
}

// Its steps and its text are not known (`steps` and `noted` are None), so the trait's clauses promise nothing
// of these bodies.
impl Record for LocalRecoveryJournal<'_> {
    type Fault = RepeatError;

    // Never called, since a recovery brings no new enrolments; it fails.
    fn append_new_enrolments(&mut self, _news: &[Enrolment]) -> Result<(), RepeatError> {
        Err(RepeatError::from(ErrorCode::NoRecord))
    }

    // Makes the journal with the request in it, under its final name.
    fn append_request(&mut self, moment: Moment, bytes: &[u8]) -> Result<(), RepeatError> {
        self.record = Some(self.begin(moment, bytes)?);
        Ok(())
    }

    // Appends the answer and flushes it: no request follows that would flush it.
    fn append_answer(&mut self, connection: Exchange<'_>) -> Result<(), RepeatError> {
        Ok(self.append_last(connection)?)
    }

    // Writes nothing: a journal has no entry for a lost answer.
    fn note_lost_answer(&mut self, _connection: Exchange<'_>) {}
}
