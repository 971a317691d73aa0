//! The file of enrolments that the administrator changes while a desk serves: lines `NAME CEILING`. No
//! contract says what the operating system did, nor what went to the standard error.

ghost use Rattle.std.specs.Prelude.{◌≡◌, List, [], ◌∷◌, IfErr, IfOk, IfSome, map, MatchResult, None, Option, option_map, string_bytes};
ghost use Rattle.std.specs.IoError.{error_kind};
ghost use Rattle.desk_cli.specs.Lines.{AreEnrolments};
ghost use Rattle.desk_wire.specs.Streams.{course};
ghost use Rattle.desk_program.specs.{Keeping.bytes_written, Serving.Grows};
ghost use Rattle.host_files.specs.{Access.by_ok, Naming.Reports};
ghost use Rattle.desk_host.specs.Operators.{unread_by, unread_text, AreEnrolmentsRead, IsLookResult, Asking, HasUnreadCause, IsStampOf, Read, Stamped, ok_of, IsUnreadIf, IsTextFault, IsTextOf, IsUnstamped, AreReported};
ghost use Rattle.desk_host.specs.Operators as spec;

use desk_cli::{Enrolment, ErrorCode, lines_of, parse_enrolment_line, parse_enrolment_lines};
use desk_program::EnrolmentSource;
use host_files::files::{HostFiles, LocalHost};
use host_files::reporting::report_text;
use std::alloc::{AllocError, Global};
use std::fs::{self, File, Metadata};
use std::io::{self, ErrorKind, Read, Write};
use std::time::SystemTime;

/// The most bytes that the file of enrolments may have: 1 MiB.
const MAX_BYTES: u64 = 1_048_576;

// The cause for a longer file.
const TOO_LONG: &str = "longer than 1,048,576 bytes";

/// How many malformed lines are reported one by one each time the file is read.
const MAX_REPORTED_LINES: u32 = 20;

/// When a file was last changed, and its length in bytes. While both stay the same, the file isn't read
/// again.
#[derive(Clone, Copy, PartialEq, Eq)]
pub struct Stamp {
    modified: Option<SystemTime>,
    len: u64,
}

/// Why a file can't be read.
#[derive(Drop)]
pub enum FileReadError {
    /// Memory ran out.
    Memory,
    /// Another cause, in the words of a report.
    Cause(&'static str),
}

impl From<AllocError> for FileReadError {
    ghost use Rattle.std.specs.Prelude.{◌≡◌};
    ghost use Rattle.desk_host.specs.declared.operators.FileReadError.TheVariants.{Memory};

    ghost from_gives = { λ _ it. it ≡ Memory };

    fn from(_error: AllocError) -> FileReadError {
        FileReadError::Memory
    }
}

impl From<io::Error> for FileReadError {
    ghost use Rattle.std.specs.Prelude.{◌≡◌};
    ghost use Rattle.std.specs.IoError.{error_kind};
    ghost use Rattle.desk_host.specs.Operators.{unread_by, unread_text};

    ghost from_gives = { λ error it. unread_text it ≡ unread_by (error_kind error) };

    fn from(error: io::Error) -> FileReadError {
        unread_by(error.kind())
    }
}

// Why a file can't be read, by the kind of the error.
fn unread_by(kind: ErrorKind) -> FileReadError
    ensures { unread_text result ≡ spec.unread_by kind }
{
    match kind {
        ErrorKind::OutOfMemory => FileReadError::Memory,
        ErrorKind::NotFound => FileReadError::Cause("no such file"),
        ErrorKind::PermissionDenied => FileReadError::Cause("no right to read it"),
        _ => FileReadError::Cause("it can't be read"),
    }
}

/// Text files that an administrator changes while a desk serves.
pub trait TextFiles {
    /// What was asked of them, with the answers, in order, if known.
    ghost asked: { Self → Option (List Asking) } = { λ _. None };

    /// The stamp of the file at a path.
    ///
    /// # Errors
    ///
    /// There is no such file, it isn't a regular file, it can't be reached, or memory ran out.
    fn stamp(&mut self, path: &str) -> Result<Stamp, FileReadError>
        ensures { Grows (asked self.old) (asked self.new) (Stamped path.now (ok_of result) ∷ []) };

    /// The text of the file at a path. Invalid UTF-8 is replaced, so that its line is malformed.
    ///
    /// # Errors
    ///
    /// The file can't be read, is longer than `MAX_BYTES`, or memory ran out.
    fn text(&mut self, alloc: Global, path: &str) -> Result<String, FileReadError>
        ensures { Grows (asked self.old) (asked self.new)
            (Read path.now (option_map string_bytes (ok_of result)) ∷ []) };
}

impl TextFiles for LocalHost<'_> {
    fn stamp(&mut self, path: &str) -> Result<Stamp, FileReadError> {
        stamp_of(self.rt, path)
    }

    fn text(&mut self, alloc: Global, path: &str) -> Result<String, FileReadError> {
        read_text(self, alloc, path)
    }
}

/// The file of enrolments, if there is one. Malformed lines are reported on the standard error.
#[derive(Drop)]
pub struct EnrolmentFile<'r, F: Drop> {
    host: LocalHost<'r>,
    files: F,
    path: Option<&'r str>,
    // The stamp of the file whose operators were last returned.
    seen: Option<Stamp>,
    // The stamp of the file whose malformed lines were last reported.
    checked: Option<Stamp>,
    // Why the file couldn't be read, as it was last reported.
    reported: Option<&'static str>,
}

/// The file of enrolments at `path`; one without a path if that is `None`. The file is read once, so that its
/// malformed lines are reported before the desk serves. Its operators aren't returned yet: the first look
/// does that. The contract gives only the path.
///
/// # Errors
///
/// `Read` if the file can't be read, which is reported; `Memory` if memory ran out.
pub fn operators_of<'r, F: TextFiles + Drop>(
    host: LocalHost<'r>,
    files: F,
    path: Option<&'r str>,
) -> Result<EnrolmentFile<'r, F>, ErrorCode>
    ensures { IfOk result (λ file.
        option_map (λ path. path.now) file.path ≡ option_map (λ path. path.now) path.entry) }
{
    let mut file = EnrolmentFile {
        host,
        files,
        path,
        seen: None,
        checked: None,
        reported: None,
    };
    let Some(path) = path else {
        return Ok(file);
    };
    match file.read_file(host.alloc(), path) {
        Ok(_) => Ok(file),
        Err(FileReadError::Memory) => Err(ErrorCode::Memory),
        Err(FileReadError::Cause(cause)) => {
            report_text(host.alloc(), path, cause, &mut host.errors());
            Err(ErrorCode::Read)
        }
    }
}

impl<F: TextFiles + Drop> EnrolmentFile<'_, F> {
    // The enrolments in the file at `path`. Malformed lines are reported once for each version of the file,
    // and passed over.
    fn read_file(&mut self, alloc: Global, path: &str) -> Result<Vec<Enrolment>, FileReadError>
        ensures small { IfOk result (λ enrolments. AreEnrolments enrolments.items) }
        ensures read { IfOk result (λ enrolments. AreEnrolmentsRead path.now
            (course (F.asked self.old.files) (F.asked self.new.files)) enrolments.items) }
        ensures cause { IfErr result
            (HasUnreadCause path.now (course (F.asked self.old.files) (F.asked self.new.files))) }
        ensures path { self.new.path ≡ self.old.path }
        ensures seen { self.new.seen ≡ self.old.seen }
    {
        let stamp = self.files.stamp(path)?;
        let text = self.files.text(alloc, path)?;
        let lines = lines_of(alloc, &text)?;
        if self.checked != Some(stamp) {
            self.checked = Some(stamp);
            report_lines(alloc, path, &lines, &mut self.host.errors())?;
        }
        Ok(parse_enrolment_lines(alloc, &lines)?)
    }

    // Reports on the standard error why the file at `path` can't be read, unless `cause` was the last cause
    // reported. A failed write and running out of memory are ignored.
    fn report_once(&mut self, path: &str, cause: &'static str)
        ensures asked { F.asked self.new.files ≡ F.asked self.old.files }
        ensures seen { self.new.seen ≡ self.old.seen }
    {
        if self.reported != Some(cause) {
            self.reported = Some(cause);
            report_text(self.host.alloc(), path, cause, &mut self.host.errors());
        }
    }
}

impl<F: TextFiles + Drop> EnrolmentSource for EnrolmentFile<'_, F> {
    // The enrolments in the file, if it was changed since they were last returned; else an empty list, also
    // if there is no file or it can't be read. Such a file is reported once for each cause, and read again at
    // the next look. Fails with `Memory` if memory runs out.
    #[tactic(auto, using(crate::proofs::OperatorLemmas::nothing_enrolled))]
    fn look(&mut self, alloc: Global) -> Result<Vec<Enrolment>, ErrorCode>
        ensures small { IfOk result (λ newly_enrolled. AreEnrolments newly_enrolled.items) }
        ensures fault { IfErr result (λ f. f ≡ ErrorCode.Memory) }
        ensures newly_enrolled { IfOk result (λ newly_enrolled.
            IsLookResult (option_map (λ path. path.now) self.old.path) (course self.old.seen self.new.seen)
            (course (F.asked self.old.files) (F.asked self.new.files))
            newly_enrolled.items) }
    {
        let Some(path) = self.path else {
            return Ok(Vec::new(alloc));
        };
        let stamp = self.files.stamp(path).ok();
        if stamp.is_some() && stamp == self.seen {
            return Ok(Vec::new(alloc));
        }
        self.seen = stamp;
        match self.read_file(alloc, path) {
            Ok(enrolments) => {
                self.reported = None;
                Ok(enrolments)
            }
            Err(FileReadError::Memory) => Err(ErrorCode::Memory),
            Err(FileReadError::Cause(cause)) => {
                self.seen = None;
                self.report_once(path, cause);
                Ok(Vec::new(alloc))
            }
        }
    }
}

// The stamp of the file at a path.
fn stamp_of(rt: &HostRuntime, path: &str) -> Result<Stamp, FileReadError>
    ensures { IfErr result IsUnstamped }
{
    stamp_by(fs::metadata(rt, path))
}

// The stamp of a file, by its metadata. An error if they can't be had, or it isn't a regular file.
fn stamp_by(found: io::Result<Metadata>) -> Result<Stamp, FileReadError>
    ensures stamp { MatchResult found (λ said. IsStampOf said result)
        (λ error. IfErr result (λ fault. unread_text fault ≡ spec.unread_by (error_kind error))) }
    ensures cause { IfErr result IsUnstamped }
{
    let found = found?;
    if !found.is_file() {
        return Err(FileReadError::Cause("no file"));
    }
    Ok(Stamp {
        modified: found.modified().ok(),
        len: found.len(),
    })
}

// The text of the file at a path. Invalid UTF-8 is replaced, so that its line is malformed.
fn read_text<F: HostFiles>(files: &F, alloc: Global, path: &str) -> Result<String, FileReadError>
    ensures unread { IfSome (F.answers files.now) (λ it. IsUnreadIf (it.unread path.now) result) }
    ensures cause { IfErr result IsTextFault }
{
    text_in(alloc, files.open(path).map_err(unread_by)?)
}

// The text of the open file `file`. At most one byte more than `MAX_BYTES` is read, to learn whether it is
// longer. The contract gives only the causes of errors.
fn text_in<R: Read + Drop>(alloc: Global, file: R) -> Result<String, FileReadError>
    ensures { IfErr result IsTextFault }
{
    let mut bytes = Vec::new(alloc);
    let mut file = file.take(MAX_BYTES + 1);
    file.read_to_end(&mut bytes)?;
    text_of(alloc, &bytes)
}

// The text of the bytes that were read, unless they are more than `MAX_BYTES`. Invalid UTF-8 is replaced.
#[tactic(auto, using(crate::proofs::FaultLemmas::memory_read_error))]
fn text_of(alloc: Global, bytes: &[u8]) -> Result<String, FileReadError>
    ensures text { IsTextOf bytes.now (by_ok string_bytes result) }
    ensures cause { IfErr result IsTextFault }
{
    if bytes.len() as u64 > MAX_BYTES {
        return Err(FileReadError::Cause(TOO_LONG));
    }
    Ok(String::from_utf8_lossy(alloc, bytes)?)
}

// How many lines of a file were counted so far, and how many of them are malformed. Both saturate.
#[derive(Clone, Copy)]
struct LineCounts {
    lines: u32,
    malformed: u32,
}

impl LineCounts {
    // The counts once `line` is counted too.
    fn with(self, line: &str) -> LineCounts
        ensures { result ≡ spec.counted_with line.now self }
    {
        LineCounts {
            lines: self.lines.saturating_add(1),
            malformed: if is_malformed(line) {
                self.malformed.saturating_add(1)
            } else {
                self.malformed
            },
        }
    }
}

// Reports the malformed lines of the file at `path`: the first `MAX_REPORTED_LINES` one by one, then how
// many more there are. Fails if memory runs out; a failed write is ignored.
#[tactic(auto, using(host_files::proofs::lemmas::Reporting::reports_both))]
fn report_lines<E: Write>(
    alloc: Global,
    path: &str,
    lines: &[&str],
    errors: &mut E,
) -> Result<(), AllocError>
    ensures reported { IfOk result (λ _. AreReported
        (spec.lines_reported path.now (map (λ line. line.now) lines.now))
        (E.contents errors.old) (E.contents errors.new)) }
    ensures appended { Reports (bytes_written E.Write errors.old errors.new) }
{
    let mut counted = LineCounts {
        lines: 0,
        malformed: 0,
    };
    for line in lines {
        counted = counted.with(line);
        report_if_malformed(alloc, path, line, counted, errors)?;
    }
    report_rest(alloc, path, counted.malformed, errors)
}

// Reports `line`, if it is malformed and one of the first `MAX_REPORTED_LINES` that are. It is the last one
// in `counted`, so `counted.lines` is its number. Fails if memory runs out; a failed write is ignored.
#[tactic(auto, using(host_files::proofs::lemmas::Reporting::reports_nothing, crate::proofs::ReportedLemmas::reported_one))]
fn report_if_malformed<E: Write>(
    alloc: Global,
    path: &str,
    line: &str,
    counted: LineCounts,
    errors: &mut E,
) -> Result<(), AllocError>
    ensures reported { IfOk result (λ _. AreReported (spec.line_reported path.now line.now counted)
        (E.contents errors.old) (E.contents errors.new)) }
    ensures appended { Reports (bytes_written E.Write errors.old errors.new) }
{
    if is_malformed(line) && counted.malformed <= MAX_REPORTED_LINES {
        let text = malformed_text(alloc, counted.lines)?;
        report_text(alloc, path, &text, errors);
    }
    Ok(())
}

// Reports by how many the malformed lines, which are so many (`malformed`), exceed `MAX_REPORTED_LINES`, if
// they do. Fails if memory runs out; a failed write is ignored.
#[tactic(auto, using(host_files::proofs::lemmas::Reporting::reports_nothing, crate::proofs::ReportedLemmas::reported_one))]
fn report_rest<E: Write>(
    alloc: Global,
    path: &str,
    malformed: u32,
    errors: &mut E,
) -> Result<(), AllocError>
    ensures reported { IfOk result (λ _. AreReported (spec.rest_reported path.now malformed)
        (E.contents errors.old) (E.contents errors.new)) }
    ensures appended { Reports (bytes_written E.Write errors.old errors.new) }
{
    if malformed > MAX_REPORTED_LINES {
        let text = more_malformed_text(alloc, malformed - MAX_REPORTED_LINES)?;
        report_text(alloc, path, &text, errors);
    }
    Ok(())
}

// Whether a line is malformed: it is neither empty nor an enrolment.
fn is_malformed(line: &str) -> bool
    ensures { result ≡ spec.is_malformed line.now }
{
    !line.is_empty() && parse_enrolment_line(line).is_none()
}

// The text that reports the malformed line with this number, counted from 1.
#[tactic(auto, unfolding(crate::specs::Operators::malformed_line))]
fn malformed_text(alloc: Global, number: u32) -> Result<String, AllocError>
    ensures { IfOk result (λ text. string_bytes text ≡ spec.malformed_line number) }
{
    format!(in alloc; "line {number} is not NAME CEILING, and passed over")
}

// The text that reports `count` more malformed lines.
#[tactic(auto, unfolding(crate::specs::Operators::more_lines))]
fn more_malformed_text(alloc: Global, count: u32) -> Result<String, AllocError>
    ensures { IfOk result (λ text. string_bytes text ≡ spec.more_lines count) }
{
    format!(in alloc; "{count} more such lines")
}
