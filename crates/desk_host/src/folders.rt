//! The folder of a desk's journals: which files it has, and how a new one gets its name. No contract says
//! what the operating system did: at files, a contract gives little more than the errors.

ghost use Rattle.std.specs.Prelude.{◌≡◌, ◌≢◌, ◌++◌, IfErr, IfOk, IfSome, List, MatchOption, Some, codes, option_map, ℕ, string_bytes, true};
ghost use Rattle.std.specs.{Char.is_ascii_digit, Global.Global, List.list_all, declared.fs.File.File, declared.io.buffered.BufReader.BufReader};
ghost use Rattle.desk_recording.specs.Tail.{IsTail, tail_shown};
ghost use Rattle.desk_host.specs.Operators.{IsTailFault, IsNotContinued, CanContinue, ContinuesUnless, IsChangedOrError, IsJournalError, IsSameExtent, journal_error_text, IsJournalFileIn, IsJournalIn, IsNextAt, IsNumberIn};
ghost use Rattle.desk_host.specs.Operators as spec;

use desk_cli::ErrorCode;
use desk_recording::{Tail, TailEnd, TailFault, read_tail};
use host_files::files::LocalHost;
use host_files::naming::{IN_USE, OWNER_ALONE, READ_ONLY, TAKEN, sync_folder};
use std::alloc::{AllocError, Global};
use std::fs::{self, File, OpenOptions};
use std::io::{self, BufReader, ErrorKind, Read, Seek, SeekFrom, Write};
use std::os::unix::fs::OpenOptionsExt;

// The extension of a journal's name.
const ENDING: &str = ".record";

// The fewest digits of the number in a journal's name.
const DIGITS: usize = 10;

/// Why a journal can't be read, written or continued. Only this module gives a cause.
#[derive(Drop)]
pub enum JournalError {
    /// Memory ran out.
    Memory,
    /// Another cause.
    Cause(Cause),
}

/// The cause of a `JournalError`, in the words of a report.
#[derive(Clone, Copy)]
pub struct Cause {
    text: &'static str,
}

impl Cause {
    /// The words of the report.
    pub fn text(self) -> &'static str
        ensures { result.now ≡ self.text.now }
    {
        self.text
    }
}

// The error with this cause.
fn refused(text: &'static str) -> JournalError
    ensures { journal_error_text result ≡ Some text.now }
{
    JournalError::Cause(Cause { text })
}

impl From<AllocError> for JournalError {
    ghost use Rattle.std.specs.Prelude.{◌≡◌};
    ghost use Rattle.desk_host.specs.declared.folders.JournalError.TheVariants.{Memory};

    ghost from_gives = { λ _ it. it ≡ Memory };

    fn from(_error: AllocError) -> JournalError {
        JournalError::Memory
    }
}

impl<R> From<TailFault<R>> for JournalError {
    ghost use Rattle.std.specs.Prelude.{◌≡◌};
    ghost use Rattle.desk_host.specs.Operators.{tail_error_text, journal_error_text};

    ghost from_gives = { λ fault it. journal_error_text it ≡ tail_error_text fault };

    fn from(fault: TailFault<R>) -> JournalError {
        match fault {
            TailFault::OutOfMemory => JournalError::Memory,
            TailFault::Unread(_) | TailFault::Endless => {
                refused("its last record can't be read")
            }
            TailFault::NoRecord => refused("its last record is none of a desk"),
        }
    }
}

impl From<io::Error> for JournalError {
    ghost use Rattle.std.specs.Prelude.{◌≡◌};
    ghost use Rattle.std.specs.IoError.{error_kind};
    ghost use Rattle.desk_host.specs.Operators.{journal_error_by, journal_error_text};

    ghost from_gives = { λ error it. journal_error_text it ≡ journal_error_by (error_kind error) };

    fn from(error: io::Error) -> JournalError {
        match error.kind() {
            ErrorKind::OutOfMemory => JournalError::Memory,
            ErrorKind::NotFound => refused("no such folder"),
            ErrorKind::NotADirectory => refused("no folder"),
            ErrorKind::PermissionDenied => refused("no right to it"),
            ErrorKind::ReadOnlyFilesystem => refused(READ_ONLY),
            ErrorKind::StorageFull | ErrorKind::QuotaExceeded => refused("a full disk"),
            ErrorKind::AlreadyExists => refused(TAKEN),
            _ => refused("it can't be read or written"),
        }
    }
}

impl From<JournalError> for ErrorCode {
    ghost use Rattle.std.specs.Prelude.{◌≡◌};
    ghost use Rattle.desk_host.specs.Operators.{journal_failure};

    ghost from_gives = { λ error failure. failure ≡ journal_failure error };

    fn from(error: JournalError) -> ErrorCode {
        match error {
            JournalError::Memory => ErrorCode::Memory,
            JournalError::Cause(_) => ErrorCode::Write,
        }
    }
}

/// A journal in the folder of journals.
#[derive(Drop)]
pub struct JournalFile {
    /// The number in its name.
    pub number: u64,
    /// Its path.
    pub path: String,
    /// Its size in bytes.
    pub len: u64,
}

/// The number of a folder's last journal and its size in bytes; both are 0 if there is none.
pub fn extent_of(last: &Option<JournalFile>) -> (u64, u64)
    ensures { result ≡ spec.extent_of last.now }
{
    match last {
        Some(journal) => (journal.number, journal.len),
        None => (0, 0),
    }
}

/// The number of the journal after the one with `number`.
///
/// # Errors
///
/// 64 bits don't hold it.
pub fn next_number(number: u64) -> Result<u64, JournalError>
    ensures next { spec.failure_of result ≡ spec.next_number number }
    ensures cause { IfErr result (λ e. journal_error_text e ≡ Some (codes "no number is left")) }
{
    match number.checked_add(1) {
        Some(next) => Ok(next),
        None => Err(refused("no number is left")),
    }
}

/// Checks that a folder has no journals, by its `last` one: a desk in memory continues none.
///
/// # Errors
///
/// The folder has journals, of another desk.
pub fn check_empty(last: &Option<JournalFile>) -> Result<(), JournalError>
    ensures empty { spec.failure_of result ≡ spec.empty_or_write last.now }
    ensures cause { IfErr result (λ e. journal_error_text e ≡ Some (codes "records of another desk")) }
{
    match last {
        None => Ok(()),
        Some(_) => Err(refused("records of another desk")),
    }
}

/// Checks that the last journal of a folder still has the number and the size in bytes of `extent`; both are 0
/// for a folder that had no journal. If not, another desk writes there.
///
/// # Errors
///
/// It has another number or size, the folder can't be read, or memory runs out.
pub fn check_unchanged(
    host: LocalHost<'_>,
    folder: &str,
    extent: (u64, u64),
) -> Result<(), JournalError>
    ensures { IfErr result IsChangedOrError }
{
    check_same(extent_of(&last_journal(host, folder)?), extent)
}

// Checks that the number and the size of a folder's last journal, `found`, are those in `extent`.
fn check_same(found: (u64, u64), extent: (u64, u64)) -> Result<(), JournalError>
    ensures { IsSameExtent found extent result }
{
    if found.0 != extent.0 || found.1 != extent.1 {
        return Err(refused(IN_USE));
    }
    Ok(())
}

// The journal with the greatest number among the names of the folder that were read so far.
#[derive(Drop)]
struct Greatest {
    number: u64,
    path: String,
}

/// The last journal of a folder: the one with the greatest number in its name; `None` if the folder has none.
/// Files with other names are passed over. The contract says that its name is a journal's; `greater_journal`
/// says which of two is kept.
///
/// # Errors
///
/// The folder can't be read, the size of the journal can't be found out, or memory runs out.
#[tactic(auto, using(crate::proofs::FaultLemmas::memory_journal_error))]
pub fn last_journal(host: LocalHost<'_>, folder: &str) -> Result<Option<JournalFile>, JournalError>
    ensures found { IfOk result (λ found. IfSome found (IsJournalFileIn folder.now)) }
    ensures cause { IfErr result IsJournalError }
{
    let mut greatest = None;
    for entry in fs::read_dir(host.rt, folder)? {
        let entry = entry?;
        greatest = greater_journal(host.alloc(), folder, greatest, entry.file_name())?;
    }
    let Some(Greatest { number, path }) = greatest else {
        return Ok(None);
    };
    let len = fs::metadata(host.rt, &path)?.len();
    Ok(Some(JournalFile { number, path, len }))
}

// The journal with the greatest number: `greatest`, or the file `name` in `folder`, if it is a journal with a
// greater number. Fails if memory runs out.
fn greater_journal(
    alloc: Global,
    folder: &str,
    greatest: Option<Greatest>,
    name: &str,
) -> Result<Option<Greatest>, AllocError>
    ensures next { IfOk result (IsNextAt folder.now name.now greatest) }
    ensures in_folder { IfSome greatest (IsJournalIn folder.now)
        → IfOk result (λ now. IfSome now (IsJournalIn folder.now)) }
{
    let Some(number) = journal_number(name) else {
        return Ok(greatest);
    };
    if !is_above(&greatest, number) {
        return Ok(greatest);
    }
    let path = path_in(alloc, folder, name)?;
    Ok(Some(Greatest { number, path }))
}

// Whether a number is greater than that of the journal `greatest`; true if there is none yet.
fn is_above(greatest: &Option<Greatest>, number: u64) -> bool
    ensures { result ≡ spec.is_above greatest.now number }
{
    match greatest {
        Some(greatest) => greatest.number < number,
        None => true,
    }
}

// The number in the name of a journal, `NUMBER-SECOND.record`, where NUMBER has ten digits or more. `None`
// for any other name, and for a number of more than 64 bits.
fn journal_number(name: &str) -> Option<u64>
    ensures { IsNumberIn name.now result }
{
    number_in_stem(stem_of(name)?)
}

// The name of a journal without its extension; `None` if the name has another extension.
fn stem_of(name: &str) -> Option<&str>
    ensures { MatchOption result ((stem : List ℕ) → name.now ≢ stem ++ spec.ending)
        (λ stem. name.now ≡ stem.now ++ spec.ending) }
{
    name.strip_suffix(ENDING)
}

// The number of a journal, by its name without the extension, `NUMBER-SECOND`. `None` for any other name.
fn number_in_stem(stem: &str) -> Option<u64>
    ensures { result ≡ spec.number_in_stem stem.now }
{
    let (number, second) = stem.split_once('-')?;
    checked_number(number, second)
}

// The number of a journal, if `number` has ten digits or more, and `second` is made of digits; else `None`,
// also if the number doesn't fit 64 bits.
fn checked_number(number: &str, second: &str) -> Option<u64>
    ensures { result ≡ spec.checked_number number.now second.now }
{
    if number.len() < DIGITS || !are_digits(number) || !are_digits(second) {
        return None;
    }
    number_of(number)
}

// The number that the decimal digits `digits` write, if it fits 64 bits. The contract is silent about other
// text.
#[tactic(auto, using(crate::proofs::JournalLemmas::number_read, crate::proofs::JournalLemmas::number_unread))]
fn number_of(digits: &str) -> Option<u64>
    ensures { spec.are_digits digits.now ≡ true → result ≡ spec.number_of digits.now }
{
    u64::from_str_radix(digits, 10).ok()
}

// Whether a text is made of decimal digits, and not empty.
#[tactic(auto, unfolding(crate::specs::Operators::are_digits))]
fn are_digits(text: &str) -> bool
    ensures { result ≡ spec.are_digits text.now }
{
    !text.is_empty() && all_digits(text.as_bytes())
}

// Whether all bytes are decimal digits.
fn all_digits(bytes: &[u8]) -> bool
    ensures { result ≡ list_all is_ascii_digit bytes.now }
{
    bytes.iter().all(|byte| byte.is_ascii_digit())
}

// The path of the file `name` in `folder`. Fails if memory runs out.
#[tactic(auto, unfolding(crate::specs::Operators::path_in))]
fn path_in(alloc: Global, folder: &str, name: &str) -> Result<String, AllocError>
    ensures { IfOk result (λ path. string_bytes path ≡ spec.path_in folder.now name.now) }
{
    format!(in alloc; "{folder}/{name}")
}

/// Reads the last journal of a folder: what its whole entries say, and what follows them.
///
/// # Errors
///
/// It can't be read or continued (`cause_of_tail`), or memory runs out.
pub fn read_last(host: LocalHost<'_>, last: &JournalFile) -> Result<(Tail, TailEnd), JournalError>
    ensures continued { IfOk result (λ read. CanContinue last.now.number read.0 read.1) }
    ensures cause { IfErr result (IsNotContinued (BufReader File Global) last.now.number) }
{
    let (tail, ended) = tail_in(host.alloc(), File::open(host.rt, &last.path)?)?;
    check_tail(last.number, tail, ended)
}

// The journal's `tail` and what follows it (`ended`); or why the journal can't be continued, of which
// `number` is the number in the file name.
fn check_tail(number: u64, tail: Tail, ended: TailEnd) -> Result<(Tail, TailEnd), JournalError>
    ensures { ContinuesUnless (spec.cause_of_tail number tail.record ended) (tail, ended) result }
{
    match cause_of_tail(number, tail.record, ended) {
        Some(cause) => Err(refused(cause)),
        None => Ok((tail, ended)),
    }
}

// Why a journal can't be continued, or `None` if it can: by the `number` in its file name, the number in its
// first entry, if that is whole (`first_number`), and what follows its last whole entry (`ended`).
fn cause_of_tail(number: u64, first_number: Option<u64>, ended: TailEnd) -> Option<&'static str>
    ensures { option_map (λ cause. cause.now) result ≡ spec.cause_of_tail number first_number ended }
{
    match (first_number, ended) {
        (None, TailEnd::End) => Some("its last record is empty"),
        (_, TailEnd::Damaged) | (None, TailEnd::Short) => Some("its last record is damaged"),
        (Some(first_number), _) if first_number != number => Some(
            "its last record has another number",
        ),
        (Some(_), _) => None,
    }
}

// Reads the journal `file`, which is open: what its whole entries say, and what follows them.
fn tail_in<R: Read + Drop>(alloc: Global, file: R) -> Result<(Tail, TailEnd), JournalError>
    ensures ok { IfOk result (λ read. IsTail (R.remaining file) read.1 (tail_shown read.0)) }
    ensures cause { IfErr result (IsTailFault (BufReader R Global) (R.remaining file)) }
{
    let mut input = BufReader::new(alloc, file)?;
    Ok(read_tail(alloc, &mut input)?)
}

/// Cuts a journal off at `size` bytes, the end of its last whole entry. What followed is moved to a file
/// `NAME.rest` beside it, which replaces an older one. The journal is cut off only once that file is on the
/// disk.
///
/// # Errors
///
/// A file can't be read or written, or memory runs out. What followed is then still in one of the two files.
pub fn move_rest(host: LocalHost<'_>, journal: &JournalFile, size: u64) -> Result<(), JournalError>
    ensures { IfErr result IsJournalError }
{
    let mut file = OpenOptions::new()
        .read(true)
        .write(true)
        .open(host.rt, &journal.path)?;
    let mut rest = Vec::new(host.alloc());
    file.seek(SeekFrom::Start(size))?;
    file.read_to_end(&mut rest)?;
    write_rest(host, &journal.path, &rest)?;
    sync_folder(host.rt, &journal.path)?;
    file.set_len(size)?;
    Ok(file.sync_all()?)
}

// Writes `rest` to the file `NAME.rest` beside the journal at `path`, and syncs it. An older one is replaced.
#[tactic(auto, using(crate::proofs::FaultLemmas::memory_journal_error))]
fn write_rest(host: LocalHost<'_>, path: &str, rest: &[u8]) -> Result<(), JournalError>
    ensures { IfErr result IsJournalError }
{
    let path = format!(in host.alloc(); "{path}.rest")?;
    let mut file = OpenOptions::new()
        .write(true)
        .create(true)
        .truncate(true)
        .mode(OWNER_ALONE)
        .open(host.rt, &path)?;
    file.write_all(rest)?;
    Ok(file.sync_all()?)
}

/// Makes the file of the new journal with this number, under a temporary name in `folder`, and opens it for
/// writing. Only its owner can read and write it. A file that was left under this name is removed first.
///
/// # Errors
///
/// The file can't be made, or memory runs out.
#[tactic(auto, using(crate::proofs::FaultLemmas::memory_journal_error))]
pub(crate) fn make_part(
    host: LocalHost<'_>,
    folder: &str,
    number: u64,
) -> Result<File, JournalError>
    ensures { IfErr result IsJournalError }
{
    let part = part_of(host.alloc(), folder, number)?;
    let _ = fs::remove_file(host.rt, &part);
    let file = OpenOptions::new()
        .write(true)
        .create_new(true)
        .mode(OWNER_ALONE)
        .open(host.rt, &part)?;
    Ok(file)
}

/// Renames the file of the new journal with this number from its temporary to its final name, and syncs the
/// folder. The final name has the Unix second `second` at which the journal begins.
///
/// # Errors
///
/// The file can't be renamed, the folder can't be synced, or memory runs out. If only the folder can't be
/// synced, the file has its final name all the same.
#[tactic(auto, using(crate::proofs::FaultLemmas::memory_journal_error))]
pub fn name_part(
    host: LocalHost<'_>,
    folder: &str,
    number: u64,
    second: u64,
) -> Result<(), JournalError>
    ensures { IfErr result IsJournalError }
{
    let part = part_of(host.alloc(), folder, number)?;
    let name = name_of(host.alloc(), folder, number, second)?;
    fs::rename(host.rt, &part, &name)?;
    Ok(sync_folder(host.rt, &name)?)
}

// The final path of a journal, by its number and the Unix second at which it begins.
#[tactic(auto, unfolding(crate::specs::Operators::name_of))]
fn name_of(alloc: Global, folder: &str, number: u64, second: u64) -> Result<String, AllocError>
    ensures { IfOk result (λ path. string_bytes path ≡ spec.name_of folder.now number second) }
{
    format!(in alloc; "{folder}/{number:010}-{second}{ENDING}")
}

// The temporary path of the new journal with this number. It lacks the extension, so it is taken for no
// journal.
#[tactic(auto, unfolding(crate::specs::Operators::part_of))]
fn part_of(alloc: Global, folder: &str, number: u64) -> Result<String, AllocError>
    ensures { IfOk result (λ path. string_bytes path ≡ spec.part_of folder.now number) }
{
    format!(in alloc; "{folder}/.new-{number:010}")
}
