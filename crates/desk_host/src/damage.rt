//! Checks the WAL of a database file before the file is opened.

ghost use Rattle.std.specs.Prelude.{◌≡◌, ℕ, false, IfErr, IfNone, IfOk, IfSome, List, Ok, length, string_bytes};
ghost use Rattle.desk_cli.specs.Lines.{file_of};
ghost use Rattle.desk_program.specs.Keeping.{bytes_written};
ghost use Rattle.db_file.specs.Wal.{HasCommit, IsDamaged};
ghost use Rattle.desk_host.specs.FoundLogs as spec;
ghost use Rattle.desk_host.specs.FoundLogs.{HasLogCheckCause, IsCheckReported, IsFoundChecked, IsLogCheckReported, IsLogCheckOf};
ghost use Rattle.host_files.specs.{Paths.OpensAtMost, Naming.IsWrittenUpTo};

use crate::logs::{FoundLog, find_log};
use db_file::{WalError, WalState, check_wal, commits_are_long, damaged_is_long};
use desk_cli::{Database, ErrorCode};
use host_files::files::{HostFiles, LocalHost};
use host_files::reporting::{report_line, report_text};
use io_ends::WriteError;
use std::alloc::{AllocError, Global};
use std::io::{Read, Write};

// The fewest bytes of a damaged WAL: its header, and two frames with pages of 512 bytes.
const LEAST_DAMAGED: u64 = 1_104;

// The fewest bytes of a WAL with a commit: its header, and one such frame.
const LEAST_WITH_A_COMMIT: u64 = 568;

// The cause for a WAL whose database file doesn't exist.
const LOG_ALONE: &str = "its log is there without it: was it moved or removed while a desk ran?";

/// The result of the check of a WAL, whose damage is reported to a writer of type `E`.
#[derive_where(Clone, Copy, Debug, PartialEq, Eq)]
pub struct LogCheck<E> {
    /// Whether the command goes on with the database file.
    pub is_admitted: bool,
    /// Whether the WAL is damaged.
    pub is_damaged: bool,
    /// Where the write of the report broke off, if it did.
    pub cut: Option<WriteError<E>>,
}

/// Why a WAL was not checked.
#[derive(Clone, Copy, Debug, PartialEq, Eq)]
pub enum LogCheckError {
    /// Memory ran out for the line that reports its damage.
    OutOfMemory,
    /// It can't be read.
    Unread(WalError),
}

impl From<AllocError> for LogCheckError {
    ghost use Rattle.std.specs.Prelude.{◌≡◌};
    ghost use Rattle.desk_host.specs.declared.damage.LogCheckError.TheVariants.{OutOfMemory};

    ghost from_gives = { λ _ it. it ≡ OutOfMemory };

    fn from(_error: AllocError) -> LogCheckError {
        LogCheckError::OutOfMemory
    }
}

/// Checks the WAL of a database before its file is opened, and returns whether the WAL is damaged. The file
/// is refused if its WAL is damaged, or exists without the file; both are reported on `errors`. A command
/// that only copies the file (`is_copied`) goes on with what can be read of a damaged WAL. If another program
/// has the file open, nothing is checked: opening it reports that. Nor is anything checked if the database is
/// in memory. The contract says which result goes with which report; that of `check_log` says what they have
/// to do with the bytes of the WAL.
///
/// # Errors
///
/// `DamagedLog` if the WAL is damaged and the file isn't copied; `Memory` if memory runs out; `Store` if
/// the WAL can't be read, which isn't reported, or exists without its file.
pub fn check_before<E: Write>(
    host: LocalHost<'_>,
    database: &Database,
    is_copied: bool,
    errors: &mut E,
) -> Result<bool, ErrorCode>
    ensures file { IfSome (file_of database.now) (λ path.
        IsCheckReported is_copied path result (bytes_written E.Write errors.old errors.new)) }
    ensures none { IfNone (file_of database.now)
        ((result ≡ Ok false) × (E.contents errors.new ≡ E.contents errors.old)) }
{
    match database.path() {
        Some(path) => {
            let mut files = host;
            check_beside(host.alloc(), &mut files, path, is_copied, errors)
        }
        None => Ok(false),
    }
}

// What `check_before` does for the file at a path, for any `HostFiles`.
fn check_beside<F: HostFiles, E: Write>(
    alloc: Global,
    files: &mut F,
    path: &str,
    is_copied: bool,
    errors: &mut E,
) -> Result<bool, ErrorCode>
    ensures begun { IsCheckReported is_copied path.now result (bytes_written E.Write errors.old errors.new) }
    ensures opens { OpensAtMost F.HostFiles path.now files.old files.new }
{
    let found = find_log(alloc, files, path)?;
    check_found(alloc, path, is_copied, found, errors)
}

// Checks the WAL `found` of the file at a path, as `check_before` does: refuses the file if the WAL exists
// without it, or is damaged and the file isn't copied (`is_copied`); else returns whether the WAL is damaged.
// Damage, and a WAL without its file, are reported to `errors`.
#[tactic(auto, using(crate::proofs::LossLemmas::begins))]
fn check_found<R: Read + Drop, E: Write>(
    alloc: Global,
    path: &str,
    is_copied: bool,
    found: FoundLog<R>,
    errors: &mut E,
) -> Result<bool, ErrorCode>
    ensures judged { IsFoundChecked R.Read E.Write is_copied path.now found result errors.old errors.new }
    ensures begun { IsCheckReported is_copied path.now result (bytes_written E.Write errors.old errors.new) }
{
    match found {
        FoundLog::Alone => {
            report_text(alloc, path, LOG_ALONE, errors);
            Err(ErrorCode::Store)
        }
        FoundLog::Nothing => Ok(false),
        FoundLog::Log(mut log) => {
            admission_of(check_log(alloc, path, is_copied, &mut log, errors))
        }
    }
}

// Whether the WAL of an admitted file is damaged, by the result `look` of its check; the error code if the
// file is refused.
fn admission_of<E>(look: Result<LogCheck<E>, LogCheckError>) -> Result<bool, ErrorCode>
    ensures { result ≡ spec.admission_of look }
{
    match look {
        Ok(look) if look.is_admitted => Ok(look.is_damaged),
        Ok(_) => Err(ErrorCode::DamagedLog),
        Err(LogCheckError::OutOfMemory) => Err(ErrorCode::Memory),
        Err(LogCheckError::Unread(_)) => Err(ErrorCode::Store),
    }
}

/// Checks the WAL `log` of the file at a path. If it is damaged, that is reported on `errors`, and the file
/// is admitted only if it is copied (`is_copied`). A failed write doesn't change that: the result says
/// where it broke off.
///
/// # Errors
///
/// The WAL can't be read, or memory ran out for the report. Nothing is then reported.
#[tactic(auto, using(crate::proofs::LossLemmas::loss_reported))]
pub fn check_log<R: Read, E: Write>(
    alloc: Global,
    path: &str,
    is_copied: bool,
    log: &mut R,
    errors: &mut E,
) -> Result<LogCheck<E>, LogCheckError>
    ensures looked { IfSome (R.remaining log.old) (λ bytes. IsLogCheckOf is_copied path.now bytes result
        (bytes_written E.Write errors.old errors.new)) }
    ensures cause { IfErr result (HasLogCheckCause (R.remaining log.old)) }
    ensures reported { IsLogCheckReported is_copied path.now result
        (bytes_written E.Write errors.old errors.new) }
{
    match check_wal(log) {
        Ok(WalState::Sound) => Ok(LogCheck {
            is_admitted: true,
            is_damaged: false,
            cut: None,
        }),
        Ok(WalState::Damaged { frame, commits }) => {
            let cut = report_damage(alloc, path, frame, commits, errors)?;
            Ok(LogCheck {
                is_admitted: is_copied,
                is_damaged: true,
                cut,
            })
        }
        Err(fault) => Err(LogCheckError::Unread(fault)),
    }
}

// Reports to `errors` that the WAL of the file at a path is damaged at `frame`, and `commits` commits are
// lost. Returns where the write broke off, or `None`. Fails, unreported, if memory runs out.
fn report_damage<E: Write>(
    alloc: Global,
    path: &str,
    frame: u64,
    commits: u64,
    errors: &mut E,
) -> Result<Option<WriteError<E>>, AllocError>
    ensures reported { IfOk result (λ cut. IsWrittenUpTo (spec.damage_line path.now frame commits) cut
        (bytes_written E.Write errors.old errors.new)) }
    ensures unreported { IfErr result (λ _. E.contents errors.new ≡ E.contents errors.old) }
{
    let line = damage_line(alloc, path, frame, commits)?;
    Ok(report_line(&line, errors))
}

// The line that reports damage of the WAL of the file at `path`: from which frame on, counted from 0, and how
// many commits are lost. Fails if memory runs out.
#[tactic(auto, unfolding(crate::specs::FoundLogs::damage_line))]
fn damage_line(alloc: Global, path: &str, frame: u64, commits: u64) -> Result<String, AllocError>
    ensures { IfOk result (λ line. string_bytes line ≡ spec.damage_line path.now frame commits) }
{
    format!(in alloc;
        "uss_desk: {path}: its log is damaged at frame {frame}: \
         {commits} commits from there on can't be read\n"
    )
}

/// Whether a WAL of `size` bytes is long enough to have a commit. If not, it has none.
pub(crate) fn may_have_commit(size: u64) -> bool
    ensures exact { result ≡ spec.may_have_commit size }
    ensures none { result ≡ false → (log : List ℕ) → length log ≡ size → ¬ HasCommit log }
{
    commits_are_long();
    size >= LEAST_WITH_A_COMMIT
}

/// Whether a WAL of `size` bytes is long enough to be damaged. If not, it isn't.
pub(crate) fn may_be_damaged(size: u64) -> bool
    ensures exact { result ≡ spec.may_be_damaged size }
    ensures none { result ≡ false → (log : List ℕ) → length log ≡ size
        → (frame commits : ℕ) → ¬ IsDamaged log frame commits }
{
    damaged_is_long();
    size >= LEAST_DAMAGED
}
