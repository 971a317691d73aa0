//! Finds the WAL of a database file and decides whether it has to be checked, before the file is opened.
//! Clauses on `answers` promise something only where the answers of the machine are known.

ghost use Rattle.std.specs.Prelude.{◌≡◌, IfErr, IfOk, IfSome};
ghost use Rattle.desk_cli.specs.declared.failure.ErrorCode.TheVariants.{Memory};
ghost use Rattle.desk_host.specs.FoundLogs as spec;
ghost use Rattle.desk_host.specs.FoundLogs.{IsLogAt, IsLogBeside};
ghost use Rattle.host_files.specs.Paths.{OpensAtMost};

use crate::damage::{may_be_damaged, may_have_commit};
use desk_cli::ErrorCode;
use host_files::files::{Found, HostFiles};
use host_files::naming::name_with;
use host_files::state::Denial;
use std::alloc::{AllocError, Global};
use std::io::ErrorKind;

/// Which WAL was found for a file.
#[derive(Drop)]
pub enum FoundLog<R> {
    /// A WAL that may have a commit, while the database file doesn't exist.
    Alone,
    /// No WAL that has to be checked: there is none, the file is empty, the WAL is short or can't be reached,
    /// or another program has the file open. Opening the file reports the latter two.
    Nothing,
    /// A WAL that may be damaged.
    Log(R),
}

/// Finds the WAL of the file at a path, and opens it if it has to be checked. The file may be opened once,
/// as SQLite does, to learn whether another program has it open.
///
/// # Errors
///
/// `Memory` if memory runs out.
pub fn find_log<F: HostFiles>(
    alloc: Global,
    files: &mut F,
    path: &str,
) -> Result<FoundLog<F::File>, ErrorCode>
    ensures answer { IfSome (F.answers files.old) (λ it. IfOk result (IsLogAt F.File.Read it path.now)) }
    ensures fault { IfErr result (λ f. f ≡ Memory) }
    ensures opens { OpensAtMost F.HostFiles path.now files.old files.new }
{
    if is_gone(files.find(path)) && has_commit(alloc, files, path)? {
        return Ok(FoundLog::Alone);
    }
    let log = log_beside(alloc, files, path)?;
    Ok(log.map_or(FoundLog::Nothing, FoundLog::Log))
}

/// Whether the file at a path may have a WAL with a commit: one that is long enough. Links in the path aren't
/// followed to find the WAL.
///
/// # Errors
///
/// `AllocError` if memory runs out.
pub fn has_commit<F: HostFiles>(alloc: Global, files: &F, path: &str) -> Result<bool, AllocError>
    ensures { IfOk result (λ has. IfSome (F.answers files.now) (λ it. has ≡ spec.has_commit it path.now)) }
{
    let name = name_with(alloc, path, "-wal")?;
    Ok(may_have_commit(size_at(files, &name)))
}

// Opens the WAL of the file at a path for reading. `None` if it needn't be checked, or can't be reached. If
// the path is a link, the WAL is beside the file to which it leads.
fn log_beside<F: HostFiles>(
    alloc: Global,
    files: &mut F,
    path: &str,
) -> Result<Option<F::File>, ErrorCode>
    ensures answer { IfSome (F.answers files.old) (λ it. IfOk result (IsLogBeside F.File.Read it path.now)) }
    ensures fault { IfErr result (λ f. f ≡ Memory) }
    ensures opens { OpensAtMost F.HostFiles path.now files.old files.new }
{
    let Some(real) = if_reachable(files.real(path))? else {
        return Ok(None);
    };
    let name = name_with(alloc, &real, "-wal")?;
    if !needs_check(files, path, &real, &name) {
        return Ok(None);
    }
    if_reachable(files.open(&name))
}

// Whether the WAL `log` of the file at `path` has to be checked: it is long enough to be damaged, the file
// isn't empty, and no other program has the file open. `real` is `path` with all links resolved. The file
// is opened last, since opening it makes a WAL.
fn needs_check<F: HostFiles>(files: &mut F, path: &str, real: &str, log: &str) -> bool
    ensures answer { IfSome (F.answers files.old) (λ it.
        result ≡ spec.needs_check it path.now real.now log.now) }
    ensures same { F.answers files.new ≡ F.answers files.old }
    ensures opens { OpensAtMost F.HostFiles path.now files.old files.new }
{
    if size_at(files, real) == 0 || !may_be_damaged(size_at(files, log)) {
        return false;
    }
    !is_held(files.opening_denial(path))
}

// The size in bytes of the regular file to which a path leads; 0 if it leads to anything else or can't be
// followed, for whatever reason.
fn size_at<F: HostFiles>(files: &F, path: &str) -> u64
    ensures { IfSome (F.answers files.now) (λ it. result ≡ spec.size_at it path.now) }
{
    size_of(files.find(path))
}

// Whether another program has a file open, by the reason `denial` why it can't be opened; false if it can.
fn is_held(denial: Option<Denial>) -> bool
    ensures { result ≡ spec.is_held denial }
{
    matches!(denial, Some(Denial::Busy))
}

// Whether it is certain that a path leads to nothing, by what was found there; false after any other error.
fn is_gone(found: Result<Found, ErrorKind>) -> bool
    ensures { result ≡ spec.is_gone found }
{
    matches!(found, Err(ErrorKind::NotFound))
}

// The size in bytes of what was found at a path, if it is a regular file; 0 for anything else.
fn size_of(found: Result<Found, ErrorKind>) -> u64
    ensures { result ≡ spec.size_of found }
{
    match found {
        Ok(found) if found.is_file => found.len,
        _ => 0,
    }
}

// The value `found`; `None` if it can't be reached, which opening the database file reports later. Fails with
// `Memory` if memory ran out.
fn if_reachable<T: Drop>(found: Result<T, ErrorKind>) -> Result<Option<T>, ErrorCode>
    ensures { result ≡ spec.if_reachable found }
{
    match found {
        Ok(it) => Ok(Some(it)),
        Err(ErrorKind::OutOfMemory) => Err(ErrorCode::Memory),
        Err(_) => Ok(None),
    }
}
