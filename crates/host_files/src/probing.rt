//! Finds out why a file can't be opened. Each query is made once, and only if those before it leave the cause
//! open, since opening a file as SQLite does makes a WAL beside it.

ghost use Rattle.std.specs.Prelude.{◌≡◌, Err, IfOk, IfSome, MatchResult, Option, List, ℕ};
ghost use Rattle.std.specs.Io.KnownBytes.{Consumes};
ghost use Rattle.host_files.specs.Access as spec;
ghost use Rattle.host_files.specs.{Access.IsStartAt, Access.IsStateAt, Access.MayFind, Access.error_of, Paths.OpensAtMost};

use crate::files::{HostFiles, LocalHost};
use crate::naming::is_no_path;
use crate::state::{
    Denial, FileState, Next, Start, free_or_dead_link, next_at, place_of, reading_denial, start_of,
    writing_denial,
};
use std::io::{ErrorKind, Read};

/// Finds out what is at a path. `is_made`: the command makes a missing file; else it needs one that exists.
pub fn probe(mut host: LocalHost<'_>, path: &str, is_made: bool) -> FileState
    ensures { MayFind (spec.is_no_path path.now) is_made result }
{
    probe_at(&mut host, path, is_made)
}

// What `probe` returns, for any `HostFiles`.
fn probe_at<F: HostFiles>(files: &mut F, path: &str, is_made: bool) -> FileState
    ensures answer { IfSome (F.answers files.old) (λ it. IsStateAt it path.now is_made result) }
    ensures may { MayFind (spec.is_no_path path.now) is_made result }
    ensures opens { OpensAtMost F.HostFiles path.now files.old files.new }
{
    match next_at(place_of(files.find(path)), is_no_path(path), is_made) {
        Next::Nothing(state) => state,
        Next::Link => free_or_dead_link(files.find_entry(path).is_ok()),
        Next::Access => FileState::Made(probe_access(files, path)),
        Next::Start => FileState::Filled(probe_start(files, path)),
    }
}

/// Why the file at a path can't be opened, whatever its content; `None` if it can, or if memory ran out.
pub fn probe_access<F: HostFiles>(files: &mut F, path: &str) -> Option<Denial>
    ensures answer { IfSome (F.answers files.old) (λ it. result ≡ spec.access_denial it path.now) }
    ensures opens { OpensAtMost F.HostFiles path.now files.old files.new }
{
    let opened = files.open(path);
    denial_after_open(files, path, open_error(&opened))
}

// How the file at a path begins, or why it can't be opened.
fn probe_start<F: HostFiles>(files: &mut F, path: &str) -> Result<Start, Denial>
    ensures answer { IfSome (F.answers files.old) (λ it. IsStartAt it path.now result) }
    ensures opens { OpensAtMost F.HostFiles path.now files.old files.new }
{
    let opened = files.open(path);
    match denial_after_open(files, path, open_error(&opened)) {
        Some(denial) => Err(denial),
        None => Ok(start_of(first_bytes(opened))),
    }
}

// The kind of the error of opening a file, if that failed.
fn open_error<R>(opened: &Result<R, ErrorKind>) -> Option<ErrorKind>
    ensures { result ≡ error_of opened.now }
{
    opened.as_ref().err().copied()
}

// Why a file can't be opened; `None` if it can, or if memory ran out. Opening it for reading was tried
// before, and `unread` is the error if that failed. The first cause counts: that error, then that of
// opening the file for writing, then that of opening it as SQLite does.
fn denial_after_open<F: HostFiles>(
    files: &mut F,
    path: &str,
    unread: Option<ErrorKind>,
) -> Option<Denial>
    ensures answer { IfSome (F.answers files.old) (λ it. result ≡ spec.denial_after_open it path.now unread) }
    ensures opens { OpensAtMost F.HostFiles path.now files.old files.new }
{
    if let Some(denial) = reading_denial(unread) {
        return Some(denial);
    }
    if let Some(denial) = writing_denial(files.writing_error(path)) {
        return Some(denial);
    }
    files.opening_denial(path)
}

// The first 16 bytes of the file `opened`, or the kind of the error of opening or reading it. The file is
// closed.
fn first_bytes<R: Read + Drop>(opened: Result<R, ErrorKind>) -> Result<[u8; 16], ErrorKind>
    ensures { MatchResult opened (λ file. IfOk result (λ bytes. (rest : Option (List ℕ))
        × Consumes (R.remaining file) rest bytes)) (λ kind. result ≡ Err kind) }
{
    let mut file = opened?;
    let mut first = [0u8; 16];
    file.read_exact(&mut first).map_err(|error| error.kind())?;
    Ok(first)
}
