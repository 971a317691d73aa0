//! Why a file can't be opened or made, in the words of a report. The cause is found by what is at the path
//! and by the bytes of the file; no table is read. The contracts of the reports say only that text, perhaps
//! none, is appended to `errors`.

ghost use Rattle.std.specs.Prelude.{◌≡◌, IfSome, option_map};
ghost use Rattle.desk_program.specs.Keeping.{bytes_written};
ghost use Rattle.host_files.specs.Access as spec;
ghost use Rattle.host_files.specs.{Access.HasBadChecksums, Access.IsCauseBy, Access.IsDenialText, Paths.OpensAtMost, Paths.steps_of, Naming.Reports, Naming.Free, Naming.TakesIfNone};

use crate::files::{HostFiles, LocalHost};
use crate::naming::{Folder, IN_USE, READ_ONLY, TAKEN, is_no_path};
use crate::probing::probe_access;
use crate::reporting::report_text;
use crate::state::{Denial, FileState, Missing, Start};
use std::alloc::Global;
use std::io::Write;

// The cause for a name that SQLite reads as a database in memory or as a URI.
const NO_PATH: &str = "a name that SQLite reads otherwise than as a path";

// The cause for a file of another format, and for what is no regular file.
const NO_DATABASE: &str = "no SQLite database";

/// Why no new file can be made at `path`: SQLite doesn't read it as a path, or something exists there, or may
/// exist there. `None` if the path is free.
pub fn new_cause<P: Folder>(folder: &mut P, path: &str) -> Option<&'static str>
    ensures { TakesIfNone (steps_of P.Folder folder.old folder.new) result (Free path.now) }
{
    if folder.is_free(path) {
        return None;
    }
    Some(taken_text(is_no_path(path)))
}

// Why a path isn't free: SQLite reads it otherwise than as a path (`is_no_path`), or something exists there.
fn taken_text(is_no_path: bool) -> &'static str
    ensures { result.now ≡ spec.taken_text is_no_path }
{
    if is_no_path { NO_PATH } else { TAKEN }
}

/// Reports to `errors` why SQLite refuses the file at `path`, by the `state` that `probe` found there. The
/// report calls the file `name`. If its pages may be damaged and some have wrong checksums, it says how many.
/// A failed write and running out of memory are ignored.
#[tactic(auto, using(crate::proofs::lemmas::Reporting::reports_nothing))]
pub fn report_refused_file<E: Write>(
    host: LocalHost<'_>,
    path: &str,
    name: &str,
    state: FileState,
    errors: &mut E,
)
    ensures { Reports (bytes_written E.Write errors.old errors.new) }
{
    match bad_checksum_count(&host, path, state) {
        Some(count) => report_pages(host.alloc(), name, count, errors),
        None => {
            let mut folder = host;
            let cause = cause_of(&mut folder, path, state);
            report_text(host.alloc(), name, cause, errors);
        }
    }
}

// How many pages of a file have wrong checksums, by the `state` that `probe` found. `None` if no page has,
// if that can't be found out, or if the file isn't refused for its pages.
fn bad_checksum_count<F: HostFiles>(files: &F, path: &str, state: FileState) -> Option<u64>
    ensures answer { IfSome (F.answers files.now) (λ it. result ≡ spec.bad_checksum_count it path.now state) }
    ensures counted { IfSome (F.answers files.now) (λ it. IfSome result (HasBadChecksums it path.now)) }
{
    if !may_be_damaged(state) {
        return None;
    }
    files.bad_checksums(path).filter(|count| *count != 0)
}

// Whether a file may be refused for damaged pages: it can be opened, and begins as a database.
fn may_be_damaged(state: FileState) -> bool
    ensures { result ≡ spec.may_be_damaged state }
{
    matches!(state, FileState::Filled(Ok(Start::Database)))
}

// Reports to `errors` that `count` pages of the file at `path` have wrong checksums. A failed write and
// running out of memory are ignored.
#[tactic(auto, using(crate::proofs::lemmas::Reporting::reports_nothing))]
fn report_pages<E: Write>(alloc: Global, path: &str, count: u64, errors: &mut E)
    ensures { Reports (bytes_written E.Write errors.old errors.new) }
{
    let reported = format!(in alloc;
        "{count} pages without their sums, as sqlite3 leaves them, or damaged"
    );
    if let Ok(text) = reported {
        report_text(alloc, path, &text, errors);
    }
}

// Why SQLite refuses the file at `path`, by the `state` that `probe` found. If the path is free, a file is
// made there and removed again, to learn why none can be made.
fn cause_of<P: Folder>(folder: &mut P, path: &str, state: FileState) -> &'static str
    ensures { IsCauseBy (spec.is_free state) (spec.refusal_text state) path.now
        (steps_of P.Folder folder.old folder.new) result.now }
{
    if !is_free(state) {
        return refusal_text(state);
    }
    folder.try_file(path).unwrap_or(refusal_text(state))
}

// Whether nothing is at the path of a file that the command makes. (For a command that makes no file, that is
// `Missing`.)
fn is_free(state: FileState) -> bool
    ensures { result ≡ spec.is_free state }
{
    matches!(state, FileState::Free)
}

/// Why the file at a path can't be opened, whatever its content, in the words of a report; `None` if it can,
/// or if memory ran out. The contract says only that the cause is one of the words for that.
pub fn access_cause(mut host: LocalHost<'_>, path: &str) -> Option<&'static str>
    ensures { IfSome result (λ cause. IsDenialText cause.now) }
{
    cause_at(&mut host, path)
}

/// What `access_cause` returns, for any `HostFiles`.
pub fn cause_at<F: HostFiles>(files: &mut F, path: &str) -> Option<&'static str>
    ensures answer { IfSome (F.answers files.old) (λ it.
        option_map (λ cause. cause.now) result ≡ spec.access_cause it path.now) }
    ensures text { IfSome result (λ cause. IsDenialText cause.now) }
    ensures opens { OpensAtMost F.HostFiles path.now files.old files.new }
{
    probe_access(files, path).map(denial_text)
}

// The cause for a file that SQLite refuses, by what `probe` found at its path.
fn refusal_text(state: FileState) -> &'static str
    ensures { result.now ≡ spec.refusal_text state }
{
    match state {
        FileState::NoPath => NO_PATH,
        FileState::Missing(missing) => missing_text(missing),
        FileState::DeadLink => "a link to no file",
        FileState::Free => "it can't be made",
        FileState::NotRegular => NO_DATABASE,
        FileState::Empty => "an empty file",
        FileState::Made(None) => "it can't be written: a full disk, or one that fails",
        FileState::Made(Some(denial)) | FileState::Filled(Err(denial)) => denial_text(denial),
        FileState::Filled(Ok(start)) => start_text(start),
    }
}

// The cause if nothing can be reached at a path.
fn missing_text(missing: Missing) -> &'static str
    ensures { result.now ≡ spec.missing_text missing }
{
    match missing {
        Missing::NoFile => "no such file",
        Missing::NoFolder => "no such folder",
        Missing::NoRight => "no right to reach it",
        Missing::Other => "it can't be reached",
    }
}

// The cause for a file that can't be opened, whatever its content.
fn denial_text(denial: Denial) -> &'static str
    ensures { result.now ≡ spec.denial_text denial }
{
    match denial {
        Denial::NoReading => "no right to read it",
        Denial::NoWriting => "no right to write it",
        Denial::ReadOnly => READ_ONLY,
        Denial::Busy => IN_USE,
        Denial::HotJournal => "a journal of SQLite beside it: open it with sqlite3 first",
        Denial::Unopened => "no right to its log or folder, a second name, or a disk that fails",
    }
}

// The cause for a file that can be opened and is refused, by how it begins.
fn start_text(start: Start) -> &'static str
    ensures { result.now ≡ spec.start_text start }
{
    match start {
        Start::Database => {
            "a damaged page, the log of another file, rows that break a key, or a disk that fails"
        }
        Start::Other => NO_DATABASE,
        Start::Unread => "it can't be read",
    }
}
