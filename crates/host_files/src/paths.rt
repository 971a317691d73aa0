//! Whether the paths of a desk's open files still lead to these files.

ghost use Rattle.std.specs.Prelude.{◌≡◌, [], ◌∷◌, IfErr, IfOk, IfSome, List, None, Option, string_bytes, true, unwrap_or};
ghost use Rattle.desk_cli.specs.Lines.{file_of};
ghost use Rattle.desk_cli.specs.declared.failure.ErrorCode.TheVariants.{Memory};
ghost use Rattle.host_files.specs.Access as left;
ghost use Rattle.desk_program.specs.Serving.{Grows};
ghost use Rattle.host_files.specs.Paths as spec;
ghost use Rattle.host_files.specs.Paths.{File, IsUnheldAt, Log, Look};

use crate::files::{HostFiles, Identity, LocalHost};
use crate::naming::name_with;
use crate::reporting::report_text;
use desk_cli::{Database, ErrorCode};
use std::alloc::Global;
use std::io::ErrorKind;

/// The paths of a desk's database file and of its WAL, while both are open.
pub trait OpenPaths {
    /// The checks so far with their results, in order, if known.
    ghost looks: { Self → Option (List Look) } = { λ _. None };

    /// Notes which files the paths lead to: these are the open ones. It is called before the database is
    /// opened, and again afterwards, for a file that didn't exist before. A file that was noted stays
    /// noted.
    fn note_open_files(&mut self)
        ensures { looks self.new ≡ looks self.old };

    /// Whether the path of the database file still leads to the open file.
    fn leads_to_file(&mut self) -> bool
        ensures { Grows (looks self.old) (looks self.new) (File result ∷ []) };

    /// Whether the path of the WAL still leads to the open WAL.
    fn leads_to_log(&mut self) -> bool
        ensures { Grows (looks self.old) (looks self.new) (Log result ∷ []) };
}

/// The paths of a database in memory: it has no files that could be moved.
#[derive(Clone, Copy)]
pub struct NoPaths;

impl OpenPaths for NoPaths {
    fn note_open_files(&mut self) {}

    fn leads_to_file(&mut self) -> bool {
        true
    }

    fn leads_to_log(&mut self) -> bool {
        true
    }
}

/// The paths of a database file and of its WAL. If one no longer leads to the open file, that is reported on
/// the standard error, once.
#[derive(Drop)]
pub struct LocalOpenPaths<'r> {
    host: LocalHost<'r>,
    file: &'r str,
    log: String,
    // the open files, once they are noted
    held_file: Option<Identity>,
    held_log: Option<Identity>,
    is_reported: bool,
}

/// The paths of the files of a database, which aren't noted as open yet. The path of the file is empty if the
/// database is in memory.
///
/// # Errors
///
/// `Memory` if memory runs out.
pub fn paths_at<'r>(
    host: LocalHost<'r>,
    database: &'r Database,
) -> Result<LocalOpenPaths<'r>, ErrorCode>
    ensures unheld { IfOk result (λ paths. IsUnheldAt (unwrap_or (file_of database.entry.now) []) paths) }
    ensures fault { IfErr result (λ f. f ≡ Memory) }
{
    let file = database.path().unwrap_or("");
    Ok(LocalOpenPaths {
        host,
        file,
        log: log_beside(host.alloc(), &host, file)?,
        held_file: None,
        held_log: None,
        is_reported: false,
    })
}

// The path of the WAL of the file at the path `file`. If that is a link, the WAL is beside the file to
// which it leads; if it leads nowhere, beside the path itself.
fn log_beside<F: HostFiles>(alloc: Global, files: &F, file: &str) -> Result<String, ErrorCode>
    ensures log { IfOk result (λ log. IfSome (F.answers files.now) (λ it.
        string_bytes log ≡ spec.log_at it file.now)) }
    ensures fault { IfErr result (λ f. f ≡ Memory) }
{
    match files.real(file) {
        Ok(real) => Ok(name_with(alloc, &real, "-wal")?),
        Err(ErrorKind::OutOfMemory) => Err(ErrorCode::Memory),
        Err(_) => Ok(name_with(alloc, file, "-wal")?),
    }
}

impl LocalOpenPaths<'_> {
    // Reports `text` about the database file on the standard error, unless something was reported before. A
    // failed write and running out of memory are ignored.
    fn report_once(&mut self, text: &str)
        ensures reported { self.new.is_reported ≡ true }
        ensures same { (self.new.held_file ≡ self.old.held_file)
            × (self.new.held_log ≡ self.old.held_log) × (self.new.log ≡ self.old.log) }
    {
        if !self.is_reported {
            self.is_reported = true;
            report_text(self.host.alloc(), self.file, text, &mut self.host.errors());
        }
    }
}

impl OpenPaths for LocalOpenPaths<'_> {
    fn note_open_files(&mut self) {
        if self.held_file.is_none() {
            self.held_file = identity_at(&self.host, self.file);
        }
        if self.held_log.is_none() {
            self.held_log = identity_at(&self.host, &self.log);
        }
    }

    fn leads_to_file(&mut self) -> bool {
        let is_there = is_at(&self.host, self.file, self.held_file);
        if !is_there {
            self.report_once("it was moved or removed while the desk ran");
        }
        is_there
    }

    fn leads_to_log(&mut self) -> bool {
        let is_there = is_at(&self.host, &self.log, self.held_log);
        if !is_there {
            self.report_once("its log was moved or removed while the desk ran");
        }
        is_there
    }
}

// Whether a path leads to the file `held`; false if `held` is `None`, or nothing can be reached.
pub(crate) fn is_at<F: HostFiles>(files: &F, path: &str, held: Option<Identity>) -> bool
    ensures { IfSome (F.answers files.now) (λ it. result ≡ left.is_at it path.now held) }
{
    match (files.find(path), held) {
        (Ok(found), Some(held)) => is_same(found.identity, held),
        _ => false,
    }
}

// The identity of the file to which a path leads; `None` if nothing can be reached.
fn identity_at<F: HostFiles>(files: &F, path: &str) -> Option<Identity>
    ensures { IfSome (F.answers files.now) (λ it. result ≡ spec.identity_at it path.now) }
{
    files.find(path).ok().map(|found| found.identity)
}

// Whether two identities are those of the same file.
fn is_same(one: Identity, other: Identity) -> bool
    ensures { result ≡ left.is_same one other }
{
    one.device == other.device && one.inode == other.inode
}
