//! What the program asks the operating system about files before it opens one. No contract says what the
//! answers are: contracts of functions that use `HostFiles` say what follows from the answers.

ghost use Rattle.std.specs.Prelude.{◌≡◌, ◌∷◌, [], ℕ, Err, IfOk, IfSome, IsTrue, List, MatchResult, None, Option, string_bytes};
ghost use Rattle.std.specs.IoError.{error_kind};
ghost use Rattle.desk_program.specs.Serving.{Grows};
ghost use Rattle.host_files.specs.Access as spec;
ghost use Rattle.host_files.specs.Access.{Answers, HasBadChecksums, HasChecksumsAt, HasOtherOrderAt, IsFoundAs, by_ok, error_of};

use crate::state::Denial;
use db_file::{count_bad_checksums, has_other_order, takes_commit};
use sqlite::Unknown;
use sqlite_std_file::OpenError;
use std::alloc::Global;
use std::fs::{self, File, Metadata, OpenOptions};
use std::io::{self, ErrorKind, Read, Stderr, Stdin, Stdout};
use std::os::unix::fs::MetadataExt;

/// What the operating system says of what exists at a path.
#[derive(Clone, Copy)]
pub struct Found {
    /// Whether it is a regular file.
    pub is_file: bool,
    /// Its size in bytes.
    pub len: u64,
    /// Which file it is.
    pub identity: Identity,
}

/// The identity of a file: paths lead to the same file if their identities are equal.
#[derive(Clone, Copy)]
pub struct Identity {
    /// The device that it is on.
    pub device: u64,
    /// Its inode number on that device.
    pub inode: u64,
}

/// Queries about the files of a machine.
pub trait HostFiles {
    /// A file that is open for reading.
    type File: Read + Drop;

    /// What the queries return as long as the files don't change, if known.
    ghost answers: { Self → Option Answers } = { λ _. None };

    /// The paths of the files that were opened as SQLite opens them, in order, if known.
    ghost openings: { Self → Option (List (List ℕ)) } = { λ _. None };

    /// What a path leads to, once links are followed.
    ///
    /// # Errors
    ///
    /// The kind of the error: why nothing can be reached.
    fn find(&self, path: &str) -> Result<Found, ErrorKind>
        ensures { IfSome (answers self.now) (λ it. result ≡ it.found path.now) };

    /// What exists at a path itself, which may be a link.
    ///
    /// # Errors
    ///
    /// The kind of the error: why nothing can be reached.
    fn find_entry(&self, path: &str) -> Result<Found, ErrorKind>
        ensures { IfSome (answers self.now) (λ it. result ≡ it.entry path.now) };

    /// The path with all links resolved.
    ///
    /// # Errors
    ///
    /// The kind of the error: why nothing can be reached.
    fn real(&self, path: &str) -> Result<String, ErrorKind>
        ensures { IfSome (answers self.now) (λ it. by_ok string_bytes result ≡ it.real path.now) };

    /// Opens the file at a path for reading.
    ///
    /// # Errors
    ///
    /// The kind of the error: why it can't be opened.
    fn open(&self, path: &str) -> Result<Self::File, ErrorKind>
        ensures error { IfSome (answers self.now) (λ it. error_of result ≡ it.unread path.now) }
        ensures bytes { IfSome (answers self.now) (λ it.
            IfOk result (λ file. Self.File.remaining file ≡ it.bytes path.now)) };

    /// Why the file at a path can't be opened for reading and writing; `None` if it can.
    fn writing_error(&self, path: &str) -> Option<ErrorKind>
        ensures { IfSome (answers self.now) (λ it. result ≡ it.unwritten path.now) };

    /// Why a file can't be opened as SQLite opens it; `None` if it can, or if memory ran out. The file is
    /// closed again. A WAL is made beside it if it has none.
    fn opening_denial(&mut self, path: &str) -> Option<Denial>
        ensures answer { IfSome (answers self.old) (λ it. result ≡ it.unheld path.now) }
        ensures same { answers self.new ≡ answers self.old }
        ensures opens { Grows (openings self.old) (openings self.new) (path.now ∷ []) };

    /// How many pages of a database have wrong checksums. `None` if its pages have no checksums, or can't
    /// be read.
    fn bad_checksums(&self, path: &str) -> Option<u64>
        ensures answer { IfSome (answers self.now) (λ it. result ≡ it.bad_checksums path.now) }
        ensures counted { IfSome (answers self.now) (λ it. IfSome result (HasBadChecksums it path.now)) };

    /// Whether a database lists the tables and indexes of the schema, or the first few of them, in an order
    /// that the desk doesn't read: neither the canonical one nor that of a VACUUM. False if it can't be
    /// read.
    fn is_out_of_order(&self, path: &str) -> bool
        ensures answer { IfSome (answers self.now) (λ it. result ≡ it.in_other_order path.now) }
        ensures order { IfSome (answers self.now) (λ it. IsTrue result → HasOtherOrderAt it path.now) };

    /// Whether recovery applies a commit of the WAL of the file at a path; also true if that can't be found
    /// out. It applies none if the WAL was cut off within its first commit.
    fn takes_commit(&self, path: &str) -> bool
        ensures { IfSome (answers self.now) (λ it. result ≡ it.recovered path.now) };
}

/// The machine on which the program runs. Contracts know nothing of its files.
#[derive(Clone, Copy)]
pub struct LocalHost<'s> {
    /// The runtime, which calls to the operating system need.
    pub rt: &'s HostRuntime,
}

impl<'s> LocalHost<'s> {
    /// The machine of this runtime.
    pub fn new(rt: &'s HostRuntime) -> LocalHost<'s> {
        LocalHost { rt }
    }

    /// The allocator of the runtime.
    pub fn alloc(&self) -> Global {
        self.rt.alloc()
    }

    /// The standard input.
    pub fn input(&self) -> Stdin {
        self.rt.stdin()
    }

    /// The standard output.
    pub fn output(&self) -> Stdout {
        self.rt.stdout()
    }

    /// The standard error.
    pub fn errors(&self) -> Stderr {
        self.rt.stderr()
    }
}

// The answers of a `LocalHost` are not known (`answers` is None), so the trait's clauses promise nothing of
// these bodies.
impl HostFiles for LocalHost<'_> {
    type File = File;

    fn find(&self, path: &str) -> Result<Found, ErrorKind> {
        found_of(fs::metadata(self.rt, path))
    }

    fn find_entry(&self, path: &str) -> Result<Found, ErrorKind> {
        found_of(fs::symlink_metadata(self.rt, path))
    }

    fn real(&self, path: &str) -> Result<String, ErrorKind> {
        let real = fs::canonicalize(self.rt, path).map_err(|error| error.kind())?;
        Ok(real.into_string())
    }

    fn open(&self, path: &str) -> Result<File, ErrorKind> {
        File::open(self.rt, path).map_err(|error| error.kind())
    }

    fn writing_error(&self, path: &str) -> Option<ErrorKind> {
        let opened = OpenOptions::new()
            .read(true)
            .write(true)
            .open(self.rt, path);
        opened.err().map(|error| error.kind())
    }

    fn opening_denial(&mut self, path: &str) -> Option<Denial> {
        sqlite_std_file::open(self.rt, path, Unknown)
            .err()
            .and_then(denial_by)
    }

    fn bad_checksums(&self, path: &str) -> Option<u64> {
        let len = regular_len(self.find(path))?;
        count_bad_checksums(&mut self.open(path).ok()?, len).ok()?
    }

    fn is_out_of_order(&self, path: &str) -> bool {
        regular_len(self.find(path)).is_some()
            && self
                .open(path)
                .is_ok_and(|mut file| matches!(has_other_order(&mut file), Ok(true)))
    }

    fn takes_commit(&self, path: &str) -> bool {
        match sqlite_std_file::open(self.rt, path, Unknown) {
            Ok(mut files) => takes_commit(self.rt.alloc(), &mut files).unwrap_or(true),
            Err(_) => true,
        }
    }
}

// Why a file can't be opened, by the error of opening it as SQLite does. `None` if memory ran out, which says
// nothing about the file.
fn denial_by(error: OpenError) -> Option<Denial>
    ensures { result ≡ spec.denial_by error }
{
    match error {
        OpenError::Busy => Some(Denial::Busy),
        OpenError::HotJournal => Some(Denial::HotJournal),
        OpenError::Io(_) => Some(Denial::Unopened),
        OpenError::OutOfMemory => None,
    }
}

// What exists at a path, by the metadata of the operating system; or the kind of the error of asking for
// them.
fn found_of(found: io::Result<Metadata>) -> Result<Found, ErrorKind>
    ensures { MatchResult found (λ said. IfOk result (IsFoundAs said))
        (λ error. result ≡ Err (error_kind error)) }
{
    let found = found.map_err(|error| error.kind())?;
    Ok(Found {
        is_file: found.is_file(),
        len: found.len(),
        identity: Identity {
            device: found.dev(),
            inode: found.ino(),
        },
    })
}

// The length in bytes of what was found at a path, if it is a regular file. Nothing else is opened to be read:
// to open a pipe would wait for a writer.
fn regular_len(found: Result<Found, ErrorKind>) -> Option<u64>
    ensures { result ≡ spec.regular_len found }
{
    found
        .ok()
        .filter(|found| found.is_file)
        .map(|found| found.len)
}

/// Whether the pages of the database at a path have checksums; false if it can't be read, or names no valid
/// page size.
pub fn has_checksums<F: HostFiles>(files: &F, path: &str) -> bool
    ensures { IfSome (F.answers files.now) (λ it. IsTrue result → HasChecksumsAt it path.now) }
{
    regular_len(files.find(path)).is_some()
        && files.open(path).is_ok_and(|mut file| matches!(
            db_file::has_checksums(&mut file),
            Ok(true)
        ))
}
