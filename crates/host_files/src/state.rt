//! What can be at the path of a database file, and how the answers of the operating system decide it. No
//! query is made here.

ghost use Rattle.std.specs.Prelude.{◌≡◌};
ghost use Rattle.host_files.specs.Access as spec;
ghost use Rattle.host_files.specs.Access.{MayAsk};

use crate::files::Found;
use std::io::ErrorKind;

// The first bytes of a database file.
const MAGIC: [u8; 16] = *b"SQLite format 3\0";

/// What is at the path of a database file.
#[derive(Clone, Copy, Debug, PartialEq, Eq)]
pub enum FileState {
    /// SQLite reads the name otherwise than as a path.
    NoPath,
    /// Nothing can be reached there.
    Missing(Missing),
    /// A link to nothing, for a command that makes the file.
    DeadLink,
    /// Nothing, for a command that makes the file.
    Free,
    /// Something else than a regular file.
    NotRegular,
    /// An empty file, for a command that needs a database.
    Empty,
    /// An empty file, for a command that makes the database in it: why it can't be opened, or `None` if it
    /// can.
    Made(Option<Denial>),
    /// A file that isn't empty: how it begins, or why it can't be opened.
    Filled(Result<Start, Denial>),
}

/// Why nothing can be reached at a path.
#[derive(Clone, Copy, Debug, PartialEq, Eq)]
pub enum Missing {
    /// There is no such file.
    NoFile,
    /// There is no such folder.
    NoFolder,
    /// A right to a folder on the way is missing.
    NoRight,
    /// Another error.
    Other,
}

/// Why a file can't be opened, whatever its content.
#[derive(Clone, Copy, Debug, PartialEq, Eq)]
pub enum Denial {
    /// It may not be read.
    NoReading,
    /// It may not be written.
    NoWriting,
    /// Its file system is read-only.
    ReadOnly,
    /// Another program has it open.
    Busy,
    /// SQLite left a rollback journal beside it.
    HotJournal,
    /// Another error of opening it as SQLite does.
    Unopened,
}

/// How a file begins.
#[derive(Clone, Copy, Debug, PartialEq, Eq)]
pub enum Start {
    /// With the first bytes of a database.
    Database,
    /// With other bytes, or too few.
    Other,
    /// Its first bytes can't be read.
    Unread,
}

/// What exists at a path, before the file is opened.
#[derive(Clone, Copy, Debug, PartialEq, Eq)]
pub enum Place {
    /// Nothing that can be reached.
    Nothing(Missing),
    /// Something else than a regular file.
    NotRegular,
    /// An empty file.
    Empty,
    /// A file that isn't empty.
    Filled,
}

/// What is asked of the operating system next, once it is known what exists at a path.
#[derive(Clone, Copy, Debug, PartialEq, Eq)]
pub enum Next {
    /// Nothing: this is the result.
    Nothing(FileState),
    /// Whether a link is there.
    Link,
    /// Whether the file can be opened.
    Access,
    /// Whether the file can be opened, and how it begins.
    Start,
}

// Why nothing can be reached at a path, by the kind of the error.
fn missing_by(kind: ErrorKind) -> Missing
    ensures { result ≡ spec.missing_by kind }
{
    match kind {
        ErrorKind::NotFound => Missing::NoFile,
        ErrorKind::NotADirectory => Missing::NoFolder,
        ErrorKind::PermissionDenied => Missing::NoRight,
        _ => Missing::Other,
    }
}

/// What exists at a path, by the answer `found` of the operating system: what it leads to, or why nothing
/// can be reached.
pub fn place_of(found: Result<Found, ErrorKind>) -> Place
    ensures { result ≡ spec.place_of found }
{
    match found {
        Err(kind) => Place::Nothing(missing_by(kind)),
        Ok(found) if !found.is_file => Place::NotRegular,
        Ok(found) if found.len == 0 => Place::Empty,
        Ok(_) => Place::Filled,
    }
}

/// What is asked next, once `place` exists at a path. `is_no_path`: SQLite reads the name otherwise than as
/// a path. `is_made`: the command makes a missing file. An empty file is then opened even if the name is no
/// path.
pub fn next_at(place: Place, is_no_path: bool, is_made: bool) -> Next
    ensures next { result ≡ spec.next_at place is_no_path is_made }
    ensures may { MayAsk is_no_path is_made result }
{
    match place {
        Place::Empty if is_made => Next::Access,
        _ if is_no_path => Next::Nothing(FileState::NoPath),
        Place::Nothing(Missing::NoFile) if is_made => Next::Link,
        Place::Nothing(missing) => Next::Nothing(FileState::Missing(missing)),
        Place::NotRegular => Next::Nothing(FileState::NotRegular),
        Place::Empty => Next::Nothing(FileState::Empty),
        Place::Filled => Next::Start,
    }
}

/// What is at a path where no file exists, for a command that makes the file: a link to nothing if
/// `is_link`, else nothing.
pub fn free_or_dead_link(is_link: bool) -> FileState
    ensures { result ≡ spec.free_or_dead_link is_link }
{
    if is_link {
        FileState::DeadLink
    } else {
        FileState::Free
    }
}

/// Why a file can't be opened, by the error `unread` of opening it for reading, if there was one. `None`
/// for an error other than a missing right: the next attempts to open the file decide.
pub fn reading_denial(unread: Option<ErrorKind>) -> Option<Denial>
    ensures { result ≡ spec.reading_denial unread }
{
    match unread {
        Some(ErrorKind::PermissionDenied) => Some(Denial::NoReading),
        _ => None,
    }
}

/// Why a file can't be opened, by the error `unwritten` of opening it for writing, if there was one. `None`
/// for an error that says nothing about rights: opening the file as SQLite does decides.
pub fn writing_denial(unwritten: Option<ErrorKind>) -> Option<Denial>
    ensures { result ≡ spec.writing_denial unwritten }
{
    match unwritten {
        Some(ErrorKind::PermissionDenied) => Some(Denial::NoWriting),
        Some(ErrorKind::ReadOnlyFilesystem) => Some(Denial::ReadOnly),
        _ => None,
    }
}

/// How a file begins, by its first 16 bytes `head`, or by the kind of the error of opening or reading it. A
/// file that is shorter is no database.
pub fn start_of(head: Result<[u8; 16], ErrorKind>) -> Start
    ensures { result ≡ spec.start_of head }
{
    match head {
        Ok(bytes) if bytes.as_slice() == MAGIC.as_slice() => Start::Database,
        Ok(_) | Err(ErrorKind::UnexpectedEof) => Start::Other,
        Err(_) => Start::Unread,
    }
}
