//! How a new file gets its name: it is written under a temporary name, and renamed once it is complete.

ghost use Rattle.std.specs.Prelude.{◌≡◌, ℕ, ◌++◌, [], List, Option, None, false, true, IfOk, IfSome, string_bytes};
ghost use Rattle.desk_wire.specs.Streams.{course};
ghost use Rattle.host_files.specs.Access as access;
ghost use Rattle.host_files.specs.Naming.{AreNames, ChangesOwn, Cleared, Follows, Free, HasFailedStep, IsUnnamed, Ordered, Removed, Renamed, Step, Synced, Takes, TakesAll, TakesIfNone, Tried, ScratchCopied, named_steps};
ghost use Rattle.host_files.specs.Naming as unmade;

use crate::files::{HostFiles, LocalHost};
use crate::pairs::{ScratchFault, write_scratch};
use crate::paths::is_at;
use db_file::{is_in_order, put_in_order};
use sqlite::Unknown;
use sqlite_std_file::OpenError;
use std::alloc::{AllocError, Global};
use std::fs::{self, File, OpenOptions, Permissions};
use std::io::{self, ErrorKind};
use std::os::unix::fs::{OpenOptionsExt, PermissionsExt};

/// The cause for a path at which something exists.
pub const TAKEN: &str = "it is there already";

/// The cause for a file that another program has locked.
pub const IN_USE: &str = "in use by another program";

/// The cause for a path on a read-only file system.
pub const READ_ONLY: &str = "a read-only file system";

/// The mode of a file that only its owner can read and write.
pub const OWNER_ALONE: u32 = 0o600;

/// Operations on the folders in which new files get their names. Each one is noted as a step, `Failed` if it
/// didn't succeed.
pub trait Folder {
    /// The operations so far, in order, if known.
    ghost steps: { Self → Option (List Step) } = { λ _. None };

    /// Whether nothing exists at a path, and SQLite reads it as a path.
    fn is_free(&mut self, path: &str) -> bool
        ensures { Takes (course (steps self.old) (steps self.new)) result (Free path.now) };

    /// Removes what an interrupted copy may have left: the file at the path `part`, and its WAL at the path
    /// `log`; either may be missing. `source` is the path of the file that is to be copied. Nothing is
    /// removed if one of the two is that file or no regular file, or if a program has `part` open. Returns
    /// why they may still exist; `None` if neither does.
    fn clear(&mut self, source: &str, part: &str, log: &str) -> Option<&'static str>
        ensures { TakesIfNone (course (steps self.old) (steps self.new)) result (Cleared part.now log.now) };

    /// Makes a file at a free path and removes it again. Returns why that failed, or `None`.
    fn try_file(&mut self, path: &str) -> Option<&'static str>
        ensures { TakesIfNone (course (steps self.old) (steps self.new)) result (Tried path.now) };

    /// Makes the scratch copy of `source` at the free path `scratch`: repaired if `is_mended`, else byte for
    /// byte together with its WAL. Returns why that failed, or `None`.
    fn scratch(&mut self, source: &str, scratch: &str, is_mended: bool) -> Option<ScratchFault>
        ensures { TakesIfNone (course (steps self.old) (steps self.new)) result
            (ScratchCopied source.now scratch.now is_mended) };

    /// Removes a file, and returns whether that succeeded.
    fn remove(&mut self, path: &str) -> bool
        ensures { Takes (course (steps self.old) (steps self.new)) result (Removed path.now) };

    /// Renames the file `from` to `to`, and returns whether that succeeded. Before that it asks the file
    /// system to let only the owner read and write the file; whether that was done isn't returned.
    fn rename(&mut self, from: &str, to: &str) -> bool
        ensures { Takes (course (steps self.old) (steps self.new)) result (Renamed from.now to.now) };

    /// Syncs the folder that a file is in, by the file's path. Returns whether that succeeded.
    fn sync_parent(&mut self, path: &str) -> bool
        ensures { Takes (course (steps self.old) (steps self.new)) result (Synced path.now) };

    /// Rewrites the first page of the database at a path in one commit, so that it lists the tables in
    /// canonical order. Returns whether that succeeded.
    fn order(&mut self, path: &str) -> bool
        ensures { Takes (course (steps self.old) (steps self.new)) result (Ordered path.now) };
}

// The steps of a `LocalHost` are not known (`steps` is None), so the trait's clauses promise nothing of these
// bodies: tests and a check of the sources look at what they ask of the system.
impl Folder for LocalHost<'_> {
    fn is_free(&mut self, path: &str) -> bool {
        !is_no_path(path) && matches!(fs::exists(self.rt, path), Ok(false))
    }

    fn clear(&mut self, source: &str, part: &str, log: &str) -> Option<&'static str> {
        if is_missing(self, part) && is_missing(self, log) {
            return None;
        }
        if is_left(self, source, part) && is_left(self, source, log) {
            clear_left(self.rt, part, log)
        } else {
            Some(TAKEN)
        }
    }

    fn try_file(&mut self, path: &str) -> Option<&'static str> {
        let made = OpenOptions::new()
            .write(true)
            .create_new(true)
            .open(self.rt, path);
        let removed = made.and_then(|_| fs::remove_file(self.rt, path));
        removed.err().map(|error| creation_error_text(error.kind()))
    }

    fn scratch(&mut self, source: &str, scratch: &str, is_mended: bool) -> Option<ScratchFault> {
        write_scratch(self.rt, source, scratch, is_mended).err()
    }

    fn remove(&mut self, path: &str) -> bool {
        fs::remove_file(self.rt, path).is_ok()
    }

    fn rename(&mut self, from: &str, to: &str) -> bool {
        // A file system without modes refuses this, and the copy is made all the same.
        let _ = fs::set_permissions(self.rt, from, Permissions::from_mode(OWNER_ALONE));
        fs::rename(self.rt, from, to).is_ok()
    }

    fn sync_parent(&mut self, path: &str) -> bool {
        sync_folder(self.rt, path).is_ok()
    }

    fn order(&mut self, path: &str) -> bool {
        is_in_order(put_in_order(self.rt, path, Unknown))
    }
}

/// Why a new file can't be made, in the words of a report, by the kind of the error.
pub fn creation_error_text(kind: ErrorKind) -> &'static str
    ensures { result.now ≡ unmade.creation_error_text kind }
{
    match kind {
        ErrorKind::AlreadyExists => TAKEN,
        ErrorKind::NotFound | ErrorKind::NotADirectory => "no such folder",
        ErrorKind::PermissionDenied => "no right to make it",
        ErrorKind::ReadOnlyFilesystem => READ_ONLY,
        ErrorKind::StorageFull | ErrorKind::QuotaExceeded => "a full disk",
        _ => "it can't be made",
    }
}

/// Whether SQLite reads a name otherwise than as a path: as a database in memory, or as a URI.
pub fn is_no_path(path: &str) -> bool
    ensures { result ≡ access.is_no_path path.now }
{
    path == ":memory:" || path.as_bytes().starts_with(b"file:".as_slice())
}

/// Whether it is certain that nothing exists at a path, not even a link; false if that can't be found out.
pub(crate) fn is_missing<F: HostFiles>(files: &F, path: &str) -> bool
    ensures { IfSome (F.answers files.now) (λ it. result ≡ access.is_missing it path.now) }
{
    matches!(files.find_entry(path), Err(ErrorKind::NotFound))
}

// Whether what is at `path` may be removed as left by an interrupted copy: nothing is there, or a regular
// file other than `source`. False if that can't be found out.
fn is_left<F: HostFiles>(files: &F, source: &str, path: &str) -> bool
    ensures { IfSome (F.answers files.now) (λ it. result ≡ access.is_left it source.now path.now) }
{
    match files.find_entry(path) {
        Ok(found) if found.is_file => !is_at(files, source, Some(found.identity)),
        Err(ErrorKind::NotFound) => true,
        _ => false,
    }
}

// Removes the file `part` and its WAL `log`, which are locked meanwhile; opening them makes one that is
// missing. The WAL goes first: if that fails, both stay. Returns why one of them may still exist, or `None`.
fn clear_left(rt: &HostRuntime, part: &str, log: &str) -> Option<&'static str> {
    match sqlite_std_file::open(rt, part, Unknown) {
        Ok(_held) => {
            let removed = fs::remove_file(rt, log).and_then(|()| fs::remove_file(rt, part));
            removed.err().map(|_| "it can't be removed")
        }
        Err(OpenError::Busy) => Some(IN_USE),
        Err(_) => Some(TAKEN),
    }
}

/// Makes an empty file at a path, if nothing exists there: only its owner can read and write it. Errors are
/// ignored, since opening the file meets them again. A name that SQLite takes for no path is left alone.
pub fn make_private(rt: &HostRuntime, path: &str) {
    if !is_no_path(path) {
        let _ = OpenOptions::new()
            .write(true)
            .create_new(true)
            .mode(OWNER_ALONE)
            .open(rt, path);
    }
}

/// Syncs the folder that a file is in, by the file's path. Links in the path are resolved first, so the
/// file has to exist.
///
/// # Errors
///
/// The error of the operating system.
pub fn sync_folder(rt: &HostRuntime, path: &str) -> io::Result<()> {
    let mut folder = fs::canonicalize(rt, path)?;
    folder.pop();
    File::open(rt, folder.as_str())?.sync_all()
}

/// The names of a new file and of its WAL: the final ones, and the temporary ones.
#[derive(Drop)]
pub struct NewFile {
    /// The final name of the file.
    pub to: String,
    /// The final name of its WAL.
    pub to_log: String,
    /// The temporary name of the file.
    pub part: String,
    /// The temporary name of its WAL.
    pub part_log: String,
}

/// The names of the new file whose final path is `to`.
///
/// # Errors
///
/// `AllocError` if memory runs out.
pub fn names_of(alloc: Global, to: &str) -> Result<NewFile, AllocError>
    ensures { IfOk result (AreNames to.now) }
{
    let part = name_with(alloc, to, ".part")?;
    Ok(NewFile {
        to: name_with(alloc, to, "")?,
        to_log: name_with(alloc, to, "-wal")?,
        part_log: name_with(alloc, &part, "-wal")?,
        part,
    })
}

/// `path` followed by `end`.
///
/// # Errors
///
/// `AllocError` if memory runs out.
pub fn name_with(alloc: Global, path: &str, end: &str) -> Result<String, AllocError>
    ensures { IfOk result (λ name. string_bytes name ≡ path.now ++ end.now) }
{
    format!(in alloc; "{path}{end}")
}

/// Gives a complete new file its final name: removes its WAL, which is empty, renames it, and syncs its
/// folder. It stops at the first that fails, and returns whether none did. If only the sync fails, the file
/// has its name all the same.
#[tactic(auto, using(crate::proofs::lemmas::Naming::fails_after))]
pub fn publish<N: Folder>(folder: &mut N, names: &NewFile) -> bool
    ensures named { (to : List ℕ) → AreNames to names.now → result ≡ true
        → Follows (course (N.steps folder.old) (N.steps folder.new)) (named_steps to (Synced to)) }
    ensures unnamed { (to : List ℕ) → AreNames to names.now → result ≡ false
        → IsUnnamed [] to (course (N.steps folder.old) (N.steps folder.new)) }
    ensures own { (to : List ℕ) → AreNames to names.now
        → TakesAll (ChangesOwn to) (course (N.steps folder.old) (N.steps folder.new)) }
    ensures failed { result ≡ false → HasFailedStep (course (N.steps folder.old) (N.steps folder.new)) }
{
    if !folder.remove(&names.part_log) {
        return false;
    }
    if !folder.rename(&names.part, &names.to) {
        return false;
    }
    folder.sync_parent(&names.to)
}
