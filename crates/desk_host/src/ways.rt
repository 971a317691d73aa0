//! How `check` and `copy` read a file: itself, or a scratch copy, if another program left wrong checksums or
//! a table order that the desk doesn't read, or the WAL is damaged. It is decided before the file is opened.

ghost use Rattle.std.specs.Prelude.{◌≡◌, false, IfSome};
ghost use Rattle.host_files.specs.Access as access;
ghost use Rattle.desk_host.specs.FoundLogs as spec;
ghost use Rattle.desk_host.specs.FoundLogs.{HasChanges, IsModeAt, MayBeRead};

use crate::logs::has_commit;
use host_files::files::{HostFiles, LocalHost};
use host_files::naming::is_no_path;
use std::alloc::Global;

/// How a database file is read.
#[derive(Clone, Copy, Debug, PartialEq, Eq)]
pub enum ReadMode {
    /// The file itself.
    Itself,
    /// A scratch copy of the file and of its WAL, which is damaged.
    Damaged,
    /// A repaired scratch copy, since so many pages of the file have wrong checksums.
    BadChecksums(u64),
    /// A repaired scratch copy, since the file lists its tables in an order that the desk doesn't read.
    OtherOrder,
}

impl ReadMode {
    /// Whether the scratch copy is repaired: its tables are put in canonical order, and its checksums, if it
    /// has any, are computed anew.
    pub fn is_mended(self) -> bool
        ensures { result ≡ spec.is_mended self }
    {
        matches!(self, ReadMode::BadChecksums(_) | ReadMode::OtherOrder)
    }

    /// How many pages with wrong checksums were copied untested. `None` if none were, or if the copy
    /// failed: `status` is the exit status of the command, 0 if it succeeded.
    pub fn untested_pages(self, status: u8) -> Option<u64>
        ensures { result ≡ spec.untested_pages self status }
    {
        match self {
            ReadMode::BadChecksums(count) if status == 0 => Some(count),
            _ => None,
        }
    }
}

/// How the file at a path is read, by whether its WAL is damaged (`is_damaged`). If a sound WAL may have a
/// commit, the file itself is read: the WAL may have newer versions of its pages. The file itself is also
/// read if SQLite wouldn't take the path for one (`:memory:` or `file:..`). The contract says which results
/// are possible; that of `mode_at` says which one the answers of the machine lead to.
pub fn read_mode(host: LocalHost<'_>, path: &str, is_damaged: bool) -> ReadMode
    ensures { MayBeRead is_damaged (access.is_no_path path.now) result }
{
    mode_at(host.alloc(), &host, path, is_damaged)
}

// What `read_mode` returns, for any `HostFiles`.
fn mode_at<F: HostFiles>(alloc: Global, files: &F, path: &str, is_damaged: bool) -> ReadMode
    ensures way { IfSome (F.answers files.now) (λ it. IsModeAt it path.now is_damaged result) }
    ensures may { MayBeRead is_damaged (access.is_no_path path.now) result }
{
    if is_damaged {
        return mode_for(true, None, false);
    }
    if is_no_path(path) || has_changes(alloc, files, path) {
        return ReadMode::Itself;
    }
    mode_for(
        false,
        files.bad_checksums(path),
        files.is_out_of_order(path),
    )
}

// How a file is read, by whether its WAL is damaged, how many pages have wrong checksums (`None` if that
// isn't known), and whether it lists its tables in an order that the desk doesn't read. The first of these
// faults that it has decides.
fn mode_for(is_damaged: bool, bad_checksums: Option<u64>, is_out_of_order: bool) -> ReadMode
    ensures way { result ≡ spec.mode_for is_damaged bad_checksums is_out_of_order }
    ensures may { MayBeRead is_damaged false result }
{
    if is_damaged {
        return ReadMode::Damaged;
    }
    match bad_checksums {
        Some(count) if count != 0 => ReadMode::BadChecksums(count),
        _ if is_out_of_order => ReadMode::OtherOrder,
        _ => ReadMode::Itself,
    }
}

// Whether recovery may apply a commit of the WAL of the file at a path; true if that can't be found out. The
// WAL is looked for beside the file to which links lead, and its size is tested before it is read.
fn has_changes<F: HostFiles>(alloc: Global, files: &F, path: &str) -> bool
    ensures { IfSome (F.answers files.now) (λ it. HasChanges it path.now result) }
{
    let Ok(real) = files.real(path) else {
        return true;
    };
    match has_commit(alloc, files, &real) {
        Ok(false) => false,
        _ => files.takes_commit(path),
    }
}
