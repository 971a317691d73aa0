//! Whether a WAL has a commit.

ghost use Rattle.std.specs.Prelude.{◌↔◌, IfSome, IsTrue};
ghost use Rattle.sqlite_wal.specs.Reads.{AreClean, OnlyReadsBoth};
ghost use Rattle.db_file.specs.Wal.{HasCommit};

use sqlite_disk::{Disk, Files};
use sqlite_wal::{probe_frames, probe_page_size};
use std::alloc::Global;

/// Whether recovery finds a commit in the WAL of the database in `files`. Nothing is written. `alloc` is for
/// the list of the pages found.
///
/// `None` if that can't be known: the files name no valid page size, one of them can't be read, or memory ran
/// out.
pub fn takes_commit<D: Disk>(alloc: Global, files: &mut Files<D>) -> Option<bool>
    requires log { IsTrue (D.Disk.is_usable files.old.log) }
    requires db { IsTrue (D.Disk.is_usable files.old.db) }
    ensures taken { IfSome result (λ taken. AreClean D.Disk files.new.log files.new.db
        → IsTrue taken ↔ HasCommit (D.Disk.seen files.old.log)) }
    ensures reads { OnlyReadsBoth D.Disk (files.old.log, files.old.db) (files.new.log, files.new.db) }
{
    let size = probe_page_size(files).ok()??;
    let pages = probe_frames(alloc, &mut files.log, size).ok()?;
    Some(!pages.is_empty())
}
