//! What the clauses of this crate mean for files of the operating system.

ghost use Rattle.uss_desk.specs.FilesLeft.{IsPastOf, past_of};

use sqlite::{FileFrom, Start};
use sqlite_disk::Disk;

/// A file of the operating system has a past, as the clauses `guarded` of this crate assume: the bytes that
/// it had first, for which `start` stands, and the calls since then.
pub fn a_file_has_a_past<F: Start>(_start: &F)
    ensures { IsPastOf ⟦<FileFrom<F> as Disk>⟧ (past_of F.Start) }
{}
