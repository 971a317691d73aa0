//! The frames of a WAL. The fields of a frame, by their offsets in bytes: at 0 the number of its page, at 4
//! how many pages the database has if the frame ends a commit (else 0), at 8 the salts of the WAL, at 16 its
//! checksum, and at 24 its page.

ghost use Rattle.std.specs.Prelude.{◌≡◌, ◌↔◌, ◌≤◌, if◌then◌else◌, length, IsTrue};
ghost use Rattle.sqlite_wal.specs.Format.{IsFrame};
ghost use Rattle.db_file.specs.Wal as spec;

use crate::numbers::{Checksum, checksum_at, number_at};
use sqlite_wal::checksum_of;

/// How many bytes of a frame come before its page.
pub const FRAME_HEADER: usize = 24;

/// Whether recovery accepts `frame`: it has the salts of the header `head`, names a page, and has the right
/// checksum. This continues `before`, the checksum of the frame before (or of the header).
pub fn is_frame_valid(head: &[u8; 32], before: Checksum, frame: &[u8]) -> bool
    requires { 24 ≤ length frame.now }
    ensures { IsTrue result ↔ IsFrame head.now before frame.now }
{
    if frame[8..16] != head[16..24] || number_at(frame, 0) == 0 {
        return false;
    }
    let big = head[3] == 0x83;
    let front = checksum_of(big, before, &frame[..8]);
    checksum_of(big, front, &frame[24..]) == checksum_at(frame, 16)
}

/// Whether `frame` has the salts of the header `head`. If not, it is left from before the WAL was last reset.
#[tactic(auto, unfolding(sqlite_wal::specs::Format::part))]
pub fn has_salts(head: &[u8; 32], frame: &[u8]) -> bool
    requires { 24 ≤ length frame.now }
    ensures { result ≡ spec.has_salts head.now frame.now }
{
    frame[8..16] == head[16..24]
}

/// How many commits `frame` ends: 1 if it is the last frame of one, else 0.
pub fn commits_ended(frame: &[u8]) -> u64
    requires { 24 ≤ length frame.now }
    ensures { result ≡ (if spec.ends_commit frame.now then 1 else 0) }
{
    if number_at(frame, 4) != 0 { 1 } else { 0 }
}
