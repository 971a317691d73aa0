//! The header of a WAL.

ghost use Rattle.std.specs.Prelude.{◌≡◌, ◌↔◌, None, IfSome, IsTrue};
ghost use Rattle.sqlite_wal.specs.{Format.IsHeader, Format.IsSigned, Format.be32, PageSize.IsPageSize};

use crate::numbers::{checksum_at, number_at};
use sqlite_wal::{PageSize, checksum_of};

/// How many bytes the header of a WAL has.
pub const HEADER: usize = 32;

// The version of the format that SQLite reads.
const VERSION: u32 = 3_007_000;

// The last byte of the magic number if checksums are computed over big-endian words.
const BIG: u8 = 0x83;

/// The page size that the header `head` of a WAL names; `None` if it isn't a valid header, or names a size
/// that SQLite doesn't allow.
pub fn page_size_in(head: &[u8; 32]) -> Option<usize>
    ensures some { IfSome result (λ page. IsHeader page head.now) }
    ensures size { IfSome result IsPageSize }
    ensures none { result ≡ None → IsHeader (be32 head.now 8) head.now → ¬ IsPageSize (be32 head.now 8) }
{
    if number_at(head, 4) != VERSION || !has_magic_and_checksum(head) {
        return None;
    }
    PageSize::new(number_at(head, 8) as usize).map(PageSize::bytes)
}

// Whether `head` begins with a magic number of WALs and ends with the checksum of its first 24 bytes. The
// last byte of the magic number says over which words checksums are computed, little- or big-endian.
fn has_magic_and_checksum(head: &[u8; 32]) -> bool
    ensures { IsTrue result ↔ IsSigned head.now }
{
    if head[0] != 0x37 || head[1] != 0x7f || head[2] != 0x06 {
        return false;
    }
    if head[3] != 0x82 && head[3] != BIG {
        return false;
    }
    checksum_of(head[3] == BIG, (0, 0), &head[..24]) == checksum_at(head, 24)
}
