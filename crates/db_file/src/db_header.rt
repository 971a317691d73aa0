//! The header of a database file: how large its pages are, and whether they have checksums.

ghost use Rattle.std.specs.Prelude.{◌≡◌};
ghost use Rattle.sqlite_wal.specs.PageSize.{Names, size_in_file};
ghost use Rattle.db_file.specs.Orders as spec;

use sqlite_wal::PageSize;

/// How many bytes of the header are read, of 100: those with the page size and the reserved bytes.
pub const HEADER: usize = 24;

/// How many bytes the largest page has.
pub const MAX_PAGE: usize = 65_536;

/// How many bytes a page's checksum has.
pub const SUM: usize = 8;

// Where the header has the page size, and the number of bytes that are reserved at the end of each page (the
// SQLite file format, sections 1.3.2 and 1.3.4).
const SIZE_AT: usize = 16;

const RESERVED_AT: usize = 20;

/// The byte at index `at`, or 0 past the end.
pub fn byte(bytes: &[u8], at: usize) -> u8
    ensures { result ≡ spec.byte bytes.now at }
{
    bytes.get(at).copied().unwrap_or(0)
}

/// Whether the header of a database reserves eight bytes at the end of each page. Its pages are then taken to
/// have checksums.
pub fn has_checksum_space(header: &[u8]) -> bool
    ensures { result ≡ spec.has_checksum_space header.now }
{
    usize::from(byte(header, RESERVED_AT)) == SUM
}

/// The page size that the header of a database names, if SQLite allows it. It is a big-endian number of two
/// bytes; 1 stands for 65,536.
pub fn page_size_in(header: &[u8; HEADER]) -> Option<PageSize>
    ensures { Names result (size_in_file header.now) }
{
    let named = usize::from(header[SIZE_AT]) * 256 + usize::from(header[SIZE_AT + 1]);
    PageSize::new(if named == 1 { MAX_PAGE } else { named })
}
