//! The checksums of a database's pages, as SQLite's cksumvfs has them: the last eight bytes of each page. The
//! desk updates them when it writes a page, and sqlite3 doesn't.

ghost use Rattle.std.specs.Prelude.{◌≡◌, ◌↔◌, ◌≤◌, drop, length, Some, take, IfOk, IfSome, IsTrue, OnOk};
ghost use Rattle.std.specs.Io.KnownBytes.{Appends};
ghost use Rattle.sqlite_wal.specs.PageSize.{bytes_of};
ghost use Rattle.db_file.specs.Orders.{HasChecksums, IsBadCount};
ghost use Rattle.db_file.specs.Orders as spec;

use crate::db_header::{HEADER, MAX_PAGE, SUM, has_checksum_space, page_size_in};
use sqlite_wal::{PageSize, checksum_of};
use std::io::{self, ErrorKind, Read, Write};

/// Whether the pages of a database have checksums; false if its header names no valid page size.
///
/// # Errors
///
/// The error of the read that failed.
pub fn has_checksums<R: Read>(file: &mut R) -> io::Result<bool>
    ensures { IfOk result (λ has. IfSome (R.remaining file.old) (λ bytes.
        IsTrue has ↔ HasChecksums bytes)) }
{
    let mut header = [0u8; HEADER];
    file.read_exact(&mut header)?;
    Ok(has_checksum_space(&header) && page_size_in(&header).is_some())
}

/// How many pages of a database of `len` bytes have a wrong checksum. `None` if its pages have no checksums,
/// or its header names no valid page size.
///
/// # Errors
///
/// The error of the read that failed.
pub fn count_bad_checksums<R: Read>(file: &mut R, len: u64) -> io::Result<Option<u64>>
    ensures { IfOk result (λ found. IfSome (R.remaining file.old) (λ bytes. IsBadCount len bytes found)) }
{
    let mut header = [0u8; HEADER];
    file.read_exact(&mut header)?;
    match page_size_in(&header) {
        Some(size) if has_checksum_space(&header) => {
            let mut whole = (&header[..]).chain(file);
            Ok(Some(count_bad_pages(&mut whole, size, len)?))
        }
        _ => Ok(None),
    }
}

/// Copies the whole pages of a file of `len` bytes to `output`, each with its checksum set. `size` is the
/// page size; bytes after the last whole page aren't copied.
///
/// # Errors
///
/// The error of the read or write that failed. What was written until then stays.
pub fn copy_checksummed<R: Read, W: Write>(
    file: &mut R,
    output: &mut W,
    size: PageSize,
    len: u64,
) -> io::Result<()>
    ensures { OnOk result (IfSome (R.remaining file.old) (λ bytes. length bytes ≡ len →
        Appends (W.contents output.old) (W.contents output.new)
        (spec.checksummed_file (bytes_of size) bytes))) }
{
    copy_pages(file, output, size, len / size.bytes() as u64)
}

// Copies the next `count` pages, of `size` bytes each, to `output`, each with its checksum set.
fn copy_pages<R: Read, W: Write>(
    file: &mut R,
    output: &mut W,
    size: PageSize,
    count: u64,
) -> io::Result<()>
    ensures { OnOk result (IfSome (R.remaining file.old) (λ bytes.
        Appends (W.contents output.old) (W.contents output.new)
        (spec.checksummed_pages (bytes_of size) count bytes))) }
{
    let mut room = [0u8; MAX_PAGE];
    let page = &mut room[..size.bytes()];
    for _ in 0..count {
        copy_page(file, output, page)?;
    }
    Ok(())
}

// Copies the next page to `output` with its checksum set. `page` is the buffer, as long as a page.
fn copy_page<R: Read, W: Write>(file: &mut R, output: &mut W, page: &mut [u8]) -> io::Result<()>
    requires { 8 ≤ length page.old }
    ensures length { length page.new ≡ length page.old }
    ensures left { OnOk result (IfSome (R.remaining file.old) (λ bytes.
        R.remaining file.new ≡ Some (drop (length page.old) bytes))) }
    ensures copied { OnOk result (IfSome (R.remaining file.old) (λ bytes.
        Appends (W.contents output.old) (W.contents output.new)
        (spec.with_checksum (take (length page.old) bytes)))) }
{
    file.read_exact(page)?;
    set_checksum(page);
    output.write_all(page)
}

/// How many of the whole pages of a file of `len` bytes have a wrong checksum. `size` is the page size.
///
/// # Errors
///
/// The error of the read that failed.
pub fn count_bad_pages<R: Read>(file: &mut R, size: PageSize, len: u64) -> io::Result<u64>
    ensures { IfOk result (λ bad_count. IfSome (R.remaining file.old) (λ bytes. length bytes ≡ len →
        bad_count ≡ spec.bad_checksums_in (bytes_of size) bytes)) }
{
    count_bad_in(file, size, len / size.bytes() as u64)
}

// How many of the next `count` pages, of `size` bytes each, have a wrong checksum.
fn count_bad_in<R: Read>(file: &mut R, size: PageSize, count: u64) -> io::Result<u64>
    ensures { IfOk result (λ bad_count. IfSome (R.remaining file.old) (λ bytes.
        bad_count ≡ spec.bad_checksums_in_pages (bytes_of size) count bytes)) }
{
    let mut room = [0u8; MAX_PAGE];
    let page = &mut room[..size.bytes()];
    let mut bad_count = 0;
    for _ in 0..count {
        bad_count += count_bad_page(file, page)?;
    }
    Ok(bad_count)
}

// Reads the next page; returns 1 if it has a wrong checksum, else 0. `page` is the buffer, as long as a page.
fn count_bad_page<R: Read>(file: &mut R, page: &mut [u8]) -> io::Result<u64>
    requires { 8 ≤ length page.old }
    ensures length { length page.new ≡ length page.old }
    ensures most { IfOk result (λ bad_count. bad_count ≤ 1) }
    ensures left { OnOk result (IfSome (R.remaining file.old) (λ bytes.
        R.remaining file.new ≡ Some (drop (length page.old) bytes))) }
    ensures counted { IfOk result (λ bad_count. IfSome (R.remaining file.old) (λ bytes.
        bad_count ≡ spec.bad_checksums_in_page (take (length page.old) bytes))) }
{
    file.read_exact(page)?;
    Ok(if has_own_checksum(page) { 0 } else { 1 })
}

// Whether a page ends with the checksum of the bytes before it.
fn has_own_checksum(page: &[u8]) -> bool
    requires { 8 ≤ length page.now }
    ensures { result ≡ spec.has_sum page.now }
{
    let (bytes, sum) = page.split_at(page.len() - SUM);
    sum == &sum_of(bytes)[..]
}

/// Sets the checksum of a page, its last eight bytes, to that of the bytes before.
pub fn set_checksum(page: &mut [u8])
    requires { 8 ≤ length page.old }
    ensures { page.new ≡ spec.with_checksum page.old }
{
    let (bytes, sum) = page.split_at_mut(page.len() - SUM);
    sum.copy_from_slice(&sum_of(bytes));
}

// The checksum of `bytes` as a page has it: two little-endian numbers of 32 bits.
#[tactic(auto, unfolding(crate::specs::Orders::sum_of))]
fn sum_of(bytes: &[u8]) -> [u8; SUM]
    ensures { result ≡ spec.sum_of bytes.now }
{
    let (first, second) = checksum_of(false, (0, 0), bytes);
    let mut sum = [0u8; SUM];
    sum[..4].copy_from_slice(&first.to_le_bytes());
    sum[4..].copy_from_slice(&second.to_le_bytes());
    sum
}

/// Copies all bytes of `file` to `output`.
///
/// # Errors
///
/// The error of the read or write that failed; `FileTooLarge` after 2^64 - 1 reads. What was written until
/// then stays.
pub fn copy_bytes<R: Read, W: Write>(file: &mut R, output: &mut W) -> io::Result<()>
    ensures { OnOk result (IfSome (R.remaining file.old)
        (Appends (W.contents output.old) (W.contents output.new))) }
{
    let mut room = [0u8; MAX_PAGE];
    for _ in 0..u64::MAX {
        let count = file.read(&mut room)?;
        if count == 0 {
            return Ok(());
        }
        output.write_all(&room[..count])?;
    }
    Err(io::Error::from(ErrorKind::FileTooLarge))
}
