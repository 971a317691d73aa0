//! The order in which a database file lists its tables and indexes: that of the rows of the schema table,
//! which are on the first page. The canonical order is that in which the desk makes them, the packed order
//! that in which SQLite's VACUUM leaves them. The first page has the file's header first. Its page header
//! follows at byte 100, and the slots at byte 108: each points with two bytes to the cell of a row. Places and
//! slots are counted from 0.

ghost use Rattle.std.specs.Prelude.{◌≡◌, ◌↔◌, ◌≤◌, ◌<◌, ◌++◌, length, take, is_some, IfOk, IfSome, IsTrue, None, OnOk, Some, false, true};
ghost use Rattle.std.specs.{Fmt.option_append, Io.KnownBytes.Appends};
ghost use Rattle.sqlite_wal.specs.PageSize.{IsPageSize, bytes_of, size_in_file};
ghost use Rattle.db_file.specs.Orders.{has_checksum_space as has_checksums, HasOtherOrder, IsFirstPage};
ghost use Rattle.db_file.specs.Orders as spec;

use crate::db_header::{HEADER, MAX_PAGE, byte, has_checksum_space, page_size_in};
use crate::sums::{copy_bytes, copy_checksummed};
use sqlite_wal::PageSize;
use std::io::{self, ErrorKind, Read, Write};

// The type of a page that is a leaf of a table's tree.
const LEAF: u8 = 13;

// How many tables and indexes the schema has.
const SCHEMA_ENTRIES: u16 = 14;

/// The message about a file whose tables and indexes are in an order that the desk doesn't read.
pub fn order_text() -> &'static str
    ensures { result.now ≡ spec.order_text }
{
    "its tables stand in another order than a desk's: copy makes a desk of it"
}

// The name of the table or index at `place` of the canonical order; empty past the last.
fn own_name(place: u16) -> &'static [u8]
    ensures { result.now ≡ spec.name_at false place }
{
    let name = match place {
        0 => "operator",
        1 => "sqlite_autoindex_operator_1",
        2 => "plan",
        3 => "sqlite_autoindex_plan_1",
        4 => "volume",
        5 => "sqlite_autoindex_volume_1",
        6 => "span",
        7 => "sqlite_autoindex_span_1",
        8 => "span_first",
        9 => "volume2",
        10 => "sqlite_autoindex_volume2_1",
        11 => "span2",
        12 => "sqlite_autoindex_span2_1",
        13 => "span2_first",
        _ => "",
    };
    name.as_bytes()
}

// The place in the canonical order of what a packed file has at `place`. All its tables, with the indexes
// that SQLite makes for their keys, precede the other indexes.
fn packed_place(place: u16) -> u16
    ensures { result ≡ spec.packed_place place }
{
    match place {
        8..=11 => place + 1,
        12 => 8,
        _ => place,
    }
}

// The name at `place` of the packed order if `is_packed`, else of the canonical one.
fn name_at(is_packed: bool, place: u16) -> &'static [u8]
    ensures { result.now ≡ spec.name_at is_packed place }
{
    own_name(if is_packed {
        packed_place(place)
    } else {
        place
    })
}

// How many rows a first page has, by bytes 103 and 104: the number of cells in its page header.
fn count_of(page: &[u8]) -> u16
    ensures { result ≡ spec.count page.now }
{
    u16::from(byte(page, 103)) * 256 + u16::from(byte(page, 104))
}

// Where the cell of the row at `slot` begins: the two bytes of the slot are its index in the page.
fn cell(page: &[u8], slot: u16) -> usize
    ensures value { result ≡ spec.cell page.now slot }
    ensures small { result < 65536 }
{
    let at = 108 + usize::from(slot) * 2;
    usize::from(byte(page, at)) * 256 + usize::from(byte(page, at + 1))
}

// Whether the size of the row at `slot`, with which its cell begins, is stored in two bytes or more.
fn is_long(page: &[u8], slot: u16) -> bool
    ensures { result ≡ spec.is_long page.now slot }
{
    128 <= byte(page, cell(page, slot))
}

// Where the rowid of the row at `slot` is: after the size, in the cell.
fn rowid_at(page: &[u8], slot: u16) -> usize
    ensures value { result ≡ spec.rowid_at page.now slot }
    ensures small { result < 65538 }
{
    cell(page, slot) + if is_long(page, slot) { 2 } else { 1 }
}

// How many bytes the row at `slot` has after its rowid, by the varint of one or two bytes that its cell
// begins with.
fn size(page: &[u8], slot: u16) -> usize
    ensures value { result ≡ spec.size page.now slot }
    ensures small { result < 65536 }
{
    let first = usize::from(byte(page, cell(page, slot)));
    if is_long(page, slot) {
        (first - 128) * 128 + usize::from(byte(page, cell(page, slot) + 1))
    } else {
        first
    }
}

// Whether the row at `slot` lies within the page, its size has one byte or two, and its rowid has one. Only
// such rows are reordered. If the size has one byte, the byte at `cell + 2` is the first of the row.
fn is_plain(page: &[u8], slot: u16) -> bool
    ensures { result ≡ spec.is_plain page.now slot }
{
    let cell = cell(page, slot);
    byte(page, cell + 1) < 128
        && byte(page, cell + 2) < 128
        && rowid_at(page, slot) + 1 + size(page, slot) <= page.len()
}

// The bytes of the row at `slot` after its rowid: the lengths of its values, then the values.
fn row(page: &[u8], slot: u16) -> &[u8]
    requires { spec.is_plain page.now slot ≡ true }
    ensures { result.now ≡ spec.row page.now slot }
{
    let start = rowid_at(page, slot) + 1;
    &page[start..start + size(page, slot)]
}

// How many bytes a text has, by its serial type `code` (the SQLite file format, section 2.1).
fn text_len(code: u8) -> usize
    ensures { result ≡ spec.text_len code }
{
    usize::from(code.saturating_sub(13)) / 2
}

// Whether a row of the schema table has `name` as its second column. Byte 0 of a row says where the values
// begin; bytes 1 and 2 are the serial types of the first two columns, `type` and `name`, both texts.
fn has_name(row: &[u8], name: &[u8]) -> bool
    ensures { result ≡ spec.has_name row.now name.now }
{
    let from = usize::from(byte(row, 0)) + text_len(byte(row, 1));
    let len = text_len(byte(row, 2));
    from + len <= row.len() && row[from..from + len] == name[..]
}

// Whether the row at `slot` is that of the table or index `name`.
fn is_named(page: &[u8], slot: u16, name: &[u8]) -> bool
    ensures { result ≡ spec.is_slot_named page.now slot name.now }
{
    is_plain(page, slot) && has_name(row(page, slot), name)
}

// The first slot whose row is that of the table or index `name`; `None` if there is none.
fn slot_of(page: &[u8], name: &[u8]) -> Option<u16>
    ensures value { result ≡ spec.slot_of page.now name.now }
    ensures plain { IfSome result (λ slot. spec.is_plain page.now slot ≡ true) }
{
    let count = count_of(page);
    for slot in 0..count {
        if is_named(page, slot, name) {
            return Some(slot);
        }
    }
    None
}

// Whether the slot `to` of `page` has the row of the slot `from` of `old`: its cell is at the same place,
// with the same bytes, but the rowid is `to + 1`.
fn is_moved(old: &[u8], from: u16, page: &[u8], to: u16) -> bool
    requires { spec.is_plain old.now from ≡ true }
    ensures { result ≡ spec.is_moved old.now from page.now to }
{
    is_plain(page, to)
        && cell(page, to) == cell(old, from)
        && u32::from(byte(page, rowid_at(page, to))) == u32::from(to) + 1
        && row(page, to) == row(old, from)
}

// Whether the slot `to` of `page` has the row of `old` whose name is at place `to` of the packed order if
// `is_packed`, else of the canonical order.
fn is_moved_by_name(is_packed: bool, old: &[u8], page: &[u8], to: u16) -> bool
    ensures { result ≡ spec.is_moved_by_name is_packed old.now page.now to }
{
    slot_of(old, name_at(is_packed, to)).is_some_and(|from| is_moved(old, from, page, to))
}

// Whether the first `count` slots of `page` have the rows of `old`, in packed order if `is_packed`, else in
// canonical order.
fn are_moved(is_packed: bool, old: &[u8], page: &[u8], count: u16) -> bool
    ensures { result ≡ spec.are_moved is_packed old.now page.now 0 count }
{
    for to in 0..count {
        if !is_moved_by_name(is_packed, old, page, to) {
            return false;
        }
    }
    true
}

// Whether a page lists its rows in packed order if `is_packed`, else in canonical order, with the rowids 1,
// 2 and so on.
fn are_listed(is_packed: bool, page: &[u8]) -> bool
    ensures { result ≡ spec.are_listed is_packed page.now }
{
    are_moved(is_packed, page, page, count_of(page))
}

// Whether a page is a leaf with at most `SCHEMA_ENTRIES` rows, and lists them in neither the canonical nor
// the packed order. Byte 100 is its type. The packed order has all tables and indexes: fewer rows aren't in
// it.
fn is_in_other_order(page: &[u8]) -> bool
    ensures { result ≡ spec.is_in_other_order page.now }
{
    byte(page, 100) == LEAF
        && count_of(page) <= SCHEMA_ENTRIES
        && !are_listed(false, page)
        && !(count_of(page) == SCHEMA_ENTRIES && are_listed(true, page))
}

// Points the slot `to` of `page` to the cell of the slot `from` of `old`, whose row gets the rowid
// `to + 1`. Both pages have the cell at the same place. The 14 slots end at byte 136.
fn move_row(old: &[u8], from: u16, to: u16, page: &mut [u8])
    requires plain { spec.is_plain old.now from ≡ true }
    requires room { 136 ≤ length page.old }
    requires same { length page.old ≡ length old.now }
    requires few { to < 14 }
    ensures { page.new ≡ spec.moved old.now from to page.old }
{
    let (here, there) = (usize::from(to) * 2, usize::from(from) * 2);
    page[108 + here] = byte(old, 108 + there);
    page[109 + here] = byte(old, 109 + there);
    page[rowid_at(old, from)] = to as u8 + 1;
}

// Gives the slot `to` of `page` the row of `old` whose name is at place `to` of the canonical order;
// returns false if `old` has no such row.
fn place_row(old: &[u8], to: u16, page: &mut [u8]) -> bool
    requires room { 136 ≤ length page.old }
    requires same { length page.old ≡ length old.now }
    requires few { to < 14 }
    ensures length { length page.new ≡ length page.old }
    ensures placed { result ≡ true → spec.placed_by_name old.now to page.old ≡ Some page.new }
    ensures missing { result ≡ false → spec.placed_by_name old.now to page.old ≡ None }
{
    let Some(from) = slot_of(old, name_at(false, to)) else {
        return false;
    };
    move_row(old, from, to, page);
    true
}

// Gives the first `count` slots of `page` the rows of `old` in canonical order; returns false if `old`
// lacks one.
fn place_rows(old: &[u8], count: u16, page: &mut [u8]) -> bool
    requires room { 136 ≤ length page.old }
    requires same { length page.old ≡ length old.now }
    requires few { count ≤ 14 }
    ensures placed { result ≡ true → spec.placed old.now 0 count page.old ≡ Some page.new }
    ensures missing { result ≡ false → spec.placed old.now 0 count page.old ≡ None }
{
    for to in 0..count {
        if !place_row(old, to, page) {
            return false;
        }
    }
    true
}

// Puts the rows of `page`, a copy of the first page `old`, in canonical order. Returns true if `old` lists
// the schema's tables and indexes, or the first few of them, in an order that is neither canonical nor
// packed. Else it returns false, and `page` is unspecified. The result is tested at the end, since cells of
// `old` may overlap.
fn try_reorder(old: &[u8], page: &mut [u8]) -> bool
    requires room { 136 ≤ length page.old }
    requires same { page.old ≡ old.now }
    ensures ordered { result ≡ true → spec.ordered old.now ≡ Some page.new }
    ensures left { result ≡ false → spec.ordered old.now ≡ None }
{
    let count = count_of(old);
    if !is_in_other_order(old) || !place_rows(old, count, page) {
        return false;
    }
    are_moved(false, old, page, count)
}

// Whether a first page lists the schema's tables and indexes, or the first few of them, in an order that is
// neither canonical nor packed.
fn is_out_of_order(page: &[u8]) -> bool
    requires { IsFirstPage page.now }
    ensures { result ≡ is_some (spec.ordered page.now) }
{
    let mut room = [0u8; MAX_PAGE];
    let other = &mut room[..page.len()];
    other.copy_from_slice(page);
    try_reorder(page, other)
}

/// Puts the rows of a first page in canonical order, if they are the schema's tables and indexes, or the
/// first few of them, in an order that is neither canonical nor packed. Any other page stays as it is.
pub fn order_page(page: &mut [u8])
    requires { IsFirstPage page.old }
    ensures { page.new ≡ spec.ordered_page page.old }
{
    let mut room = [0u8; MAX_PAGE];
    let old = &mut room[..page.len()];
    old.copy_from_slice(page);
    if !try_reorder(old, page) {
        page.copy_from_slice(old);
    }
}

// Reads the first page of a file into `page`, as many bytes as `page` has, and reorders its rows as
// `order_page` does. The error is that of the read that failed, also if the file ends inside the page.
//
// Two clauses are for `copy_in_order`, which copies `page` and then the rest of `file`. `whole`: these two
// together are the whole file with its first page reordered. `size`: that is as long as the file that was
// read, so the length that the caller names is right for it too.
fn read_in_order<R: Read>(file: &mut R, page: &mut [u8]) -> io::Result<()>
    requires { IsFirstPage page.old }
    ensures length { length page.new ≡ length page.old }
    ensures size { OnOk result (IfSome (R.remaining file.old) (λ bytes.
        length (spec.ordered_file (length page.new) bytes) ≡ length bytes)) }
    ensures whole { OnOk result (IfSome (R.remaining file.old) (λ bytes.
        option_append (Some page.new) (R.remaining file.new)
        ≡ Some (spec.ordered_file (length page.new) bytes))) }
{
    file.read_exact(page)?;
    order_page(page);
    Ok(())
}

/// Whether a database file lists the schema's tables and indexes, or the first few of them, in an order that
/// is neither canonical nor packed; false if its header names no valid page size. A newer first page in a WAL
/// isn't seen.
///
/// # Errors
///
/// The error of the read that failed.
pub fn has_other_order<R: Read>(file: &mut R) -> io::Result<bool>
    ensures { IfOk result (λ has. IfSome (R.remaining file.old) (λ bytes. IsTrue has ↔ HasOtherOrder bytes)) }
{
    let mut header = [0u8; HEADER];
    file.read_exact(&mut header)?;
    match page_size_in(&header) {
        Some(size) => is_first_page_disordered(file, &header, size),
        None => Ok(false),
    }
}

// Whether the first page, of `size` bytes, lists its tables and indexes in an order that is neither
// canonical nor packed. `header`, the first bytes of the page, was read from `file` before.
fn is_first_page_disordered<R: Read>(
    file: &mut R,
    header: &[u8; HEADER],
    size: PageSize,
) -> io::Result<bool>
    ensures { IfOk result (λ is. IfSome (R.remaining file.old) (λ rest.
        is ≡ is_some (spec.ordered (take (bytes_of size) (header.now ++ rest))))) }
{
    let mut room = [0u8; MAX_PAGE];
    let page = &mut room[..size.bytes()];
    read_page(file, header, size, page)?;
    Ok(is_out_of_order(page))
}

// Fills `page` with the first page, of `size` bytes. `header`, the first bytes of the page, was read from
// `file` before.
fn read_page<R: Read>(
    file: &mut R,
    header: &[u8; HEADER],
    size: PageSize,
    page: &mut [u8],
) -> io::Result<()>
    requires { length page.old ≡ bytes_of size }
    ensures length { length page.new ≡ bytes_of size }
    ensures page { OnOk result (IfSome (R.remaining file.old) (λ rest.
        page.new ≡ take (length page.new) (header.now ++ rest))) }
{
    let mut whole = (&header[..]).chain(file);
    whole.read_exact(page)
}

/// Copies a database file of `len` bytes to `output`, repaired: its first page is reordered as by
/// `order_page`, and the checksum of each page is set, if pages have checksums.
///
/// # Errors
///
/// The error of the read or write that failed; `Unsupported` if the header names no valid page size. What was
/// written until then stays.
pub fn copy_mended<R: Read, W: Write>(file: &mut R, output: &mut W, len: u64) -> io::Result<()>
    ensures mended { OnOk result (IfSome (R.remaining file.old) (λ bytes. length bytes ≡ len →
        Appends (W.contents output.old) (W.contents output.new)
        (spec.mended (has_checksums bytes) (size_in_file bytes) bytes))) }
    ensures sized { OnOk result (IfSome (R.remaining file.old) (λ bytes.
        IsPageSize (size_in_file bytes))) }
{
    let mut header = [0u8; HEADER];
    file.read_exact(&mut header)?;
    match page_size_in(&header) {
        Some(size) => {
            let mut whole = (&header[..]).chain(file);
            copy_in_order(&mut whole, output, size, len, has_checksum_space(&header))
        }
        None => Err(io::Error::from(ErrorKind::Unsupported)),
    }
}

/// Copies a file of `len` bytes to `output`, repaired: its first page is reordered as by `order_page`, and if
/// `has_checksums`, the checksum of each page is set. `size` is the page size.
///
/// # Errors
///
/// The error of the read or write that failed. What was written until then stays.
pub fn copy_in_order<R: Read, W: Write>(
    file: &mut R,
    output: &mut W,
    size: PageSize,
    len: u64,
    has_checksums: bool,
) -> io::Result<()>
    ensures { OnOk result (IfSome (R.remaining file.old) (λ bytes. length bytes ≡ len →
        Appends (W.contents output.old) (W.contents output.new)
        (spec.mended has_checksums (bytes_of size) bytes))) }
{
    let mut room = [0u8; MAX_PAGE];
    let page = &mut room[..size.bytes()];
    read_in_order(file, page)?;
    let mut whole = (&*page).chain(file);
    copy_with(&mut whole, output, size, len, has_checksums)
}

// Copies a file of `len` bytes to `output`. If `has_checksums`, the checksum of each page, of `size` bytes,
// is set.
fn copy_with<R: Read, W: Write>(
    file: &mut R,
    output: &mut W,
    size: PageSize,
    len: u64,
    has_checksums: bool,
) -> io::Result<()>
    ensures { OnOk result (IfSome (R.remaining file.old) (λ bytes. length bytes ≡ len →
        Appends (W.contents output.old) (W.contents output.new)
        (spec.with_sums has_checksums (bytes_of size) bytes))) }
{
    if has_checksums {
        copy_checksummed(file, output, size, len)
    } else {
        copy_bytes(file, output)
    }
}
