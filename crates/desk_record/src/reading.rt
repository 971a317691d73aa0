//! Entries read from a stream.

ghost use Rattle.std.specs.Prelude.{◌≡◌, None, IfErr, IfOk, IfSome};
ghost use Rattle.std.specs.{Io.KnownBytes.Consumes, Io.KnownBytes.IsAtEnd};
ghost use Rattle.desk_record.specs.Record.{Fits, entry, line_parts, LacksEntry, entry_parts, are_bytes_intact};

use crate::entry::Entry;
use crate::line::{LINE_LEN, Line, read_line};
use crate::sums::checksum;
use io_ends::{ChunkError, ReadError, ReadLimit, read_up_to};
use std::alloc::{AllocError, Global};
use std::io::Read;

// The maximum number of calls of `read` for one chunk. Only interrupted calls are made again.
const MAX_TRIES: u32 = 1_000_000;

/// Why no entry was read from an `R`.
#[derive_where(Clone, Copy, Debug, PartialEq, Eq)]
pub enum ReadFault<R> {
    /// A read failed, or a chunk was interrupted a million times.
    Unread(ReadError<R>),
    /// Memory ran out.
    OutOfMemory,
    /// The input ended inside an entry.
    CutShort,
    /// The input goes on with bytes that are no entry: they are damaged.
    NoRecord,
}

impl<R> From<AllocError> for ReadFault<R> {
    ghost use Rattle.std.specs.Prelude.{◌≡◌};
    ghost use Rattle.desk_record.specs.declared.reading.ReadFault.TheVariants as read_fault;

    ghost from_gives = { λ _ fault. fault ≡ read_fault.OutOfMemory };

    // An allocation failed, so memory ran out.
    fn from(_error: AllocError) -> ReadFault<R> {
        ReadFault::OutOfMemory
    }
}

impl<R> From<ChunkError<R>> for ReadFault<R> {
    ghost use Rattle.std.specs.Prelude.{◌≡◌};
    ghost use Rattle.desk_record.specs.Record.{chunk_fault};

    ghost from_gives = { λ error fault. fault ≡ chunk_fault error };

    // A read failed or was interrupted 1,000,000 times, or memory ran out.
    fn from(error: ChunkError<R>) -> ReadFault<R> {
        match error {
            ChunkError::Read(error) => ReadFault::Unread(error),
            ChunkError::OutOfMemory => ReadFault::OutOfMemory,
        }
    }
}

/// Reads one entry, and leaves the rest unread. `None` if the input has ended. The line's checksum is checked
/// first, so that a damaged size isn't trusted.
///
/// # Errors
///
/// As `ReadFault` says. `CutShort` and `NoRecord` depend on the bytes of the input alone. How much of the
/// input was read then isn't specified.
pub fn read_entry<R: Read>(alloc: Global, input: &mut R) -> Result<Option<Entry>, ReadFault<R>>
    ensures entry { IfOk result (λ found. IfSome found (λ e.
        Consumes (R.remaining input.old) (R.remaining input.new) (entry (entry_parts e)))) }
    ensures fits { IfOk result (λ found. IfSome found (λ e. Fits (entry_parts e))) }
    ensures end { IfOk result (λ found. found ≡ None → IsAtEnd (R.remaining input.old)) }
    ensures fault { IfErr result (LacksEntry (R.remaining input.old)) }
{
    let mut limit = ReadLimit::per_chunk(MAX_TRIES);
    let text = read_up_to(alloc, input, LINE_LEN as u64, &mut limit)?;
    if text.is_empty() {
        return Ok(None);
    }
    if text.len() < LINE_LEN {
        return Err(ReadFault::CutShort);
    }
    let Some(line) = read_line(alloc, &text)? else {
        return Err(ReadFault::NoRecord);
    };
    let bytes = read_up_to(alloc, input, line.size, &mut limit)?;
    let last = read_up_to(alloc, input, 1, &mut limit)?;
    if last.is_empty() {
        return Err(ReadFault::CutShort);
    }
    if !is_intact(alloc, &line, &bytes, &last)? {
        return Err(ReadFault::NoRecord);
    }
    let Line { kind, number, .. } = line;
    Ok(Some(Entry {
        kind,
        number,
        bytes,
    }))
}

// Whether `bytes` have the length and the checksum that `line` says, and `last`, what was read after them, is
// a line feed. Fails if memory runs out.
#[tactic(auto, unfolding(crate::specs::Record::entry))]
fn is_intact(alloc: Global, line: &Line, bytes: &[u8], last: &[u8]) -> Result<bool, AllocError>
    ensures { IfOk result (λ sound. sound ≡ are_bytes_intact (line_parts line.now) bytes.now last.now) }
{
    let sum = checksum(alloc, bytes)?;
    Ok(bytes.len() as u64 == line.size && sum == line.sum && last == b"\n".as_slice())
}
