//! Bytes read from a WAL.

ghost use Rattle.std.specs.Prelude.{◌≡◌, ◌<◌, ◌≤◌, false, true, length, take, IfErr, IfOk, IfSome};
ghost use Rattle.std.specs.Io.KnownBytes.{Consumes, IsAtEnd};
ghost use Rattle.io_ends.specs.Reading.{HaveGivenUp};
ghost use Rattle.db_file.specs.Wal.{most_reads};

use io_ends::{ReadError, ReadLimit, read_within};
use std::io::Read;

// The most calls of `read` that one call of `read_whole` makes.
const MAX_READS: u32 = u32::MAX;

/// Fills the buffer `room` from `input`, and returns true. Returns false if the input ends before: what
/// `room` holds then isn't specified. An interrupted read is retried, and counts as one of the reads.
///
/// # Errors
///
/// `ReadError` if a read failed, or if 2^32 - 1 of them weren't enough. What `room` holds then isn't
/// specified either.
pub fn read_whole<R: Read>(input: &mut R, room: &mut [u8]) -> Result<bool, ReadError<R>>
    ensures whole { IfOk result (λ is_whole. is_whole ≡ true →
        Consumes (R.remaining input.old) (R.remaining input.new) room.new) }
    ensures short { IfOk result (λ is_whole. is_whole ≡ false →
        IfSome (R.remaining input.old) (λ rest. length rest < length room.new)) }
    ensures fault { IfErr result (λ error. HaveGivenUp most_reads error.reads) }
{
    let count = fill(input, room)?;
    Ok(count == room.len())
}

// Reads into `room` until it is full or the input ends; returns how many bytes were read. It fails as
// `read_whole` does.
fn fill<R: Read>(input: &mut R, room: &mut [u8]) -> Result<usize, ReadError<R>>
    ensures within { IfOk result (λ count. count ≤ length room.new) }
    ensures taken { IfOk result (λ count.
        Consumes (R.remaining input.old) (R.remaining input.new) (take count room.new)) }
    ensures end { IfOk result (λ count. count < length room.new → IsAtEnd (R.remaining input.new)) }
    ensures fault { IfErr result (λ error. HaveGivenUp most_reads error.reads) }
{
    let mut count = 0;
    let mut limit = ReadLimit::total(MAX_READS);
    while count < room.len() {
        let more = read_within(input, &mut room[count..], &mut limit)?;
        if more == 0 {
            break;
        }
        count += more;
    }
    Ok(count)
}
