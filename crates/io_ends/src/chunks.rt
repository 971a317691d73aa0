//! Bytes read in chunks.

ghost use Rattle.std.specs.Prelude.{◌≤◌, ◌<◌, length, IfErr, IfOk};
ghost use Rattle.std.specs.Io.KnownBytes.{Consumes, IsAtEnd};
ghost use Rattle.io_ends.specs.Reading.{IsUnread};

use crate::reads::{ReadError, ReadLimit, read_within};
use std::alloc::{AllocError, Global};
use std::io::Read;

// The maximum number of bytes that one call of `read` asks for.
const CHUNK: usize = 4_096;

/// Why not all bytes were read, though the input may not have ended.
#[derive_where(Clone, Copy, Debug, PartialEq, Eq)]
pub enum ChunkError<R> {
    /// A read failed, or as many were made as are allowed.
    Read(ReadError<R>),
    /// Memory ran out.
    OutOfMemory,
}

impl<R> From<ReadError<R>> for ChunkError<R> {
    ghost use Rattle.std.specs.Prelude.{◌≡◌};
    ghost use Rattle.io_ends.specs.declared.chunks.ChunkError.TheVariants as chunk_error;

    ghost from_gives = { λ error e. e ≡ chunk_error.Read error };

    // A read failed, or as many were made as are allowed; the error is kept.
    fn from(error: ReadError<R>) -> ChunkError<R> {
        ChunkError::Read(error)
    }
}

impl<R> From<AllocError> for ChunkError<R> {
    ghost use Rattle.std.specs.Prelude.{◌≡◌};
    ghost use Rattle.io_ends.specs.declared.chunks.ChunkError.TheVariants as chunk_error;

    ghost from_gives = { λ _ e. e ≡ chunk_error.OutOfMemory };

    // An allocation failed, so memory ran out.
    fn from(_error: AllocError) -> ChunkError<R> {
        ChunkError::OutOfMemory
    }
}

/// Reads `size` bytes, or fewer if the input ends before that. They are read in chunks of at most 4,096
/// bytes, each by `read_within` with `limit`. Memory is allocated only for bytes that came, since a client
/// may name a `size` that it doesn't send.
///
/// # Errors
///
/// Those of `ChunkError`. How much of the input was read then isn't specified.
pub fn read_up_to<R: Read>(
    alloc: Global,
    input: &mut R,
    size: u64,
    limit: &mut ReadLimit<R>,
) -> Result<Vec<u8>, ChunkError<R>>
    ensures taken { IfOk result (λ bytes.
        Consumes (R.remaining input.old) (R.remaining input.new) bytes.items) }
    ensures within { IfOk result (λ bytes. length bytes.items ≤ size) }
    ensures end { IfOk result (λ bytes. length bytes.items < size → IsAtEnd (R.remaining input.new)) }
    ensures fault { IfErr result (IsUnread limit.old.limit) }
{
    let mut bytes = Vec::new(alloc);
    let mut chunk = [0u8; CHUNK];
    let mut left = size;
    while left > 0 {
        let room = left.min(CHUNK as u64) as usize;
        let count = read_within(input, &mut chunk[..room], limit)?;
        if count == 0 {
            break;
        }
        bytes.extend_from_slice(&chunk[..count])?;
        left -= count as u64;
    }
    Ok(bytes)
}
