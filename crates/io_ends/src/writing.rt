//! Writing all of some bytes, and what is known if that fails.

ghost use Rattle.std.specs.Prelude.{◌≡◌, ◌≢◌, ◌≤◌, ◌+◌, ℕ, length, take, IfErr, IfOk, OnErr, OnOk};
ghost use Rattle.std.specs.Io.KnownBytes.{Appends};
ghost use Rattle.io_ends.specs.Writing.{BreaksOff, EndsBy, spare_writes};
ghost use Rattle.io_ends.specs.declared.writes.Writes.{Writes};

use crate::writes::{LastWrite, Writes, write_counted};
use std::io::{self, Write};
use std::marker::PhantomData;

/// How many calls of `write` are allowed beyond one for each byte, since some may be interrupted.
const SPARE_WRITES: usize = 1_000;

/// Why writing bytes ended.
#[derive(Clone, Copy, Debug, PartialEq, Eq)]
pub enum WriteStop {
    /// All bytes are written.
    Whole,
    /// A call failed, by another error than an interruption.
    Failed,
    /// A call took no byte.
    Nothing,
    /// There were 1,000 calls more than bytes, and bytes are left.
    Limit,
}

/// How far `write_whole` came if it ended before the last byte.
#[derive(Clone, Copy, Debug, PartialEq, Eq)]
pub struct PartialWrite {
    sent: usize,
    end: WriteStop,
    writes: Writes,
}

impl PartialWrite {
    /// How many bytes were written: the first ones.
    pub fn sent(self) -> usize
        ensures { result ≡ self.sent }
    {
        self.sent
    }

    /// Why no more was written; never `Whole`.
    pub fn end(self) -> WriteStop
        ensures { result ≡ self.end }
    {
        self.end
    }

    /// The calls of `write` that were made: how many, and the result of the last one.
    pub fn writes(self) -> Writes
        ensures { result ≡ self.writes }
    {
        self.writes
    }
}

/// The error that writing to a `W` ended before the last byte. Only `write_whole` makes one: so a function
/// that is generic in `W` and returns one has called the writer that it was given.
#[derive_where(Clone, Copy, Debug, PartialEq, Eq)]
pub struct WriteError<W> {
    fault: PartialWrite,
    writer: PhantomData<W>,
}

impl<W> WriteError<W> {
    /// How much was written, and why no more.
    pub fn fault(self) -> PartialWrite
        ensures { result ≡ self.fault }
    {
        self.fault
    }
}

// How many bytes were written, the first ones, and the calls of `write` that were made.
#[derive(Clone, Copy)]
struct Written {
    sent: usize,
    writes: Writes,
}

/// Writes all of `bytes` to `output`, in at most `bytes.len() + 1_000` calls of `write`. Interrupted calls
/// are retried; the output is not flushed.
///
/// # Errors
///
/// `WriteError` says how many bytes were written, and why no more.
#[tactic(auto, using(crate::proofs::WritingLemmas::written_all))]
pub fn write_whole<W: Write>(output: &mut W, bytes: &[u8]) -> Result<(), WriteError<W>>
    ensures ok { OnOk result (Appends (W.contents output.old) (W.contents output.new) bytes.now) }
    ensures err { IfErr result (λ error. BreaksOff bytes.now (W.contents output.old)
        (W.contents output.new) error.fault) }
{
    let Written { sent, writes } = write_most(output, bytes);
    if sent == bytes.len() {
        return Ok(());
    }
    let end = stop_reason(writes.last());
    Err(WriteError {
        fault: PartialWrite { sent, end, writes },
        writer: PhantomData,
    })
}

// Writes `bytes` to `output` until all are written, a call fails or takes no byte, or there were
// `SPARE_WRITES` calls more than bytes. An interrupted call is no failure.
fn write_most<W: Write>(output: &mut W, bytes: &[u8]) -> Written
    ensures written { Appends (W.contents output.old) (W.contents output.new)
        (take result.sent bytes.now) }
    ensures within { result.sent ≤ length bytes.now }
    ensures limit { result.sent ≢ length bytes.now → result.writes.last ≡ LastWrite.Passed
        → result.writes.count ≡ length bytes.now + spare_writes }
{
    let mut sent = 0;
    let mut writes = Writes::none();
    for _ in 0..bytes.len().saturating_add(SPARE_WRITES) {
        if sent == bytes.len() {
            return Written { sent, writes };
        }
        sent += count_or_zero(write_counted(output, &bytes[sent..], &mut writes));
        if !writes.may_continue() {
            return Written { sent, writes };
        }
    }
    Written { sent, writes }
}

// How many bytes a call took, by its result `written`: 0 if it failed.
fn count_or_zero(written: io::Result<usize>) -> usize
    ensures ok { IfOk written (λ count. result ≡ count) }
    ensures err { OnErr written (result ≡ 0) }
{
    written.unwrap_or(0)
}

// Why writing ended before the last byte, by the result of the last call. If that passed, the allowed calls
// were used up.
fn stop_reason(last: LastWrite) -> WriteStop
    ensures { (writes : Writes) → (count : ℕ) → writes.last ≡ last
        → (last ≡ LastWrite.Passed → writes.count ≡ count + spare_writes) → EndsBy result writes count }
{
    match last {
        LastWrite::Passed => WriteStop::Limit,
        LastWrite::Nothing => WriteStop::Nothing,
        LastWrite::Failed => WriteStop::Failed,
    }
}
