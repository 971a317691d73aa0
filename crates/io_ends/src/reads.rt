//! Calls of `Read::read` that are counted and limited.

ghost use Rattle.std.specs.Prelude.{◌≡◌, false, true, if◌then◌else◌, ◌↔◌, ◌+◌, ◌<◌, ◌^◌, ◌-◌, IsTrue, length, take, IfErr, IfOk};
ghost use Rattle.std.specs.{Io.ReadsAtMost, Io.KnownBytes.Consumes, Io.KnownBytes.IsAtEnd, Io.KnownBytes.ReadConsumes};
ghost use Rattle.io_ends.specs.Reading.{HaveGivenUp, IsLastRead, no_reads};
ghost use Rattle.io_ends.specs.declared.reads.Reads.{Reads};

use crate::interruption::is_interrupted;
use std::io::{self, Read};
use std::marker::PhantomData;

/// The result of the last call of `read`.
#[derive(Clone, Copy, Debug, PartialEq, Eq)]
pub enum LastRead {
    /// It returned a number of bytes or was interrupted, or there was no call yet: another may follow.
    Passed,
    /// It failed, by another error than an interruption.
    Failed,
}

/// The calls of `read` that were counted so far: how many, and the result of the last one.
#[derive(Clone, Copy, Debug, PartialEq, Eq)]
pub struct Reads {
    count: u32,
    last: LastRead,
}

impl Reads {
    // No calls yet: the count is 0, and a first call may follow.
    fn none() -> Reads
        ensures { result ≡ no_reads }
    {
        Reads {
            count: 0,
            last: LastRead::Passed,
        }
    }

    // Whether another call may follow: fewer than `limit` were made, and the last one didn't fail. If so, the
    // count has room for one more.
    fn may_continue(self, limit: u32) -> bool
        ensures may { IsTrue result ↔ ((self.last ≡ LastRead.Passed) × (self.count < limit)) }
        ensures room_left { IsTrue result → self.count < 2 ^ 32 - 1 }
    {
        matches!(self.last, LastRead::Passed) && self.count < limit
    }
}

/// How many calls of `read` on an `R` are allowed, and the calls that were counted so far: all of them, or
/// those since the last chunk began if the limit is for each chunk. Only `read_within` adds calls.
#[derive_where(Clone, Copy, Debug, PartialEq, Eq)]
pub struct ReadLimit<R> {
    limit: u32,
    // Whether the limit is for each call of `read_within`, and not for all of them together.
    is_per_chunk: bool,
    reads: Reads,
    reader: PhantomData<R>,
}

impl<R> ReadLimit<R> {
    /// Allows `limit` calls of `read` in all. No call was made yet.
    pub fn total(limit: u32) -> ReadLimit<R>
        requires { 0 < limit }
        ensures limit { result.limit ≡ limit }
        ensures total { result.is_per_chunk ≡ false }
        ensures reads { result.reads ≡ no_reads }
    {
        ReadLimit {
            limit,
            is_per_chunk: false,
            reads: Reads::none(),
            reader: PhantomData,
        }
    }

    /// Allows `limit` calls of `read` for each chunk: each call of `read_within` counts anew.
    pub fn per_chunk(limit: u32) -> ReadLimit<R>
        requires { 0 < limit }
        ensures limit { result.limit ≡ limit }
        ensures each { result.is_per_chunk ≡ true }
        ensures reads { result.reads ≡ no_reads }
    {
        ReadLimit {
            is_per_chunk: true,
            ..ReadLimit::total(limit)
        }
    }

    // Begins a call of `read_within`: the calls before it no longer count if the limit is for each chunk.
    fn begin_chunk(&mut self)
        ensures limit { self.new.limit ≡ self.old.limit }
        ensures each { self.new.is_per_chunk ≡ self.old.is_per_chunk }
        ensures reads { self.new.reads ≡ (if self.old.is_per_chunk then no_reads else self.old.reads) }
    {
        if self.is_per_chunk {
            self.reads = Reads::none();
        }
    }
}

/// Reading from an `R` was given up: the last call of `read` failed, or as many were made as are allowed.
/// Only `read_within` makes one, and at least one call is allowed: so an `R` was really asked.
#[derive_where(Clone, Copy, Debug, PartialEq, Eq)]
pub struct ReadError<R> {
    reads: Reads,
    reader: PhantomData<R>,
}

impl<R> ReadError<R> {
    /// The calls of `read` that were counted: how many, and the result of the last one. If the limit is for
    /// each chunk, they are those for the chunk that wasn't read.
    pub fn reads(self) -> Reads
        ensures { result ≡ self.reads }
    {
        self.reads
    }
}

/// Reads once into `room`, and returns how many bytes came: 0 at the end of the input, or if `room` is empty.
/// An interrupted call of `read` is made again as long as `limit` allows it; each call is counted there.
///
/// # Errors
///
/// `ReadError` if a call failed, or if as many were made as are allowed. If that is so at the beginning, no
/// call is made.
pub fn read_within<R: Read>(
    input: &mut R,
    room: &mut [u8],
    limit: &mut ReadLimit<R>,
) -> Result<usize, ReadError<R>>
    ensures bound { ReadsAtMost result room.new }
    ensures taken { IfOk result (λ n.
        Consumes (R.remaining input.old) (R.remaining input.new) (take n room.new)) }
    ensures end { IfOk result (λ n. n ≡ 0 → 0 < length room.new → IsAtEnd (R.remaining input.new)) }
    ensures fault { IfErr result (λ error. HaveGivenUp limit.old.limit error.reads) }
    ensures limit { limit.new.limit ≡ limit.old.limit }
    ensures each { limit.new.is_per_chunk ≡ limit.old.is_per_chunk }
{
    limit.begin_chunk();
    while limit.reads.may_continue(limit.limit) {
        if let Ok(count) = read_counted(input, room, &mut limit.reads) {
            return Ok(count);
        }
    }
    Err(ReadError {
        reads: limit.reads,
        reader: PhantomData,
    })
}

// Calls `read` once with `room`, and adds the call to `reads` even if it fails. The call before it must have
// passed, and the count must have room for one more.
fn read_counted<R: Read>(input: &mut R, room: &mut [u8], reads: &mut Reads) -> io::Result<usize>
    requires passed { reads.old.last ≡ LastRead.Passed }
    requires room_left { reads.old.count < 2 ^ 32 - 1 }
    ensures bound { ReadsAtMost result room.new }
    ensures taken { ReadConsumes (R.remaining input.old) (R.remaining input.new) result room.new }
    ensures counted { reads.new.count ≡ reads.old.count + 1 }
    ensures last { IsLastRead result reads.new.last }
{
    let read = input.read(room);
    reads.count += 1;
    reads.last = classify_read(&read);
    read
}

// Classifies `read`, what one call of `read` returned. An interruption counts as passed.
fn classify_read(read: &io::Result<usize>) -> LastRead
    ensures { IsLastRead read.now result }
{
    match read {
        Ok(_) => LastRead::Passed,
        Err(error) if is_interrupted(error) => LastRead::Passed,
        Err(_) => LastRead::Failed,
    }
}
