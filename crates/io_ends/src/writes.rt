//! Counted calls of `Write::write`.

ghost use Rattle.std.specs.Prelude.{◌≡◌, ◌↔◌, ◌+◌, ◌<◌, ◌^◌, ◌-◌, IsTrue};
ghost use Rattle.std.specs.{Io.WritesAtMost, Io.KnownBytes.WriteAppends};
ghost use Rattle.io_ends.specs.Writing.{IsLast};

use crate::interruption::is_interrupted;
use std::io::{self, Write};

/// The result of the last call of `write`.
#[derive(Clone, Copy, Debug, PartialEq, Eq)]
pub enum LastWrite {
    /// It took some bytes or was interrupted, or there was no call yet: another may follow.
    Passed,
    /// It took no byte.
    Nothing,
    /// It failed, by another error than an interruption.
    Failed,
}

/// The calls of `write` that were made so far: how many, and the result of the last one. Only `write_counted`
/// adds a call.
#[derive(Clone, Copy, Debug, PartialEq, Eq)]
pub struct Writes {
    count: usize,
    last: LastWrite,
}

impl Writes {
    // No calls yet: the count is 0, and a first call may follow.
    pub(crate) fn none() -> Writes
        ensures count { result.count ≡ 0 }
        ensures last { result.last ≡ LastWrite.Passed }
    {
        Writes {
            count: 0,
            last: LastWrite::Passed,
        }
    }

    /// The number of calls, the failed and interrupted ones included.
    pub fn count(self) -> usize
        ensures { result ≡ self.count }
    {
        self.count
    }

    // Whether another call may follow: the last one took some bytes or was interrupted, or there was none.
    pub(crate) fn may_continue(self) -> bool
        ensures { IsTrue result ↔ (self.last ≡ LastWrite.Passed) }
    {
        matches!(self.last, LastWrite::Passed)
    }

    /// The result of the last call; `Passed` if there was none.
    pub fn last(self) -> LastWrite
        ensures { result ≡ self.last }
    {
        self.last
    }
}

// Calls `write` once with `bytes`, and adds the call to `writes` even if it fails. Returns how many of the
// bytes were taken. The call before it must have passed, and the count must have room for one more.
pub(crate) fn write_counted<W: Write>(
    output: &mut W,
    bytes: &[u8],
    writes: &mut Writes,
) -> io::Result<usize>
    requires passed { writes.old.last ≡ LastWrite.Passed }
    requires room { writes.old.count < 2 ^ 64 - 1 }
    ensures bound { WritesAtMost result bytes.now }
    ensures bytes { WriteAppends (W.contents output.old) (W.contents output.new) result bytes.now }
    ensures counted { writes.new.count ≡ writes.old.count + 1 }
    ensures last { IsLast result writes.new.last }
{
    let written = output.write(bytes);
    writes.count += 1;
    writes.last = classify_write(&written);
    written
}

// Classifies `written`, what one call of `write` returned. An interruption counts as passed.
fn classify_write(written: &io::Result<usize>) -> LastWrite
    ensures { IsLast written.now result }
{
    match written {
        Ok(0) => LastWrite::Nothing,
        Ok(_) => LastWrite::Passed,
        Err(error) if is_interrupted(error) => LastWrite::Passed,
        Err(_) => LastWrite::Failed,
    }
}
