//! The result of serving one request of a stream.

ghost use Rattle.std.specs.Prelude.{◌≡◌};
ghost use Rattle.io_ends.specs.declared.serving.ServeFault.TheVariants as serve_fault;

use crate::writing::{PartialWrite, WriteError};
use std::alloc::AllocError;
use std::error::Error;
use std::fmt;

/// The result of serving one request of a stream.
#[derive(Clone, Copy, Debug, PartialEq, Eq)]
pub enum Served {
    /// It was answered with this status code. It is `framed` if it is known where the next request begins.
    Answered { status: u16, framed: bool },
    /// The input ended before any byte.
    End,
}

/// Why a request of a stream has no whole answer.
#[derive(Clone, Copy, Debug, PartialEq, Eq)]
pub enum ServeFault {
    /// A read failed, or the request takes more than 200,000 reads. Nothing was written or changed.
    Read,
    /// Writing the answer failed part-way. The request's change was made, unless the answer is a 500.
    Write(PartialWrite),
    /// The input ended inside a request. Nothing was written or changed.
    CutShort,
    /// Memory ran out before the request was carried out. Nothing was written or changed.
    OutOfMemory,
}

impl fmt::Display for ServeFault {
    ghost use Rattle.std.specs.Prelude.{Some};
    ghost use Rattle.io_ends.specs.Writing.{serve_fault_text};

    ghost output = { λ fault. Some (serve_fault_text fault) };

    // The fault as a sentence; of a failed write, also how many bytes of the answer were written.
    fn fmt<W: fmt::Write>(&self, f: &mut fmt::Formatter<W>) -> fmt::Result {
        match self {
            ServeFault::Read => f.write_str("a read failed"),
            ServeFault::Write(fault) => {
                let sent = fault.sent();
                write!(f, "a write failed after {sent} bytes")
            }
            ServeFault::CutShort => f.write_str("the input ended inside a request"),
            ServeFault::OutOfMemory => f.write_str("out of memory"),
        }
    }
}

impl Error for ServeFault {}

impl<W> From<WriteError<W>> for ServeFault {
    ghost from_gives = { λ error e. e ≡ serve_fault.Write error.fault };

    // Writing the answer failed part-way; how far it came is kept.
    fn from(error: WriteError<W>) -> ServeFault {
        ServeFault::Write(error.fault())
    }
}

impl From<AllocError> for ServeFault {
    ghost from_gives = { λ _ e. e ≡ serve_fault.OutOfMemory };

    // An allocation failed, so memory ran out.
    fn from(_error: AllocError) -> ServeFault {
        ServeFault::OutOfMemory
    }
}
