//! Why no whole request was read.

ghost use Rattle.std.specs.Prelude.{◌≡◌};
ghost use Rattle.desk_wire.specs.Streams.{serve_fault_of, unread_chunk};
ghost use Rattle.desk_wire.specs.declared.receive_fault.ReceiveFault.TheVariants as receive_fault;

use io_ends::{ChunkError, ReadError, ServeFault};
use std::alloc::AllocError;

/// Why no whole request was read from an `R`.
#[derive_where(Clone, Copy, Debug, PartialEq, Eq)]
pub enum ReceiveFault<R> {
    /// The input ended inside the request.
    CutShort,
    /// A read failed, or the request takes more than 200,000 reads.
    Unread(ReadError<R>),
    /// Memory ran out.
    OutOfMemory,
}

impl<R> From<ReadError<R>> for ReceiveFault<R> {
    ghost from_gives = { λ error fault. fault ≡ receive_fault.Unread error };

    fn from(error: ReadError<R>) -> ReceiveFault<R> {
        ReceiveFault::Unread(error)
    }
}

impl<R> From<ChunkError<R>> for ReceiveFault<R> {
    ghost from_gives = { λ error fault. fault ≡ unread_chunk error };

    fn from(error: ChunkError<R>) -> ReceiveFault<R> {
        match error {
            ChunkError::Read(error) => ReceiveFault::Unread(error),
            ChunkError::OutOfMemory => ReceiveFault::OutOfMemory,
        }
    }
}

impl<R> From<AllocError> for ReceiveFault<R> {
    ghost from_gives = { λ _ fault. fault ≡ receive_fault.OutOfMemory };

    // An allocation failed, so memory ran out.
    fn from(_error: AllocError) -> ReceiveFault<R> {
        ReceiveFault::OutOfMemory
    }
}

impl<R> From<ReceiveFault<R>> for ServeFault {
    ghost from_gives = { λ fault e. e ≡ serve_fault_of fault };

    // The request can't be answered for the same reason.
    fn from(fault: ReceiveFault<R>) -> ServeFault {
        match fault {
            ReceiveFault::CutShort => ServeFault::CutShort,
            ReceiveFault::Unread(_) => ServeFault::Read,
            ReceiveFault::OutOfMemory => ServeFault::OutOfMemory,
        }
    }
}
