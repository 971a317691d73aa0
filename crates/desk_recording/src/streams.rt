//! The buffered streams of a connection that is recorded.

ghost use Rattle.std.specs.Prelude.{◌≡◌, Some};
ghost use Rattle.std.specs.{Io.ReadsAtMost, Io.WritesAtMost, Io.Cursor.cursor_remaining, Io.KnownBytes.ReadConsumes, Io.KnownBytes.WriteAppends};

use io_ends::ReadError;
use std::io::{self, Cursor, Read, Write};

/// A client and its request, which is in the journal already. The desk reads the request from this buffer.
#[derive(Drop)]
pub struct BufferedRequest<I> {
    pub(crate) request: Cursor<Vec<u8>>,
    // Why the client's bytes could not be read, if so: then the request is empty, and not in the journal.
    pub(crate) unread: Option<ReadError<I>>,
    pub(crate) client: I,
}

impl<I> Read for BufferedRequest<I> {
    ghost remaining = { λ s. cursor_remaining (λ v. Some v.items) s.request };

    // Reads from the buffered request, and never from the client.
    fn read(&mut self, room: &mut [u8]) -> io::Result<usize> {
        self.request.read(room)
    }
}

/// A client (`to`) and its answer, which the desk writes into this buffer. The answer is appended to the
/// journal before it is sent.
#[derive(Drop)]
pub struct BufferedResponse<O> {
    pub(crate) answer: Vec<u8>,
    pub(crate) to: O,
}

impl<O> Write for BufferedResponse<O> {
    ghost contents = { λ s. Some s.answer.items };

    // Appends to the buffered answer. Nothing is sent to the client.
    fn write(&mut self, bytes: &[u8]) -> io::Result<usize> {
        self.answer.write(bytes)
    }

    // Does nothing: the answer is sent later.
    fn flush(&mut self) -> io::Result<()> {
        self.answer.flush()
    }
}
