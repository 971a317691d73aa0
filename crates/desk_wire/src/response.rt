//! Answers with their status codes, and why a desk failed to answer.

ghost use Rattle.std.specs.Prelude.{◌≡◌, ◌≤◌, IfOk, length};
ghost use Rattle.desk_wire.specs.Bytes as spec;
ghost use Rattle.desk_wire.specs.declared.response.ServerError.TheVariants as error;

use desk_writing::{out_of_memory_answer, store_answer};
use std::alloc::AllocError;

/// The answer to a request.
#[derive(Debug, Drop)]
pub struct Answer {
    /// The status code.
    pub status: u16,
    /// The whole HTTP response.
    pub bytes: Vec<u8>,
    /// Why the desk failed, if the status is 500.
    pub error: Option<ServerError>,
    /// Whether the database was changed: a plan was stored or closed, even if it was so already, or plans
    /// were removed. False if the status is 500.
    pub made_change: bool,
}

impl Answer {
    /// A copy of this answer, all of it.
    ///
    /// # Errors
    ///
    /// `AllocError` if memory runs out.
    pub fn copy(&self) -> Result<Answer, AllocError>
        ensures status { IfOk result (λ copy. copy.status ≡ self.now.status) }
        ensures bytes { IfOk result (λ copy. copy.bytes.items ≡ self.now.bytes.items) }
        ensures error { IfOk result (λ copy. copy.error ≡ self.now.error) }
        ensures change { IfOk result (λ copy. copy.made_change ≡ self.now.made_change) }
    {
        Ok(Answer {
            status: self.status,
            bytes: Vec::from_slice(*self.bytes.allocator(), &self.bytes)?,
            error: self.error,
            made_change: self.made_change,
        })
    }
}

/// Why an answer has the status 500.
#[derive(Clone, Copy, Debug, PartialEq, Eq)]
pub enum ServerError {
    /// Memory ran out.
    OutOfMemory,
    /// The store failed.
    Store,
}

impl ServerError {
    /// The whole HTTP response, with the status 500. It needs no allocation, and has at most 512 bytes.
    pub fn answer(self) -> &'static [u8]
        ensures value { result.now ≡ spec.server_error_text self }
        ensures fits { length result.now ≤ 512 }
    {
        match self {
            ServerError::OutOfMemory => out_of_memory_answer(),
            ServerError::Store => store_answer(),
        }
    }
}

impl From<AllocError> for ServerError {
    ghost from_gives = { λ _ e. e ≡ error.OutOfMemory };

    // An allocation failed, so memory ran out.
    fn from(_error: AllocError) -> ServerError {
        ServerError::OutOfMemory
    }
}
