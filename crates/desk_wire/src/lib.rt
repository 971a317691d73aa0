//! The interface in bytes: requests answered by a desk, one at a time or over a stream.
#![tactic(auto)]

mod answering;
mod batch;
pub mod laws;
mod play;
mod receive_fault;
mod refusal;
mod response;
mod stream;

pub use answering::{answer, answer_with_status};
pub use batch::{Answers, AnswersEnd, answer_all};
pub use io_ends::{
    Moment, PartialWrite, PlayEnd, ServeFault, Served, WriteError, WriteStop, write_whole,
};
pub use play::{Played, play_all};
pub use receive_fault::ReceiveFault;
pub use request_parser::{ReadError, Route, WireFault, read_request};
pub use response::{Answer, ServerError};
pub use stream::{receive_request, serve_one};
