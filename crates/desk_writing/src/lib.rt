//! Answers as bytes: replies and errors as HTTP/1.1 responses with JSON bodies. A reply is the result of a
//! call, before it is written; a note is the reason why a PUT was refused.
#![tactic(auto)]

mod json_out;
mod shown_out;
mod texts;
mod words;

pub use texts::{error_answer, out_of_memory_answer, reply_answer, store_answer};
