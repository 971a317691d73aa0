//! The request journal: a port that writes each request before it is carried out, and each answer before it
//! is sent; and the recovery from a journal at the next start.
//!
//! A port gives the desk one connection after the other. A journal is a folder of append-only files. A file
//! has entries: its header and the desk's settings, then enrolments, requests and answers as they come. Each
//! start begins a new file.
#![tactic(auto)]

mod header;
mod inputs;
mod journal;
pub mod laws;
mod port;
mod record;
mod recovering;
mod streams;
mod tail;
mod written;

pub use header::write_header;
pub use inputs::{InputPort, play_opened};
pub use journal::{AppendError, Journal};
pub use port::RecordedPort;
pub use record::{Exchange, Record, RecordFault};
pub use recovering::{RecoveryError, missing_enrolments, recover};
pub use streams::{BufferedRequest, BufferedResponse};
pub use tail::{EntryFault, PendingRequest, Tail, TailEnd, TailFault, read_tail};
pub use written::WrittenRecord;
