//! Replay of a request journal at a desk, entry by entry: each answer is compared with the recorded one.
//!
//! A journal is a folder of files. A file has entries: first its header and the desk's settings, then the
//! enrolments, the requests and the answers, in the order in which they came.
#![tactic(auto)]

mod fault;
mod laws;
mod line;
mod play;
mod progress;
mod stream;
mod terms;

pub use fault::ReplayFault;
pub use laws::replayed;
pub use line::replay_opened;
pub use play::{answer_one, is_500};
pub use progress::{Progress, UnansweredRequest};
pub use stream::{ReplayEnd, Replayed, replay};
