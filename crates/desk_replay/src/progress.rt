//! How far a journal was replayed. Its files are numbered; a file repeats the last request of the file before
//! if that has no answer there.

ghost use Rattle.std.specs.Prelude.{◌≡◌};
ghost use Rattle.desk_run.specs.Verdicts.{DeskWorld};
ghost use Rattle.desk_replay.specs.{Replaying.follows, Replaying.progress_state, Running.start};

use desk_rules::terms::Terms;
use std::alloc::Global;

/// A request that was carried out, and whose recorded answer is still to come.
#[derive(Debug, Drop)]
pub struct UnansweredRequest {
    /// The Unix second of the request.
    pub second: u64,
    /// The bytes of the request.
    pub request: Vec<u8>,
    /// The desk's answer.
    pub answer: Vec<u8>,
    /// The desk's first answer, if the request is repeated. Either may be recorded: before the repetition,
    /// the desk that wrote the journal may or may not have made the change.
    pub before: Option<Vec<u8>>,
    /// Whether a journal file has begun since, which has to repeat the request.
    pub reopened: bool,
    /// Whether the request changed the database, now or the first time.
    pub made_change: bool,
}

/// How far a journal was replayed.
#[derive(Debug, Drop)]
pub struct Progress {
    /// The number of the current journal file in its folder, if one has begun.
    pub record: Option<u64>,
    /// The priorities that it permitted so far.
    pub permitted: Vec<u32>,
    /// The settings that it has so far.
    pub terms: Terms,
    /// The request that has no recorded answer yet, if there is one.
    pub asking: Option<UnansweredRequest>,
    /// How many requests were replayed; a repeated one counts once.
    pub requests: u64,
    /// How many of them changed the database.
    pub changes: u64,
}

impl Progress {
    /// The progress before the first entry: no journal file has begun.
    pub fn none(alloc: Global) -> Progress
        ensures { (w : DeskWorld) → progress_state w result ≡ start w }
    {
        Progress {
            record: None,
            permitted: Vec::new(alloc),
            terms: Terms::none(),
            asking: None,
            requests: 0,
            changes: 0,
        }
    }
}

/// Whether the journal file `number` may follow the file `last`: its number is greater by 1. The first file
/// that is replayed (`last` is None) may have any number.
pub(crate) fn may_follow(last: Option<u64>, number: u64) -> bool
    ensures { result ≡ follows last number }
{
    last.is_none_or(|last| last < number && number - last == 1)
}
