//! A journal as a stream of entries, replayed one after the other.

ghost use Rattle.std.specs.Prelude.{◌≡◌, ◌<◌, IfOk};
ghost use Rattle.desk_store.specs.Changes.{IsHonest, Remembers};
ghost use Rattle.desk_record.specs.Record.{entry_parts, entry};
ghost use Rattle.desk_run.specs.Verdicts.{world_of};
ghost use Rattle.desk_wire.specs.Streams.{course};
ghost use Rattle.desk_replay.specs.{Replaying.state_at, Running.HasReplayed, Running.Steps};
ghost use Rattle.desk_replay.specs.Running as spec;

use crate::fault::ReplayFault;
use crate::play::play_entry;
use crate::progress::Progress;
use desk_record::{Entry, Kind, ReadFault, lengths, read_entry};
use desk_run::Desk;
use desk_store::PlanStore;
use std::alloc::Global;
use std::io::Read;

/// The length of an entry without its own bytes: its first line, and the line feed at its end.
const ENTRY_OVERHEAD: u64 = 87;

/// Why a replay of the journal `R` ended.
#[derive_where(Clone, Copy, Debug, PartialEq, Eq)]
pub enum ReplayEnd<R> {
    /// The input ended after a whole entry.
    End,
    /// The next request is later than those to be replayed.
    Until,
    /// The next entry could not be read.
    Unread(ReadFault<R>),
    /// The next entry could not be replayed.
    Unplayed(ReplayFault),
    /// The entries that were replayed have 2^64 - 1 bytes or more, which can't be counted any further.
    Endless,
}

/// The result of a replay of the journal `R`.
#[derive(Drop)]
#[derive_where(Debug)]
pub struct Replayed<R> {
    pub progress: Progress,
    /// The length of the entries that were replayed, in bytes, at most `u64::MAX`: the offset of the next
    /// entry.
    pub place: u64,
    pub ended: ReplayEnd<R>,
}

/// Replays the journal `input` at a desk, entry by entry, up to the first request whose Unix second is
/// greater than `until`, if that is given, or to the first entry that can't be read or replayed. Returns how
/// far it came, and why it ended: also if the entries that were replayed have 2^64 - 1 bytes or more, which
/// can't be counted any further (`Endless`).
pub fn replay<S: PlanStore, R: Read>(
    alloc: Global,
    desk: &mut Desk<S>,
    until: Option<u64>,
    input: &mut R,
) -> Replayed<R>
    ensures played { HasReplayed (IsHonest (S.doubt desk.new.store)) until result.ended
        result.place (course (R.remaining input.old) (R.remaining input.new)) (world_of S.content desk.old)
        (state_at S.content desk.new result.progress) }
    ensures remembered { Remembers S.doubt S.faults S.is_shielded desk.old.store desk.new.store }
{
    let mut progress = Progress::none(alloc);
    let mut place: u64 = 0;
    while place < u64::MAX {
        match replay_next(alloc, desk, &mut progress, until, input) {
            Ok(size) => place = place.saturating_add(size),
            Err(ended) => {
                return Replayed {
                    progress,
                    place,
                    ended,
                };
            }
        }
    }
    Replayed {
        progress,
        place,
        ended: ReplayEnd::Endless,
    }
}

// Reads and replays the next entry, and returns its length in bytes. The error says why the replay ends; then
// the desk and `progress` are unchanged.
fn replay_next<S: PlanStore, R: Read>(
    alloc: Global,
    desk: &mut Desk<S>,
    progress: &mut Progress,
    until: Option<u64>,
    input: &mut R,
) -> Result<u64, ReplayEnd<R>>
    ensures steps { Steps (IsHonest (S.doubt desk.new.store)) until result
        (course (R.remaining input.old) (R.remaining input.new))
        (state_at S.content desk.old progress.old) (state_at S.content desk.new progress.new) }
    ensures some { IfOk result (λ size. 0 < size) }
    ensures remembered { Remembers S.doubt S.faults S.is_shielded desk.old.store desk.new.store }
{
    let entry = match read_entry(alloc, input) {
        Ok(Some(entry)) => entry,
        Ok(None) => return Err(ReplayEnd::End),
        Err(fault) => return Err(ReplayEnd::Unread(fault)),
    };
    if is_after_until(until, &entry) {
        return Err(ReplayEnd::Until);
    }
    let size = entry_size(&entry);
    match play_entry(alloc, desk, progress, entry) {
        Ok(()) => Ok(size),
        Err(fault) => Err(ReplayEnd::Unplayed(fault)),
    }
}

// The length of the entry `one` in the journal, in bytes; at most `u64::MAX`. `lengths` does nothing: its
// contract says how long an entry is.
fn entry_size(one: &Entry) -> u64
    ensures size { result ≡ spec.size_of (entry (entry_parts one.now)) }
    ensures some { 0 < result }
{
    lengths();
    (one.bytes.len() as u64).saturating_add(ENTRY_OVERHEAD)
}

// Whether `entry` is a request whose Unix second is greater than `until`; false if `until` is None.
fn is_after_until(until: Option<u64>, entry: &Entry) -> bool
    ensures { result ≡ spec.is_request_after until entry.now.kind entry.now.number }
{
    until.is_some_and(|last| entry.kind == Kind::Request && entry.number > last)
}
