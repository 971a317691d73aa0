//! Entries of a journal, replayed at a desk.
//!
//! A request is unanswered (`asking`) until its recorded answer was compared. If the desk that wrote the
//! journal stopped before it had recorded an answer, its next journal file repeats the request.

ghost use Rattle.std.specs.Prelude.{◌≡◌, ◌⊎◌, IfErr, IfOk, OnErr, OnOk};
ghost use Rattle.desk_store.specs.Changes.{HasRisen, IsHonest, Remembers};
ghost use Rattle.request_parser.specs.Requests.{asked as asked_in};
ghost use Rattle.desk_run.specs.Verdicts.{DeskWorld, world_of};
ghost use Rattle.desk_wire.specs.{Bytes.makes_change_for, Bytes.text_for, Bytes.world_after, Streams.course};
ghost use Rattle.desk_record.specs.Record.{entry_parts};
ghost use Rattle.desk_replay.specs.Replaying as spec;
ghost use Rattle.desk_replay.specs.Replaying.{GivesOutcome, IsDeskFault, StaysSettled, StepsAt, asking_in, asking_shown, bytes_of, is_failure, progress_state, request_turn, requested, taken, answer_outcome};
ghost use Rattle.desk_replay.specs.declared.fault.ReplayFault.TheVariants as replay_fault;

use crate::fault::ReplayFault;
use crate::progress::{Progress, UnansweredRequest};
use crate::terms::{begin_journal, enrol, limit_cells, limit_spans, permit};
use desk_record::{Entry, Kind};
use desk_run::Desk;
use desk_store::PlanStore;
use desk_wire::{Answer, ServerError, answer_with_status};
use desk_writing::{out_of_memory_answer, store_answer};
use io_ends::Moment;
use std::alloc::{AllocError, Global};
use volume4d::MAX_SECOND;

/// Replays one entry of a journal at a desk: the header of a file, a setting, an enrolment, a request, or an
/// answer to compare.
///
/// # Errors
///
/// `NoRecord`, `NotNext` or `Differs` because of the entry, `OutOfMemory` or `Store` because of the desk. The
/// desk and `progress` are unchanged then.
#[tactic(auto, unfolding(crate::specs::Replaying::taken))]
pub(crate) fn play_entry<S: PlanStore>(
    alloc: Global,
    desk: &mut Desk<S>,
    progress: &mut Progress,
    entry: Entry,
) -> Result<(), ReplayFault>
    ensures steps { IsHonest (S.doubt desk.new.store) → StepsAt S.content result
        (λ s. taken s (entry_parts entry)) (course desk.old desk.new) (course progress.old progress.new) }
    ensures remembered { Remembers S.doubt S.faults S.is_shielded desk.old.store desk.new.store }
{
    let Entry {
        kind,
        number,
        bytes,
    } = entry;
    if kind == Kind::Record {
        return begin_journal(alloc, desk, progress, number, &bytes);
    }
    if progress.record.is_none() {
        return Err(ReplayFault::NoRecord);
    }
    play_entry_after_header(alloc, desk, progress, kind, number, bytes)
}

// Replays an entry that isn't the first of a journal file; its errors are those of `play_entry`. What
// `number` and `bytes` are, `Kind` says: a priority or a limit (`bytes` is empty), a ceiling and a name, or a
// second and a request or an answer.
fn play_entry_after_header<S: PlanStore>(
    alloc: Global,
    desk: &mut Desk<S>,
    progress: &mut Progress,
    kind: Kind,
    number: u64,
    bytes: Vec<u8>,
) -> Result<(), ReplayFault>
    ensures steps { IsHonest (S.doubt desk.new.store) → StepsAt S.content result
        (λ s. spec.outcome_after_header kind s number bytes.items) (course desk.old desk.new)
        (course progress.old progress.new) }
    ensures remembered { Remembers S.doubt S.faults S.is_shielded desk.old.store desk.new.store }
{
    if !bytes.is_empty() && matches!(kind, Kind::Permitted | Kind::Spans | Kind::Cells) {
        return Err(ReplayFault::NoRecord);
    }
    match kind {
        Kind::Record => Err(ReplayFault::NoRecord),
        Kind::Permitted => permit(desk, progress, number),
        Kind::Spans => limit_spans(desk, progress, number),
        Kind::Cells => limit_cells(desk, progress, number),
        Kind::Operator => enrol(desk, progress, number, &bytes),
        Kind::Request => replay_request(alloc, desk, progress, number, bytes),
        Kind::Answer => compare_answer(progress, number, &bytes),
    }
}

// Carries out a recorded request at its Unix `second`, and notes that its recorded answer is to follow. A
// repeated request is carried out again, and counted once. `NoRecord` if `second` is above `MAX_SECOND`, or
// if a request is unanswered that this doesn't repeat; `OutOfMemory` or `Store` because of the desk.
#[tactic(auto, unfolding(crate::specs::Replaying::requested))]
fn replay_request<S: PlanStore>(
    alloc: Global,
    desk: &mut Desk<S>,
    progress: &mut Progress,
    second: u64,
    request: Vec<u8>,
) -> Result<(), ReplayFault>
    ensures steps { IsHonest (S.doubt desk.new.store) → StepsAt S.content result
        (λ s. requested s second request.items) (course desk.old desk.new)
        (course progress.old progress.new) }
    ensures remembered { Remembers S.doubt S.faults S.is_shielded desk.old.store desk.new.store }
{
    if second > MAX_SECOND as u64 {
        return Err(ReplayFault::NoRecord);
    }
    let before = first_answer_if_repeated(alloc, &progress.asking, second, &request)?;
    let moment = Moment {
        second: second as i64,
    };
    let sent = (moment, request);
    let answer = answer_in_full(alloc, desk, &sent)?;
    if before.is_none() {
        progress.requests = progress.requests.saturating_add(1);
    }
    let had_changed = has_changed(&progress.asking);
    progress.changes = count_change(had_changed, answer.made_change, progress.changes);
    let (_, request) = sent;
    progress.asking = Some(UnansweredRequest {
        second,
        request,
        answer: answer.bytes,
        before,
        reopened: false,
        made_change: had_changed || answer.made_change,
    });
    Ok(())
}

// Whether the unanswered request `asking` changed the database; false if there is none.
fn has_changed(asking: &Option<UnansweredRequest>) -> bool
    ensures { result ≡ spec.has_changed (asking_in asking.now) }
{
    matches!(asking, Some(asking) if asking.made_change)
}

// How many requests changed the database after one more request, if it was `changes` before. `now` says
// whether that request changed it, and `before` whether it did so already when it was carried out first: then
// it is counted already.
fn count_change(before: bool, now: bool, changes: u64) -> u64
    ensures { result ≡ spec.with_change before now changes }
{
    if now && !before {
        changes.saturating_add(1)
    } else {
        changes
    }
}

// The desk's first answer to this request, if it repeats `asking`, a request that was still unanswered when
// the current journal file began; None if no request is unanswered. `NoRecord` if one is that this doesn't
// repeat, or repeats within the same file; `OutOfMemory` if memory runs out.
fn first_answer_if_repeated(
    alloc: Global,
    asking: &Option<UnansweredRequest>,
    second: u64,
    request: &[u8],
) -> Result<Option<Vec<u8>>, ReplayFault>
    ensures ok { IfOk result (λ before.
        request_turn (asking_in asking.now) second request.now ≡ Some (bytes_of (λ v. v.items) before)) }
    ensures err { IfErr result (λ f. (f ≡ replay_fault.OutOfMemory)
        ⊎ ((f ≡ replay_fault.NoRecord) × (request_turn (asking_in asking.now) second request.now ≡ None))) }
{
    let Some(asking) = asking else {
        return Ok(None);
    };
    if !(asking.reopened && asking.second == second && asking.request.as_slice() == request) {
        return Err(ReplayFault::NoRecord);
    }
    let first = asking.before.as_ref().unwrap_or(&asking.answer);
    Ok(Some(Vec::from_slice(alloc, first)?))
}

/// Carries out `sent`, the moment and the bytes of one whole request, at a desk, and returns the answer.
///
/// # Errors
///
/// `OutOfMemory` or `Store` because of the desk; nothing changed then.
// Long: the answer, the state after it, each fault and the crash states have each a clause.
pub fn answer_one<S: PlanStore>(
    alloc: Global,
    desk: &mut Desk<S>,
    sent: &(Moment, Vec<u8>),
) -> Result<Vec<u8>, ReplayFault>
    ensures ok { IsHonest (S.doubt desk.new.store) → IfOk result (λ answer. answer.items
        ≡ text_for (world_of S.content desk.old) sent.now.0.second (asked_in sent.now.1.items)) }
    ensures state { IsHonest (S.doubt desk.new.store) → IfOk result (λ _. world_of S.content desk.new
        ≡ world_after (world_of S.content desk.old) sent.now.0.second (asked_in sent.now.1.items)) }
    ensures err { IsHonest (S.doubt desk.new.store) → OnErr result
        (world_of S.content desk.new ≡ world_of S.content desk.old) }
    ensures fault { IfErr result IsDeskFault }
    ensures kept { OnOk result (StaysSettled S.PlanStore desk.old desk.new) }
    ensures cause { IfErr result (λ f. f ≡ replay_fault.Store
        → HasRisen (S.faults desk.old.store) (S.faults desk.new.store)) }
    ensures remembered { Remembers S.doubt S.faults S.is_shielded desk.old.store desk.new.store }
{
    let answer = answer_in_full(alloc, desk, sent)?;
    Ok(answer.bytes)
}

// Carries out one request as `answer_one` does. The answer also says whether the database was changed.
// Long: the answer, the state after it, each fault and the crash states have each a clause.
fn answer_in_full<S: PlanStore>(
    alloc: Global,
    desk: &mut Desk<S>,
    sent: &(Moment, Vec<u8>),
) -> Result<Answer, ReplayFault>
    ensures ok { IsHonest (S.doubt desk.new.store) → IfOk result (λ answer. answer.bytes.items
        ≡ text_for (world_of S.content desk.old) sent.now.0.second (asked_in sent.now.1.items)) }
    ensures change { IsHonest (S.doubt desk.new.store) → IfOk result (λ answer. answer.made_change
        ≡ makes_change_for (world_of S.content desk.old) sent.now.0.second (asked_in sent.now.1.items)) }
    ensures state { IsHonest (S.doubt desk.new.store) → IfOk result (λ _. world_of S.content desk.new
        ≡ world_after (world_of S.content desk.old) sent.now.0.second (asked_in sent.now.1.items)) }
    ensures err { OnErr result (world_of S.content desk.new ≡ world_of S.content desk.old) }
    ensures fault { IfErr result IsDeskFault }
    ensures kept { OnOk result (StaysSettled S.PlanStore desk.old desk.new) }
    ensures cause { IfErr result (λ f. f ≡ replay_fault.Store
        → HasRisen (S.faults desk.old.store) (S.faults desk.new.store)) }
    ensures remembered { Remembers S.doubt S.faults S.is_shielded desk.old.store desk.new.store }
{
    let answer = answer_with_status(alloc, desk, sent.0, &sent.1)?;
    match answer.error {
        None => Ok(answer),
        Some(ServerError::Store) => Err(ReplayFault::Store),
        Some(ServerError::OutOfMemory) => Err(ReplayFault::OutOfMemory),
    }
}

// Compares the recorded `answer`, whose request has the Unix second `second`, with the desk's. If they are
// equal, the request is answered. If the recorded one says that the desk failed (a 500), any answer of the
// desk is accepted, but the request stays unanswered: the next file has to repeat it. Else the error is
// `Differs`; `NoRecord` if no such request is unanswered in this file.
#[tactic(auto, unfolding(crate::specs::Replaying::answer_outcome))]
fn compare_answer(progress: &mut Progress, second: u64, answer: &[u8]) -> Result<(), ReplayFault>
    ensures { (w : DeskWorld)
        → GivesOutcome result (answer_outcome (progress_state w progress.old) second answer.now)
        (progress_state w progress.old) (progress_state w progress.new) }
{
    let Some(asking) = &progress.asking else {
        return Err(ReplayFault::NoRecord);
    };
    if asking.reopened || asking.second != second {
        return Err(ReplayFault::NoRecord);
    }
    if is_expected(asking, answer) {
        progress.asking = None;
        return Ok(());
    }
    if is_500(answer) {
        Ok(())
    } else {
        Err(ReplayFault::Differs)
    }
}

/// Whether `answer` is one of the two answers with the status 500, which say that the desk failed.
pub fn is_500(answer: &[u8]) -> bool
    ensures { result ≡ is_failure answer.now }
{
    answer == out_of_memory_answer() || answer == store_answer()
}

// Whether `answer` is the desk's answer to the request `asking`: the one of now, or, if the request is
// repeated, the one when it was carried out first.
fn is_expected(asking: &UnansweredRequest, answer: &[u8]) -> bool
    ensures { result ≡ spec.is_expected_answer (asking_shown asking.now) answer.now }
{
    answer == asking.answer.as_slice() || is_first_answer(&asking.before, answer)
}

// Whether `answer` is `before`, the first answer to a repeated request; false if it isn't repeated.
fn is_first_answer(before: &Option<Vec<u8>>, answer: &[u8]) -> bool
    ensures { result ≡ spec.is_first (bytes_of (λ v. v.items) before.now) answer.now }
{
    matches!(before, Some(before) if answer == before.as_slice())
}
