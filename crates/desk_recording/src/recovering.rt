//! Recovery at a start: what the last journal file left pending is done at the desk. That is a request
//! without an answer, and operators that were to be enrolled.

ghost use Rattle.std.specs.Prelude.{◌≡◌, ◌≤◌, ◌⊎◌, IsTrue, IfErr, IfOk, OnOk};
ghost use Rattle.desk_rules.specs.Limits.{max_priority};
ghost use Rattle.desk_store.specs.Changes.{HasRisen, IsHonest, Remembers};
ghost use Rattle.desk_run.specs.{Calls.IsBreakdown, Verdicts.world_of};
ghost use Rattle.desk_wire.specs.Streams.{course};
ghost use Rattle.desk_cli.specs.{Exits.enrolment_failure, Lines.AreEnrolments};
ghost use Rattle.desk_replay.specs.Replaying.{IsDeskFault, StaysSettled};
ghost use Rattle.desk_recording.specs.{Recording.AddsStep, Recording.Answered, Recording.Lost, Recording.parting_of, Tail.unanswered_in, Tail.unanswered_shown};
ghost use Rattle.desk_recording.specs.Recovering as spec;
ghost use Rattle.desk_recording.specs.Recovering.{RedoesRequest, RedoesIfPending, Recovers, ended_as, parting_without_client, undone};

use crate::record::{Exchange, Record, RecordFault};
use crate::tail::PendingRequest;
use desk_cli::{Enrolment, ErrorCode};
use desk_program::{ExchangeEnd, set_up};
use desk_replay::{ReplayFault, answer_one};
use desk_rules::decide::MAX_PRIORITY;
use desk_rules::operator::Operator;
use desk_rules::terms::Terms;
use desk_run::{Desk, DeskFault};
use desk_store::PlanStore;
use io_ends::Moment;
use std::alloc::{AllocError, Global};
use volume4d::MAX_SECOND;

/// Why a recovery failed; `R` is the new journal to which the repeated request is written.
#[derive_where(Clone, Copy)]
pub enum RecoveryError<R> {
    /// Memory ran out.
    OutOfMemory,
    /// The desk's store failed.
    Store,
    /// The Unix second of the request is out of range.
    Clock,
    /// The request or its answer could not be written to the journal.
    JournalError(RecordFault<R>),
}

impl<R> From<RecoveryError<R>> for ErrorCode {
    ghost use Rattle.std.specs.Prelude.{◌≡◌};
    ghost use Rattle.desk_recording.specs.Recovering.{failure_of};

    ghost from_gives = { λ why failure. failure ≡ failure_of why };

    // The error code of a command whose recovery failed with `why`.
    fn from(why: RecoveryError<R>) -> ErrorCode {
        match why {
            RecoveryError::OutOfMemory => ErrorCode::Memory,
            RecoveryError::Store => ErrorCode::Store,
            RecoveryError::Clock => ErrorCode::Clock,
            RecoveryError::JournalError(_) => ErrorCode::Broken,
        }
    }
}

/// Those of `enrolments`, in their order, whose operators aren't enrolled yet; `roll` lists the enrolled
/// ones, whatever their ceilings. An enrolment with a ceiling above 1,000 is left out.
///
/// # Errors
///
/// `AllocError` if memory runs out.
pub fn missing_enrolments(
    alloc: Global,
    roll: &[Enrolment],
    enrolments: &[Enrolment],
) -> Result<Vec<Enrolment>, AllocError>
    ensures missing { IfOk result (λ missing.
        missing.items ≡ spec.missing_enrolments roll.now enrolments.now) }
    ensures in_range { IfOk result (λ missing. AreEnrolments missing.items) }
{
    let mut missing = Vec::new(alloc);
    for enrolment in enrolments {
        if is_missing(roll, enrolment) {
            missing.push(*enrolment)?;
        }
    }
    Ok(missing)
}

// Whether the operator of `enrolment` isn't on the `roll` of enrolled ones, and its ceiling is at most 1,000.
fn is_missing(roll: &[Enrolment], enrolment: &Enrolment) -> bool
    ensures missing { result ≡ spec.is_missing roll.now enrolment.now }
    ensures in_range { IsTrue result → enrolment.now.ceiling ≤ max_priority }
{
    enrolment.ceiling <= MAX_PRIORITY && !is_enrolled(roll, &enrolment.operator)
}

// Whether `operator` is on the `roll` of enrolled operators.
fn is_enrolled(roll: &[Enrolment], operator: &Operator) -> bool
    ensures { result ≡ spec.is_on_roll roll.now operator.now }
{
    roll.iter().any(|enrolment| enrolment.operator == *operator)
}

/// Sets the `terms` (the settings) of the last journal file at the desk, enrols the operators that are
/// `missing` there, and repeats the request `asked`, if that file has one without an answer, at its own
/// second. The request is written to the new `journal` before it is carried out, and its answer after that.
/// What the desk has then is promised if the disk has returned what was written (`IsHonest`).
///
/// # Errors
///
/// As `RecoveryError` says. Some of the operators may be enrolled then. If the desk failed at the request,
/// the request has changed nothing; if only its answer can't be written, it is carried out.
#[tactic(auto, using(crate::proofs::RecoveringLemmas::recovers, crate::proofs::RecoveringLemmas::unlisted))]
pub fn recover<S: PlanStore, R: Record>(
    alloc: Global,
    desk: &mut Desk<S>,
    terms: &Terms,
    missing: &[Enrolment],
    asked: Option<PendingRequest>,
    journal: &mut R,
) -> Result<(), RecoveryError<R>>
    requires { AreEnrolments missing.now }
    ensures recovers { Recovers (IsHonest (S.doubt desk.new.store))
        (undone terms.now missing.now (unanswered_in asked))
        (course (world_of S.content desk.old) (world_of S.content desk.new))
        (course (R.steps journal.old) (R.steps journal.new)) (ended_as result) }
    ensures remembered { Remembers S.doubt S.faults S.is_shielded desk.old.store desk.new.store }
    ensures kept { OnOk result (StaysSettled S.PlanStore desk.old desk.new) }
    ensures cause { IfErr result (λ why. spec.failure_of why ≡ ErrorCode.Store
        → HasRisen (S.faults desk.old.store) (S.faults desk.new.store)) }
{
    if let Err(fault) = set_up(desk, terms, missing) {
        return Err(enrolment_error(fault));
    }
    redo_if_pending(alloc, desk, asked, journal)
}

// The error of a recovery at which enrolling an operator failed with `fault`: memory ran out, or the store
// failed. A recovery's enrolments fail for no other reason.
fn enrolment_error<R>(fault: DeskFault) -> RecoveryError<R>
    ensures failure { IsBreakdown fault → spec.failure_of result ≡ enrolment_failure fault }
    ensures cause { IsBreakdown fault → spec.failure_of result ≡ ErrorCode.Store → fault ≡ DeskFault.Store }
{
    match fault {
        DeskFault::OutOfMemory => RecoveryError::OutOfMemory,
        _ => RecoveryError::Store,
    }
}

// Repeats the request `asked`, if there is one, as `redo_request` does.
fn redo_if_pending<S: PlanStore, R: Record>(
    alloc: Global,
    desk: &mut Desk<S>,
    asked: Option<PendingRequest>,
    journal: &mut R,
) -> Result<(), RecoveryError<R>>
    ensures asks { RedoesIfPending (IsHonest (S.doubt desk.new.store)) (unanswered_in asked)
        (course (world_of S.content desk.old) (world_of S.content desk.new))
        (course (R.steps journal.old) (R.steps journal.new)) (ended_as result) }
    ensures remembered { Remembers S.doubt S.faults S.is_shielded desk.old.store desk.new.store }
    ensures kept { OnOk result (StaysSettled S.PlanStore desk.old desk.new) }
    ensures cause { IfErr result (λ why. spec.failure_of why ≡ ErrorCode.Store
        → HasRisen (S.faults desk.old.store) (S.faults desk.new.store)) }
{
    match asked {
        Some(asked) => redo_request(alloc, desk, asked, journal),
        None => Ok(()),
    }
}

// Carries out the request `asked`, which has no answer, at its own second. It is written to `journal` before,
// and its answer after that. If the second is out of range (`Clock`) or the request can't be written
// (`JournalError`), it isn't carried out. If the desk fails or the answer can't be written, `journal` notes
// that the answer is lost.
#[tactic(auto, using(crate::proofs::RecoveringLemmas::both_added))]
fn redo_request<S: PlanStore, R: Record>(
    alloc: Global,
    desk: &mut Desk<S>,
    asked: PendingRequest,
    journal: &mut R,
) -> Result<(), RecoveryError<R>>
    ensures asks { RedoesRequest (IsHonest (S.doubt desk.new.store)) (unanswered_shown asked)
        (course (world_of S.content desk.old) (world_of S.content desk.new))
        (course (R.steps journal.old) (R.steps journal.new)) (ended_as result) }
    ensures remembered { Remembers S.doubt S.faults S.is_shielded desk.old.store desk.new.store }
    ensures kept { OnOk result (StaysSettled S.PlanStore desk.old desk.new) }
    ensures cause { IfErr result (λ why. spec.failure_of why ≡ ErrorCode.Store
        → HasRisen (S.faults desk.old.store) (S.faults desk.new.store)) }
{
    let PendingRequest { second, request } = asked;
    if second > MAX_SECOND as u64 {
        return Err(RecoveryError::Clock);
    }
    let moment = Moment {
        second: second as i64,
    };
    let sent = (moment, request);
    if let Err(fault) = journal.append_request(sent.0, &sent.1) {
        return Err(RecoveryError::JournalError(RecordFault::by(fault)));
    }
    match answer_one(alloc, desk, &sent) {
        Ok(answer) => record_redone_answer(journal, &answer),
        Err(fault) => {
            journal.note_lost_answer(exchange_without_client(b""));
            Err(replay_error(fault))
        }
    }
}

// Writes the answer to the repeated request to `journal`; it isn't sent to any client. `JournalError` if that
// fails: then `journal` notes that the answer is lost.
fn record_redone_answer<R: Record>(journal: &mut R, answer: &[u8]) -> Result<(), RecoveryError<R>>
    ensures ok { OnOk result
        (AddsStep (R.steps journal.old) (R.steps journal.new)
        (Answered (parting_without_client answer.now))) }
    ensures err { IfErr result (λ why. (spec.failure_of why ≡ ErrorCode.Broken)
        × AddsStep (R.steps journal.old) (R.steps journal.new) (Lost (parting_without_client answer.now))) }
{
    let connection = exchange_without_client(answer);
    match journal.append_answer(connection) {
        Ok(()) => Ok(()),
        Err(fault) => {
            journal.note_lost_answer(connection);
            Err(RecoveryError::JournalError(RecordFault::by(fault)))
        }
    }
}

// The exchange of a repeated request as the journal is told of it. It has no client; the request counts as
// read whole and answered whole.
fn exchange_without_client(answer: &[u8]) -> Exchange<'_>
    ensures { parting_of result ≡ spec.parting_without_client answer.now }
{
    Exchange {
        unread: b"",
        sent: answer,
        outcome: ExchangeEnd {
            is_whole: true,
            is_answered: true,
        },
    }
}

// The error of a recovery at which repeating the request failed with `fault`: memory ran out, or the store
// failed. `answer_one` fails for no other reason.
fn replay_error<R>(fault: ReplayFault) -> RecoveryError<R>
    ensures memory_or_store { (spec.failure_of result ≡ ErrorCode.Memory)
        ⊎ (spec.failure_of result ≡ ErrorCode.Store) }
    ensures cause { IsDeskFault fault → spec.failure_of result ≡ ErrorCode.Store → fault ≡ ReplayFault.Store }
{
    match fault {
        ReplayFault::OutOfMemory => RecoveryError::OutOfMemory,
        _ => RecoveryError::Store,
    }
}
