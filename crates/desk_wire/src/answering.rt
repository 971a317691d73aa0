//! One request answered by a desk, from bytes to bytes.

ghost use Rattle.std.specs.Prelude.{◌≡◌, ◌≢◌, false, IfErr, IfOk, OnOk, OnErr, Ok};
ghost use Rattle.request_parser.specs.{Messages.message_read, Messages.message_shown, Messages.or_met, Requests.asked as asked_in, Requests.asked_by};
ghost use Rattle.desk_store.specs.Changes.{IsHonest};
ghost use Rattle.desk_run.specs.{Calls.Leaves, Calls.CanCommit, Calls.has_change, Calls.reply_in, Calls.world_committed, Verdicts.world_of};
ghost use Rattle.desk_rules.specs.Outcome.{said_in};
ghost use Rattle.desk_writing.specs.ReplyText.{reply_text};
ghost use Rattle.desk_wire.specs.Bytes.{IsAnswerReported, IsMadeAnswer, world_after, failure_of, failure_reported, refusal_status, refusal_text};
ghost use Rattle.desk_wire.specs.Streams.{IsAnswered};

use crate::refusal::Refusal;
use crate::response::{Answer, ServerError};
use desk_run::{Asked, Desk, DeskFault, Pending};
use desk_store::PlanStore;
use desk_writing::{error_answer, reply_answer};
use http::StatusCode;
use io_ends::Moment;
use request_parser::{Message, ReadError, WireFault, parse_message, read_message};
use std::alloc::{AllocError, Global};

// How many bytes are reserved before a request is carried out: enough for any answer with the status 500.
const RESERVED_LEN: usize = 512;

// An answer whose status is not 500.
#[derive(Drop)]
struct Response {
    status: u16,
    bytes: Vec<u8>,
    made_change: bool,
}

/// Carries out `text`, the bytes of one whole request, at `moment`, and returns the bytes of the answer.
///
/// # Errors
///
/// `AllocError` if memory runs out before the request is carried out: nothing changed. If memory runs out
/// later, or the store fails, the answer has the status 500 and nothing changed; but the next start may find
/// the change made.
pub fn answer<S: PlanStore>(
    alloc: Global,
    desk: &mut Desk<S>,
    moment: Moment,
    text: &[u8],
) -> Result<Vec<u8>, AllocError>
    ensures answered { IfOk result (λ bytes.
        IsAnswered S.PlanStore desk.old desk.new moment.second text.now bytes.items) }
    ensures err { OnErr result (desk.new ≡ desk.old) }
{
    let answer = answer_request(alloc, desk, moment, &read_message(text))?;
    Ok(answer.bytes)
}

/// Carries out `text` as `answer` does, and also returns the status code, why the desk failed, if it did, and
/// whether the database was changed.
///
/// # Errors
///
/// `AllocError`, as in `answer`.
pub fn answer_with_status<S: PlanStore>(
    alloc: Global,
    desk: &mut Desk<S>,
    moment: Moment,
    text: &[u8],
) -> Result<Answer, AllocError>
    ensures reported { IfOk result (IsAnswerReported (IsHonest (S.doubt desk.new.store))
        (world_of S.content desk.old) moment.second (asked_in text.now) (world_of S.content desk.new)) }
    ensures leaves { Leaves S.PlanStore desk.old desk.new
        (world_after (world_of S.content desk.old) moment.second (asked_in text.now)) (failure_reported result) }
    ensures err { OnErr result (desk.new ≡ desk.old) }
{
    answer_request(alloc, desk, moment, &read_message(text))
}

/// Carries out `request`, which is split into head and body already, at `moment`. If it is a fault, because
/// it could not be split, the answer says so. Memory for an answer 500 is reserved first.
///
/// `Ok` has the answer, also if the request was refused. If the store failed, or memory ran out after this
/// reservation, it is the answer 500, and its `error` says why.
///
/// # Errors
///
/// `AllocError` if this memory can't be reserved: nothing changed.
pub fn answer_request<S: PlanStore>(
    alloc: Global,
    desk: &mut Desk<S>,
    moment: Moment,
    request: &Result<Message<'_>, WireFault>,
) -> Result<Answer, AllocError>
    ensures reported { IfOk result (IsAnswerReported (IsHonest (S.doubt desk.new.store))
        (world_of S.content desk.old) moment.second (or_met (message_read request.now) asked_by)
        (world_of S.content desk.new)) }
    ensures leaves { Leaves S.PlanStore desk.old desk.new
        (world_after (world_of S.content desk.old) moment.second (or_met (message_read request.now) asked_by))
        (failure_reported result) }
    ensures err { OnErr result (desk.new ≡ desk.old) }
{
    let mut room = Vec::with_capacity(alloc, RESERVED_LEN)?;
    match respond(alloc, desk, moment, request) {
        Ok(response) => Ok(Answer {
            status: response.status,
            bytes: response.bytes,
            error: None,
            made_change: response.made_change,
        }),
        Err(error) => {
            // This `?` would hand on an `AllocError`. It can't occur: the answer fits the memory reserved.
            room.extend_from_slice(error.answer())?;
            Ok(Answer {
                status: StatusCode::INTERNAL_SERVER_ERROR.as_u16(),
                bytes: room,
                error: Some(error),
                made_change: false,
            })
        }
    }
}

// The answer to `request`, a request split into head and body, or a fault. An error says why the answer has
// to be a 500; nothing has changed then.
fn respond<S: PlanStore>(
    alloc: Global,
    desk: &mut Desk<S>,
    moment: Moment,
    request: &Result<Message<'_>, WireFault>,
) -> Result<Response, ServerError>
    ensures made { IfOk result (IsMadeAnswer (IsHonest (S.doubt desk.new.store)) (world_of S.content desk.old)
        moment.second (or_met (message_read request.now) asked_by) (world_of S.content desk.new)) }
    ensures leaves { Leaves S.PlanStore desk.old desk.new
        (world_after (world_of S.content desk.old) moment.second (or_met (message_read request.now) asked_by))
        (failure_of result) }
{
    match request {
        Ok(message) => answer_message(alloc, desk, moment, message),
        Err(fault) => refuse(alloc, Refusal::Fault(*fault)),
    }
}

// Parses `message`, a request, and carries it out. The errors are those of `respond`.
fn answer_message<S: PlanStore>(
    alloc: Global,
    desk: &mut Desk<S>,
    moment: Moment,
    message: &Message<'_>,
) -> Result<Response, ServerError>
    ensures made { IfOk result (IsMadeAnswer (IsHonest (S.doubt desk.new.store)) (world_of S.content desk.old)
        moment.second (asked_by (message_shown message.now)) (world_of S.content desk.new)) }
    ensures leaves { Leaves S.PlanStore desk.old desk.new
        (world_after (world_of S.content desk.old) moment.second (asked_by (message_shown message.now)))
        (failure_of result) }
{
    match parse_message(alloc, message) {
        Ok(asked) => answer_call(alloc, desk, moment, &asked),
        Err(ReadError::Fault(fault)) => refuse(alloc, Refusal::Fault(fault)),
        Err(ReadError::OutOfMemory) => Err(ServerError::OutOfMemory),
    }
}

// Carries out `asked`, an operator's call: prepares its reply and its change, and then commits the change.
// The errors are those of `respond`. (`Ceiling` can't occur here: it is a fault of enrolments alone.)
fn answer_call<S: PlanStore>(
    alloc: Global,
    desk: &mut Desk<S>,
    moment: Moment,
    asked: &Asked,
) -> Result<Response, ServerError>
    ensures made { IfOk result (IsMadeAnswer (IsHonest (S.doubt desk.new.store)) (world_of S.content desk.old)
        moment.second (Ok asked.now) (world_of S.content desk.new)) }
    ensures leaves { Leaves S.PlanStore desk.old desk.new
        (world_after (world_of S.content desk.old) moment.second (Ok asked.now)) (failure_of result) }
{
    match desk.prepare(alloc, moment.second, asked) {
        Ok(pending) => answer_pending(alloc, desk, pending),
        Err(DeskFault::UnknownOperator) => refuse(alloc, Refusal::UnknownOperator),
        Err(DeskFault::NoSuchPlan) => refuse(alloc, Refusal::NoSuchPlan),
        Err(DeskFault::Store) => Err(ServerError::Store),
        Err(DeskFault::OutOfMemory | DeskFault::Ceiling) => Err(ServerError::OutOfMemory),
    }
}

// Makes the answer to a prepared call, and only then commits its change, so that nothing can fail after the
// commit. The errors are those of `respond`.
fn answer_pending<S: PlanStore>(
    alloc: Global,
    desk: &mut Desk<S>,
    pending: Pending,
) -> Result<Response, ServerError>
    requires { IsHonest (S.doubt desk.old.store) → CanCommit (world_of S.content desk.old) pending }
    ensures bytes { IfOk result (λ r. r.bytes.items
        ≡ reply_text (said_in (reply_in pending))) }
    ensures status { IfOk result (λ r. r.status ≡ 200) }
    ensures change { IfOk result (λ r. r.made_change ≡ has_change pending) }
    ensures ok { IsHonest (S.doubt desk.new.store) → OnOk result
        (world_of S.content desk.new ≡ world_committed (world_of S.content desk.old) pending) }
    ensures leaves { Leaves S.PlanStore desk.old desk.new
        (world_committed (world_of S.content desk.old) pending) (failure_of result) }
{
    let bytes = reply_answer(alloc, pending.reply())?;
    let made_change = pending.has_change();
    match desk.commit(pending) {
        Ok(_) => Ok(Response {
            status: StatusCode::OK.as_u16(),
            bytes,
            made_change,
        }),
        Err(DeskFault::Store) => Err(ServerError::Store),
        Err(_) => Err(ServerError::OutOfMemory),
    }
}

// The answer to a request that is refused for the reason `refusal`. It fails only if memory runs out.
#[tactic(auto, unfolding(crate::specs::Bytes::refusal_text))]
fn refuse(alloc: Global, refusal: Refusal) -> Result<Response, ServerError>
    ensures bytes { IfOk result (λ r. r.bytes.items ≡ refusal_text refusal) }
    ensures status { IfOk result (λ r. r.status ≡ refusal_status refusal) }
    ensures not_500 { IfOk result (λ r. r.status ≢ 500) }
    ensures change { IfOk result (λ r. r.made_change ≡ false) }
    ensures error { IfErr result (λ e. e ≡ ServerError.OutOfMemory) }
{
    let bytes = error_answer(alloc, refusal.status(), refusal.allow(), refusal.word())?;
    Ok(Response {
        status: refusal.status().as_u16(),
        bytes,
        made_change: false,
    })
}
