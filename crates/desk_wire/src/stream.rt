//! Connections: requests read from a stream, and their answers written to one.

ghost use Rattle.std.specs.Prelude.{◌≡◌, ◌<◌, ◌+◌, ◌++◌, [], length, take, IfErr, IfOk, IfSome, None};
ghost use Rattle.std.specs.{Result.is_ok, Io.KnownBytes.Appends, Io.KnownBytes.Consumes, Io.KnownBytes.IsAtEnd};
ghost use Rattle.io_ends.specs.Reading.{HaveGivenUp};
ghost use Rattle.request_parser.specs.Messages.{message_read};
ghost use Rattle.desk_store.specs.Changes.{Remembers, IsHonest};
ghost use Rattle.desk_run.specs.Verdicts.{world_of};
ghost use Rattle.desk_wire.specs.{Bytes.HasFailed, Bytes.HasStatus500, Given.IsServedKept};
ghost use Rattle.desk_wire.specs.Streams.{passage, HasServed, IsTaken, IsGivenUp, Stops, IsCut, max_reads, IsFront, byte_list, front_parsed, front_result, size_or_zero, with_body};

use crate::answering::answer_request;
use crate::receive_fault::ReceiveFault;
use desk_run::Desk;
use desk_store::PlanStore;
use io_ends::{
    Moment, ReadError, ReadLimit, ServeFault, Served, read_up_to, read_within, write_whole,
};
use request_parser::{Front, HEAD_ROOM, Message, WireFault, is_ended, read_front};
use std::alloc::Global;
use std::io::{Read, Write};

// The maximum number of reads for one request, interrupted ones included.
const MAX_READS: u32 = 200_000;

/// Reads one request from `input`, carries it out at `moment`, and writes the answer to `output`; or returns
/// `End` if the input has ended. The head is read byte by byte, so that nothing after the request is
/// consumed. Interrupted reads and writes are retried.
///
/// # Errors
///
/// Those of `ServeFault`, which says for each what was changed.
pub fn serve_one<S: PlanStore, R: Read, W: Write>(
    alloc: Global,
    desk: &mut Desk<S>,
    moment: Moment,
    input: &mut R,
    output: &mut W,
) -> Result<Served, ServeFault>
    ensures served { HasServed (IsHonest (S.doubt desk.new.store)) result
        (passage R.Read W.Write input.old input.new output.old output.new)
        (world_of S.content desk.old) moment.second (world_of S.content desk.new) }
    ensures kept { IsServedKept S.PlanStore desk.old desk.new result
        (passage R.Read W.Write input.old input.new output.old output.new) moment.second }
    ensures remembered { Remembers S.doubt S.faults S.is_shielded desk.old.store desk.new.store }
    ensures cause { IfOk result (λ served. HasStatus500 served → HasFailed (Appends (W.contents output.old)
        (W.contents output.new)) (S.faults desk.old.store) (S.faults desk.new.store)) }
{
    let mut limit = ReadLimit::total(MAX_READS);
    let text = receive_head(alloc, input, &mut limit)?;
    if text.is_empty() {
        return Ok(Served::End);
    }
    let front = parse_front(&text);
    let body = receive_body(alloc, input, body_size(&front), &mut limit)?;
    let request = attach_body(front, &body);
    let answer = answer_request(alloc, desk, moment, &request)?;
    write_whole(output, &answer.bytes)?;
    Ok(served(answer.status, &request))
}

/// Reads the bytes of one request from `input`, as they are; they are empty if the input has ended. The head
/// is read byte by byte, so that nothing after the request is consumed. Interrupted reads are retried.
///
/// # Errors
///
/// Those of `ReceiveFault`; `Unread` if a read failed, or after `MAX_READS` reads, which say so.
pub fn receive_request<R: Read>(alloc: Global, input: &mut R) -> Result<Vec<u8>, ReceiveFault<R>>
    ensures taken { IfOk result (λ request. 0 < length request.items
        → IsTaken (R.remaining input.old) (R.remaining input.new) request.items) }
    ensures end { IfOk result (λ request. request.items ≡ [] → IsAtEnd (R.remaining input.old)) }
    ensures fault { IfErr result (Stops (IfSome (R.remaining input.old) IsCut)) }
    ensures reads { IfErr result (IsGivenUp max_reads) }
{
    let mut limit = ReadLimit::total(MAX_READS);
    let mut request = receive_head(alloc, input, &mut limit)?;
    if request.is_empty() {
        return Ok(request);
    }
    let body = receive_body(alloc, input, body_size(&parse_front(&request)), &mut limit)?;
    request.extend_from_slice(&body)?;
    Ok(request)
}

// The result of serving `request`, which was answered with `status`: it is framed if it could be split into
// head and body.
fn served(status: u16, request: &Result<Message<'_>, WireFault>) -> Served
    ensures { result ≡ Served.Answered status (is_ok request.now) }
{
    Served::Answered {
        status,
        framed: request.is_ok(),
    }
}

// Parses `text`, the bytes read as a head, and finds the length of the body that is to follow. `HeadTooLarge`
// if no head ends with them.
#[tactic(auto, unfolding(crate::specs::Streams::front_parsed))]
fn parse_front(text: &[u8]) -> Result<Front<'_>, WireFault>
    ensures { front_result result ≡ front_parsed text.now }
{
    if is_ended(text) {
        read_front(text)
    } else {
        Err(WireFault::HeadTooLarge)
    }
}

// The length of the body that is to be read after `front`, in bytes: 0 after a fault, since it isn't known
// then.
fn body_size(front: &Result<Front<'_>, WireFault>) -> u64
    ensures { result ≡ size_or_zero (front_result front.now) }
{
    front.as_ref().map_or(0, |front| front.size)
}

// The request with the head of `front` and with `body`, or the fault of the head.
fn attach_body<'t>(
    front: Result<Front<'t>, WireFault>,
    body: &'t [u8],
) -> Result<Message<'t>, WireFault>
    ensures { message_read result ≡ with_body (front_result front.entry) body.now }
{
    let Front { head, .. } = front?;
    Ok(Message { head, body })
}

// Reads a head byte by byte, up to its end or to `HEAD_ROOM` bytes. It is empty if the input has ended.
// `CutShort` if the input ends inside it. `limit` is for the reads of the whole request.
fn receive_head<R: Read>(
    alloc: Global,
    input: &mut R,
    limit: &mut ReadLimit<R>,
) -> Result<Vec<u8>, ReceiveFault<R>>
    ensures taken { IfOk result (λ text.
        Consumes (R.remaining input.old) (R.remaining input.new) text.items) }
    ensures front { IfOk result (λ text. 0 < length text.items → IsFront text.items) }
    ensures end { IfOk result (λ text. text.items ≡ [] → IsAtEnd (R.remaining input.new)) }
    ensures fault { IfErr result (Stops (IfSome (R.remaining input.old) IsCut)) }
    ensures reads { IfErr result (IsGivenUp limit.old.limit) }
    ensures limit { limit.new.limit ≡ limit.old.limit }
{
    let mut text = Vec::new(alloc);
    for _ in 0..HEAD_ROOM {
        if is_ended(&text) {
            return Ok(text);
        }
        let Some(byte) = receive_byte(input, limit)? else {
            return if text.is_empty() {
                Ok(text)
            } else {
                Err(ReceiveFault::CutShort)
            };
        };
        text.extend_from_slice(&[byte])?;
    }
    Ok(text)
}

// The next byte of `input`. None if the input has ended. `limit` is for the reads of the whole request.
fn receive_byte<R: Read>(
    input: &mut R,
    limit: &mut ReadLimit<R>,
) -> Result<Option<u8>, ReadError<R>>
    ensures taken { IfOk result (λ byte.
        Consumes (R.remaining input.old) (R.remaining input.new) (byte_list byte)) }
    ensures end { IfOk result (λ byte. byte ≡ None → IsAtEnd (R.remaining input.new)) }
    ensures reads { IfErr result (λ error. HaveGivenUp limit.old.limit error.reads) }
    ensures limit { limit.new.limit ≡ limit.old.limit }
{
    let mut room = [0u8];
    let count = read_within(input, &mut room, limit)?;
    Ok((count > 0).then_some(room[0]))
}

// Reads a body of `size` bytes. `CutShort` if the input ends before. `limit` is for the reads of the whole
// request.
fn receive_body<R: Read>(
    alloc: Global,
    input: &mut R,
    size: u64,
    limit: &mut ReadLimit<R>,
) -> Result<Vec<u8>, ReceiveFault<R>>
    ensures taken { IfOk result (λ body.
        Consumes (R.remaining input.old) (R.remaining input.new) body.items) }
    ensures size { IfOk result (λ body. length body.items ≡ size) }
    ensures fault { IfErr result (Stops (IfSome (R.remaining input.old) (λ rest. length rest < size))) }
    ensures reads { IfErr result (IsGivenUp limit.old.limit) }
{
    let body = read_up_to(alloc, input, size, limit)?;
    if (body.len() as u64) < size {
        return Err(ReceiveFault::CutShort);
    }
    Ok(body)
}
