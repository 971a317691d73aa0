//! A port whose connections are recorded. It is made of a port below, which gives one connection after the
//! other, and a journal.

ghost use Rattle.std.specs.Prelude.{◌≡◌, ◌⊎◌, false, true, Err, None, Some, IfErr, IfOk, IsSome, OnErr, OnOk};
ghost use Rattle.std.specs.{Option.IsNone, Option.is_none, Option.is_some, Result.is_ok, Io.Cursor.cursor_inner, Io.Cursor.cursor_remaining};
ghost use Rattle.desk_wire.specs.{Streams.course, Bytes.server_error_text};
ghost use Rattle.desk_wire.specs.declared.response.ServerError.TheVariants.{Store};
ghost use Rattle.desk_cli.specs.Lines.{AreEnrolments};
ghost use Rattle.desk_program.specs.Enrolling.{IsOpen, with_answer};
ghost use Rattle.desk_program.specs.Serving.{BringsEnrolments, Closes, AddsNothingNew, IsPortError, IsFresh, Listens, TakesArrival, arrived};
ghost use Rattle.desk_recording.specs.Recording.{AddsIf, AddsStep, Answered, IsClosedBy, IsTakenFrom, Notes, Sends, SendsKept, client_of, parting_of, IsReceived};
ghost use Rattle.desk_recording.specs.Inputs as spec;
ghost use Rattle.desk_recording.specs.Inputs.{parted_in, reported_of};

use crate::record::{Exchange, Record, RecordFault};
use crate::streams::{BufferedRequest, BufferedResponse};
use desk_cli::{Enrolment, ErrorCode};
use desk_program::{ClientStream, ExchangeEnd, Port};
use desk_wire::{ReceiveFault, ServerError, receive_request};
use io_ends::{ReadError, WriteError, write_whole};
use std::alloc::{AllocError, Global};
use std::io::{Cursor, Read, Write};

// The end of an exchange whose request was read and isn't answered.
const UNANSWERED: ExchangeEnd = ExchangeEnd {
    is_whole: true,
    is_answered: false,
};

/// Why a recorded port accepts no more connections; `R` is its journal.
#[derive_where(Clone, Copy)]
pub(crate) enum StopCause<R> {
    /// An entry could not be written to the journal.
    JournalError(RecordFault<R>),
    /// A request got no whole answer from the desk, so none could be recorded.
    NoAnswer,
}

/// A port over another one. It flushes each request to its journal before the desk reads it, and appends each
/// answer before it is sent. Once an entry can't be written or a request gets no whole answer, it accepts no
/// more connections.
#[derive(Drop)]
pub struct RecordedPort<P: Drop, R: Drop> {
    pub(crate) port: P,
    journal: R,
    // Why no more connections are accepted, if so.
    broken: Option<StopCause<R>>,
}

impl<P: Port + Drop, R: Record + Drop> RecordedPort<P, R> {
    /// A port that records the connections of `port` in `journal`.
    pub fn new(port: P, journal: R) -> RecordedPort<P, R>
        ensures port { result.port ≡ port }
        ensures journal { result.journal ≡ journal }
        ensures whole { result.broken ≡ None }
    {
        RecordedPort {
            port,
            journal,
            broken: None,
        }
    }
}

impl<P: Port + Drop, R: Record + Drop> Port for RecordedPort<P, R> {
    type Input = BufferedRequest<P::Input>;

    type Output = BufferedResponse<P::Output>;

    ghost traffic = { λ s. reported_of R.Record s };

    // Has the port below listen at the TCP port `number`.
    fn listen(&mut self, number: u16) -> Result<(), ErrorCode>
        ensures listens { Listens (reported_of R.Record self.old) (reported_of R.Record self.new) number
            (is_ok result) }
        ensures asked { Listens (P.traffic self.old.port) (P.traffic self.new.port) number (is_ok result) }
        ensures fault { IfErr result IsPortError }
        ensures kept { self.new.broken ≡ self.old.broken }
    {
        self.port.listen(number)
    }

    // Takes the new enrolments of the port below, and writes them to the journal before the desk makes them.
    // The error is `Broken` if they can't be written, or the port accepts no more connections; else it is
    // that of the port below (`port_error`).
    #[tactic(auto, using(crate::proofs::StepLemmas::brings_enrolments))]
    fn newly_enrolled(&mut self, alloc: Global) -> Result<Vec<Enrolment>, ErrorCode>
        ensures small { IfOk result (λ newly_enrolled. AreEnrolments newly_enrolled.items) }
        ensures brings { IfOk result (λ newly_enrolled.
            BringsEnrolments (reported_of R.Record self.old) (reported_of R.Record self.new) newly_enrolled.items) }
        ensures same { OnErr result (AddsNothingNew (reported_of R.Record self.old) (reported_of R.Record self.new)) }
        ensures fault { IfErr result IsPortError }
        ensures asked { IfOk result (λ newly_enrolled.
            BringsEnrolments (P.traffic self.old.port) (P.traffic self.new.port) newly_enrolled.items) }
        ensures broken { IsSome self.old.broken → result ≡ Err ErrorCode.Broken }
        ensures cause { result ≡ Err ErrorCode.Broken → IsSome self.new.broken }
        ensures lost { self.new.broken ≡ Some StopCause.NoAnswer → self.old.broken ≡ Some StopCause.NoAnswer }
    {
        if self.broken.is_some() {
            return Err(ErrorCode::Broken);
        }
        let newly_enrolled = match self.port.newly_enrolled(alloc) {
            Ok(newly_enrolled) => newly_enrolled,
            Err(failure) => return Err(port_error(failure)),
        };
        match self.journal.append_new_enrolments(&newly_enrolled) {
            Ok(()) => Ok(newly_enrolled),
            Err(fault) => {
                self.broken = Some(StopCause::JournalError(RecordFault::by(fault)));
                Err(ErrorCode::Broken)
            }
        }
    }

    // Accepts a connection, reads its request, and writes that to the journal before the desk reads it. If
    // the client sends no whole request, the desk reads an empty one, and no entry is written. If the write
    // fails, the client gets a 500, and the error is `Broken`, as it is of all later calls. If memory runs
    // out while the request is read, the client gets nothing, and the error is `Memory`. Other errors are
    // those of the port below.
    // Long: what the port reports, what was read from the client, and when it is broken.
    #[tactic(auto, using(crate::proofs::StepLemmas::takes_one))]
    fn take(
        &mut self,
        alloc: Global,
    ) -> Result<ClientStream<BufferedRequest<P::Input>, BufferedResponse<P::Output>>, ErrorCode>
        ensures taken { IfOk result (λ c.
            TakesArrival (reported_of R.Record self.old) (reported_of R.Record self.new)
            (arrived c.moment.second (cursor_remaining (λ v. Some v.items) c.input.request))) }
        ensures unsent { IfOk result (λ c.
            IsFresh (reported_of R.Record self.old) (Some c.output.answer.items)) }
        ensures same { OnErr result (AddsNothingNew (reported_of R.Record self.old) (reported_of R.Record self.new)) }
        ensures fault { IfErr result IsPortError }
        ensures client { IfOk result (λ c. IsTakenFrom c.moment.second (cursor_inner c.input.request).items
            (is_some c.input.unread) (P.Input.remaining c.input.client)
            (course (P.traffic self.old.port) (P.traffic self.new.port))) }
        ensures waits { IfOk result (λ c.
            IsFresh (P.traffic self.old.port) (P.Output.contents c.output.to)) }
        ensures broken { IsSome self.old.broken → result ≡ Err ErrorCode.Broken }
        ensures cause { result ≡ Err ErrorCode.Broken → IsSome self.new.broken }
        ensures lost { self.new.broken ≡ Some StopCause.NoAnswer → self.old.broken ≡ Some StopCause.NoAnswer }
    {
        if self.broken.is_some() {
            return Err(ErrorCode::Broken);
        }
        let mut taken = match self.port.take(alloc) {
            Ok(taken) => taken,
            Err(failure) => return Err(port_error(failure)),
        };
        let Ok(received) = receive_or_empty(alloc, &mut taken.input) else {
            let _ = self.port.close(taken.input, taken.output, UNANSWERED);
            return Err(ErrorCode::Memory);
        };
        match self.journal.append_request(taken.moment, &received.request) {
            Ok(()) => Ok(ClientStream {
                moment: taken.moment,
                input: BufferedRequest {
                    request: Cursor::new(received.request),
                    unread: received.unread,
                    client: taken.input,
                },
                output: BufferedResponse {
                    answer: Vec::new(alloc),
                    to: taken.output,
                },
            }),
            Err(fault) => {
                self.broken = Some(StopCause::JournalError(RecordFault::by(fault)));
                let _ = send_store_error(&mut taken.output);
                let _ = self.port.close(taken.input, taken.output, UNANSWERED);
                Err(ErrorCode::Broken)
            }
        }
    }

    // Writes the answer to the journal, sends it to the client, and closes the connection. `outcome` says
    // whether the request was read whole and answered whole. If the answer isn't whole or can't be recorded,
    // the client gets a 500, the error is `Broken`, and no more connections are accepted. Else an error is
    // that of closing the connection at the port below. A failed send is ignored.
    // Long: what the port reports, what its journal has, when it is broken, and what the client was sent.
    #[tactic(auto, using(crate::proofs::StepLemmas::closes_so, crate::proofs::StepLemmas::is_open))]
    fn close(
        &mut self,
        input: BufferedRequest<P::Input>,
        output: BufferedResponse<P::Output>,
        outcome: ExchangeEnd,
    ) -> Result<(), ErrorCode>
        ensures closed { Closes (reported_of R.Record self.old) (reported_of R.Record self.new)
            (parted_in input output outcome) }
        ensures recorded { OnOk result (IsOpen (reported_of R.Record self.new).recorded) }
        ensures fault { IfErr result IsPortError }
        ensures reported { IsSome self.new.broken → result ≡ Err ErrorCode.Broken }
        ensures cause { result ≡ Err ErrorCode.Broken → IsSome self.new.broken }
        ensures lost { self.new.broken ≡ Some StopCause.NoAnswer
            → (self.old.broken ≡ Some StopCause.NoAnswer) ⊎ (outcome.is_answered ≡ false) }
        ensures kept { IsClosedBy P.Output (course (R.steps self.old.journal) (R.steps self.new.journal))
            (parted_in input output outcome) (client_of (P.Input.remaining input.client)
            (P.Output.contents output.to)) (course (P.traffic self.old.port) (P.traffic self.new.port)) }
        ensures broken { IsNone self.new.broken → IsNone self.old.broken × AddsStep
            (R.steps self.old.journal) (R.steps self.new.journal)
            (Answered (parted_in input output outcome)) }
    {
        let BufferedRequest {
            request,
            client,
            ..
        } = input;
        let BufferedResponse { answer, mut to } = output;
        let connection = Exchange {
            unread: unread_bytes(&request),
            sent: &answer,
            outcome,
        };
        let (broken, _) = record_and_send(&mut self.journal, self.broken, connection, &mut to);
        self.broken = broken;
        let closed = self.port.close(client, to, outcome);
        close_result(self.broken.is_some(), closed)
    }
}

// The error of a recorded port for the error `failure` of the port below it. `Broken` says that the port's
// own journal failed, so a `Broken` from below becomes `Network`.
fn port_error(failure: ErrorCode) -> ErrorCode
    ensures { result ≡ spec.failure_below failure }
{
    match failure {
        ErrorCode::Broken => ErrorCode::Network,
        _ => failure,
    }
}

// The result of closing a connection: `Broken` if its answer isn't recorded (`is_lost`), else the result of
// closing it at the port below (`closed`).
fn close_result(is_lost: bool, closed: Result<(), ErrorCode>) -> Result<(), ErrorCode>
    ensures { result ≡ spec.closed_as is_lost closed }
{
    if is_lost {
        return Err(ErrorCode::Broken);
    }
    closed.map_err(port_error)
}

// Appends the answer of the `connection` to the journal and then sends it to the client. If the answer isn't
// whole, can't be appended, or the port had stopped before (`broken` says why), sends a 500 instead. Returns
// why the port accepts no more connections, if it doesn't, and the result of sending.
fn record_and_send<R: Record, W: Write>(
    journal: &mut R,
    broken: Option<StopCause<R>>,
    connection: Exchange<'_>,
    client: &mut W,
) -> (Option<StopCause<R>>, Result<(), WriteError<W>>)
    ensures sends { SendsKept (course (R.steps journal.old) (R.steps journal.new))
        (parting_of connection.entry) (course (W.contents client.old) (W.contents client.new)) result.1 }
    ensures kept { IsNone result.0 →
        AddsStep (R.steps journal.old) (R.steps journal.new) (Answered (parting_of connection.entry)) }
    ensures noted { Notes (R.noted journal.old) (R.noted journal.new) (is_none result.0)
        (λ n. with_answer n connection.entry.sent.now) }
    ensures whole { IsNone result.0 → IsNone broken × (connection.entry.outcome.is_answered ≡ true) }
    ensures lost { result.0 ≡ Some StopCause.NoAnswer
        → (broken ≡ Some StopCause.NoAnswer) ⊎ (connection.entry.outcome.is_answered ≡ false) }
{
    let lost = record_answer(journal, broken, connection);
    if lost.is_none() {
        return (None, write_whole(client, connection.sent));
    }
    journal.note_lost_answer(connection);
    (lost, send_store_error(client))
}

// Appends the answer of the `connection` to the journal, if it is whole and the port hadn't stopped before
// (`broken` says why). Returns None if it is appended; else why not, which is why the port stops.
fn record_answer<R: Record>(
    journal: &mut R,
    broken: Option<StopCause<R>>,
    connection: Exchange<'_>,
) -> Option<StopCause<R>>
    ensures steps { AddsIf (R.steps journal.old) (R.steps journal.new) (is_none result)
        (Answered (parting_of connection.entry)) }
    ensures noted { Notes (R.noted journal.old) (R.noted journal.new) (is_none result)
        (λ n. with_answer n connection.entry.sent.now) }
    ensures whole { IsNone result → IsNone broken × (connection.entry.outcome.is_answered ≡ true) }
    ensures lost { result ≡ Some StopCause.NoAnswer
        → (broken ≡ Some StopCause.NoAnswer) ⊎ (connection.entry.outcome.is_answered ≡ false) }
{
    if broken.is_some() {
        return broken;
    }
    if !connection.outcome.is_answered {
        return Some(StopCause::NoAnswer);
    }
    match journal.append_answer(connection) {
        Ok(()) => None,
        Err(fault) => Some(StopCause::JournalError(RecordFault::by(fault))),
    }
}

// What a client sent: its whole request, or no bytes, and the read error, if there was one.
#[derive(Drop)]
struct Received<R> {
    request: Vec<u8>,
    unread: Option<ReadError<R>>,
}

// Reads the request of a client. It is empty if it doesn't come whole. An error only if memory runs out.
fn receive_or_empty<R: Read>(alloc: Global, client: &mut R) -> Result<Received<R>, AllocError>
    ensures { IfOk result (λ received. IsReceived (is_some received.unread) (R.remaining client.old)
        (R.remaining client.new) received.request.items) }
{
    let (request, unread) = match receive_request(alloc, client) {
        Ok(request) => (request, None),
        Err(ReceiveFault::CutShort) => (Vec::new(alloc), None),
        Err(ReceiveFault::Unread(unread)) => (Vec::new(alloc), Some(unread)),
        Err(ReceiveFault::OutOfMemory) => return Err(AllocError),
    };
    Ok(Received { request, unread })
}

// Sends the answer 500 with the error `store` to a client whose request or answer can't be written to the
// journal.
fn send_store_error<W: Write>(client: &mut W) -> Result<(), WriteError<W>>
    ensures { Sends (server_error_text Store) (W.contents client.old) (W.contents client.new) result }
{
    write_whole(client, ServerError::Store.answer())
}

// The bytes of `request` behind the cursor's position, which weren't read; none if that is past the end.
fn unread_bytes(request: &Cursor<Vec<u8>>) -> &[u8]
    ensures { Some result.now ≡ cursor_remaining (λ v. Some v.items) request.now }
{
    let bytes = request.get_ref();
    let next = request.position().min(bytes.len() as u64) as usize;
    &bytes[next..]
}
