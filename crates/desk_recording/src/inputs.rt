//! The command `play` with a journal: the requests of its input become connections of a port, so that they
//! are recorded as those of `serve` are.

ghost use Rattle.std.specs.Prelude.{◌≡◌, [], false, Err, IfErr, IfOk, IfSome, IsOkAnd, IsSome, None, Ok, OnErr, OnOk, Some, not};
ghost use Rattle.std.specs.{Option.IsSomeAnd, Option.option_map, Result.is_ok, Io.Cursor.cursor_inner, Io.Cursor.cursor_remaining};
ghost use Rattle.desk_wire.specs.Streams.{IsTaken, course};
ghost use Rattle.desk_cli.specs.Lines.{AreEnrolments, IsPlay};
ghost use Rattle.desk_program.specs.Enrolling.{IsOpen};
ghost use Rattle.desk_program.specs.Serving.{BringsEnrolments, Closes, AddsNothingNew, IsPortError, IsFresh, Listens, TakesArrival, arrived, parted, unreported};
ghost use Rattle.desk_recording.specs.Inputs as spec;
ghost use Rattle.desk_recording.specs.Inputs.{EndsInput, HandsOutNone, IsUnrecorded, PlaysRecorded, input_outside};

use crate::port::RecordedPort;
use crate::record::Record;
use desk_cli::{Enrolment, ErrorCode, ExitReport, PlayArgs, report_exit};
use desk_program::{ClientStream, ExchangeEnd, Port, play_port};
use desk_run::Desk;
use desk_store::PlanStore;
use desk_wire::{ReceiveFault, receive_request};
use io_ends::{Moment, ReadError, WriteError, write_whole};
use std::alloc::Global;
use std::io::{Cursor, Read, Write};

/// Why no more requests are read from an input.
#[derive_where(Clone, Copy)]
pub(crate) enum InputEnd<R, W> {
    /// The input has ended.
    AtEnd,
    /// The input ends inside a request.
    CutShort,
    /// A read of the input failed.
    Unread(ReadError<R>),
    /// Memory ran out.
    OutOfMemory,
    /// It isn't known where the next request begins: the desk didn't read the last one to its end.
    Unframed,
    /// The output could not be written.
    AppendError(WriteError<W>),
}

impl<R, W> InputEnd<R, W> {
    // The result of the command `play` if this is why it reads no more requests.
    fn exit_result(self) -> Result<(), ErrorCode>
        ensures { result ≡ spec.exit_of_input_end self }
    {
        match self {
            InputEnd::AtEnd => Ok(()),
            InputEnd::CutShort => Err(ErrorCode::CutShort),
            InputEnd::Unread(_) => Err(ErrorCode::Read),
            InputEnd::OutOfMemory => Err(ErrorCode::Memory),
            InputEnd::Unframed => Err(ErrorCode::Unframed),
            InputEnd::AppendError(_) => Err(ErrorCode::Write),
        }
    }
}

/// A port whose connections are the requests of `input`, one after the other, all decided at the same
/// `moment`. Their answers go to `output`.
#[derive(Drop)]
pub struct InputPort<R: Drop, W: Drop> {
    input: R,
    output: W,
    moment: Moment,
    // Whether it isn't known where the next request begins.
    is_unframed: bool,
    // Why no more requests are read, if so.
    ended: Option<InputEnd<R, W>>,
}

impl<R: Read + Drop, W: Write + Drop> InputPort<R, W> {
    /// A port from which no request was taken yet. It takes the requests from `input` and writes their
    /// answers to `output`. The desk decides all of them at `moment`.
    pub fn new(input: R, output: W, moment: Moment) -> InputPort<R, W>
        ensures input { result.input ≡ input }
        ensures output { result.output ≡ output }
        ensures moment { result.moment ≡ moment }
        ensures framed { result.is_unframed ≡ false }
        ensures begun { result.ended ≡ None }
    {
        InputPort {
            input,
            output,
            moment,
            is_unframed: false,
            ended: None,
        }
    }

    // The result of `play`, by the result of serving the port (`done`). If no more requests are read
    // (`ended`), that decides: `Ok` at the end of the input. Else the error of `done` does. Else as many
    // requests were answered as one command answers: `Unframed` if it isn't known where the next one begins,
    // or `Limit`.
    fn final_result(&self, done: Result<(), ErrorCode>) -> Result<(), ErrorCode>
        ensures { result
            ≡ spec.exit_of_play (option_map spec.exit_of_input_end self.now.ended) self.now.is_unframed done }
    {
        match (self.ended, done) {
            (Some(ended), _) => ended.exit_result(),
            (None, Err(failure)) => Err(failure),
            (None, Ok(())) if self.is_unframed => Err(ErrorCode::Unframed),
            (None, Ok(())) => Err(ErrorCode::Limit),
        }
    }
}

impl<R: Read + Drop, W: Write + Drop> Port for InputPort<R, W> {
    type Input = Cursor<Vec<u8>>;

    type Output = Vec<u8>;

    // Does nothing, and succeeds: an input needs no network.
    fn listen(&mut self, _number: u16) -> Result<(), ErrorCode>
        ensures listens { Listens unreported unreported _number (is_ok result) }
        ensures fault { IfErr result IsPortError }
        ensures ok { result ≡ Ok (tt {0}) }
        ensures stays { self.new ≡ self.old }
    {
        Ok(())
    }

    // The empty list: there are no new enrolments while `play` runs.
    fn newly_enrolled(&mut self, alloc: Global) -> Result<Vec<Enrolment>, ErrorCode>
        ensures small { IfOk result (λ newly_enrolled. AreEnrolments newly_enrolled.items) }
        ensures brings { IfOk result (λ newly_enrolled.
            BringsEnrolments unreported unreported newly_enrolled.items) }
        ensures same { OnErr result (AddsNothingNew unreported unreported) }
        ensures fault { IfErr result IsPortError }
        ensures none { IsOkAnd result (λ newly_enrolled. newly_enrolled.items ≡ []) }
        ensures stays { self.new ≡ self.old }
    {
        Ok(Vec::new(alloc))
    }

    // Reads the next request of the input, as a connection with an empty answer. If there is none, the error
    // is `Network`, and `ended` says why: from then on nothing more is read.
    // Long: what a port reports, which request of the input is taken, and when the input has ended.
    fn take(&mut self, alloc: Global) -> Result<ClientStream<Cursor<Vec<u8>>, Vec<u8>>, ErrorCode>
        ensures taken { IfOk result (λ c. TakesArrival unreported unreported
            (arrived c.moment.second (cursor_remaining (λ v. Some v.items) c.input))) }
        ensures unsent { IfOk result (λ c. IsFresh unreported (Some c.output.items)) }
        ensures same { OnErr result (AddsNothingNew unreported unreported) }
        ensures fault { IfErr result IsPortError }
        ensures given { IfOk result (λ c. (c.moment ≡ self.old.moment)
            × IsTaken (R.remaining self.old.input) (R.remaining self.new.input)
            (cursor_inner c.input).items) }
        ensures output { self.new.output ≡ self.old.output }
        ensures moment { self.new.moment ≡ self.old.moment }
        ensures framed { self.new.is_unframed ≡ self.old.is_unframed }
        ensures ended { IfErr result (λ f. (f ≡ ErrorCode.Network) × IsSome self.new.ended) }
        ensures cause { self.old.ended ≡ None → IfSome self.new.ended (HandsOutNone self.old.is_unframed
            (R.remaining self.old.input)) }
    {
        if self.ended.is_some() {
            return Err(ErrorCode::Network);
        }
        match next_request(alloc, self.is_unframed, &mut self.input) {
            Ok(request) => Ok(ClientStream {
                moment: self.moment,
                input: Cursor::new(request),
                output: Vec::new(alloc),
            }),
            Err(ended) => {
                self.ended = Some(ended);
                Err(ErrorCode::Network)
            }
        }
    }

    // Writes the answer (`output`) to the port's output, and notes whether it is known where the next request
    // begins: it is if the request was read whole, as `outcome` says. A failed write isn't an error here: it
    // is noted in `ended`, and no more requests are read.
    fn close(
        &mut self,
        input: Cursor<Vec<u8>>,
        output: Vec<u8>,
        outcome: ExchangeEnd,
    ) -> Result<(), ErrorCode>
        ensures closed { Closes unreported unreported (parted (cursor_remaining (λ v. Some v.items) input)
            (Some output.items) outcome) }
        ensures recorded { OnOk result (IsOpen unreported.recorded) }
        ensures fault { IfErr result IsPortError }
        ensures ok { result ≡ Ok (tt {0}) }
        ensures sent { EndsInput output.items (course (W.contents self.old.output)
            (W.contents self.new.output)) self.old.ended self.new.ended }
        ensures input { self.new.input ≡ self.old.input }
        ensures moment { self.new.moment ≡ self.old.moment }
        ensures framed { self.new.is_unframed ≡ not outcome.is_whole }
    {
        self.is_unframed = !outcome.is_whole;
        if let Err(cut) = write_whole(&mut self.output, &output) {
            self.ended = Some(InputEnd::AppendError(cut));
        }
        Ok(())
    }
}

// Reads the next request of `input`. The error says why there is none. If `is_unframed`, it isn't known where
// the next one begins, and nothing is read.
fn next_request<R: Read, W>(
    alloc: Global,
    is_unframed: bool,
    input: &mut R,
) -> Result<Vec<u8>, InputEnd<R, W>>
    ensures taken { IfOk result (λ request.
        IsTaken (R.remaining input.old) (R.remaining input.new) request.items) }
    ensures stopped { IfErr result (HandsOutNone is_unframed (R.remaining input.old)) }
{
    if is_unframed {
        return Err(InputEnd::Unframed);
    }
    match receive_request(alloc, input) {
        Ok(request) if request.is_empty() => Err(InputEnd::AtEnd),
        Ok(request) => Ok(request),
        Err(ReceiveFault::CutShort) => Err(InputEnd::CutShort),
        Err(ReceiveFault::Unread(unread)) => Err(InputEnd::Unread(unread)),
        Err(ReceiveFault::OutOfMemory) => Err(InputEnd::OutOfMemory),
    }
}

/// Carries out the command `play` with a journal at the desk `opened`: each request that comes from `port` is
/// recorded before it is carried out, and its answer before it is written. Returns the exit report and the
/// desk, if there is one. If no desk was opened, no request is taken, and that error code is reported. An
/// error code goes to `errors`; a failed write there is ignored.
pub fn play_opened<S, R, W, K, E>(
    alloc: Global,
    play: &PlayArgs,
    opened: Result<Desk<S>, ErrorCode>,
    port: &mut RecordedPort<InputPort<R, W>, K>,
    errors: &mut E,
) -> (ExitReport<E>, Option<Desk<S>>)
where
    S: PlanStore + Drop,
    R: Read + Drop,
    W: Write + Drop,
    K: Record + Drop,
    E: Write,
    requires { IsPlay play.now }
    ensures opened { IfOk opened (λ desk. IsSomeAnd result.1 (PlaysRecorded S.PlanStore play.now
        (input_outside K.Record E.Write port.old port.new result.0 errors.old errors.new) desk)) }
    ensures unopened { IfErr opened (IsUnrecorded (input_outside K.Record E.Write port.old port.new result.0
        errors.old errors.new) result.1) }
{
    match opened {
        Ok(mut desk) => {
            let exit = play_recorded(alloc, play, &mut desk, port, errors);
            (exit, Some(desk))
        }
        Err(failure) => (report_exit(errors, Err(failure)), None),
    }
}

// Carries out `play` at an open desk, with the requests and the journal of `port`, and returns the exit
// report. An error code goes to `errors`; a failed write there is ignored.
fn play_recorded<S: PlanStore, R: Read + Drop, W: Write + Drop, K: Record + Drop, E: Write>(
    alloc: Global,
    play: &PlayArgs,
    desk: &mut Desk<S>,
    port: &mut RecordedPort<InputPort<R, W>, K>,
    errors: &mut E,
) -> ExitReport<E>
    requires { IsPlay play.now }
    ensures { PlaysRecorded S.PlanStore play.now (input_outside K.Record E.Write port.old port.new result
        errors.old errors.new) desk.old desk.new }
{
    let done = play_port(alloc, port, play, desk);
    report_exit(errors, port.port.final_result(done))
}
