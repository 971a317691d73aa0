//! A TCP port of 127.0.0.1, whose connections get their timestamps from the clock. The moment of a request is
//! the timestamp at which the desk decides it.

ghost use Rattle.std.specs.Prelude.{◌≡◌, ◌≢◌, None, Some, Err, Ok, IfErr, IfOk, IsSome, OnOk, codes, option_map, string_bytes};
ghost use Rattle.std.specs.{IoError.error_kind, Result.is_ok, Time.system_time_nanos};
ghost use Rattle.desk_program.specs.{Enrolling.IsWrittenAsFarAsPossible, Serving.IsPortError, Serving.Listens, Serving.unreported, Serving.moment_at};
ghost use Rattle.desk_program.specs.Serving as spec;

use crate::port::{ClientStream, EnrolmentSource, ExchangeEnd, Port};
use crate::timed::{DeadlineStream, discard_extra, discard_rest};
use desk_cli::{Enrolment, ErrorCode};
use io_ends::{Moment, write_whole};
use std::alloc::{AllocError, Global};
use std::io::{self, BufReader, ErrorKind, Write};
use std::net::{Ipv4Addr, Net, OpenListener, OpenStream, TcpListener};
use std::time::{Clock, SystemTime};
use volume4d::MAX_SECOND;

/// A TCP port of 127.0.0.1. Connections get their timestamps from a clock, and new enrolments come from an
/// enrolment source. Each client has `PATIENCE` seconds to send its request, and as many to take the answer.
#[derive(Drop)]
pub struct LocalPort<'s, N: Net, C, G: Drop, E> {
    net: &'s N,
    clock: &'s C,
    enrolment_source: G,
    alloc: Global,
    errors: E,
    listener: Option<N::Listener>,
    // A connection that was accepted and not yet taken.
    waiting: Option<N::Stream>,
}

impl<'s, N: Net, C: Clock, G: EnrolmentSource + Drop, E: Write> LocalPort<'s, N, C, G, E> {
    /// A port of the network `net` that doesn't listen yet. `clock` gives the timestamps, `enrolment_source`
    /// the new enrolments. If `listen` fails later, the cause is printed to `errors`; a failed write there is
    /// ignored.
    pub fn new(
        net: &'s N,
        clock: &'s C,
        enrolment_source: G,
        alloc: Global,
        errors: E,
    ) -> LocalPort<'s, N, C, G, E>
        ensures enrolment_source { result.enrolment_source ≡ enrolment_source }
        ensures listener { result.listener ≡ None }
        ensures waiting { result.waiting ≡ None }
        ensures errors { result.errors ≡ errors }
    {
        LocalPort {
            net,
            clock,
            enrolment_source,
            alloc,
            errors,
            listener: None,
            waiting: None,
        }
    }

    // The stream of the next connection: the one that is waiting, or else the next one accepted. `Network` if
    // the port doesn't listen, or no connection can be accepted.
    fn next_stream(&mut self) -> Result<N::Stream, ErrorCode>
        ensures { IfErr result IsPortError }
    {
        if let Some(stream) = self.waiting.take() {
            return Ok(stream);
        }
        match &self.listener {
            Some(listener) => accept_from(listener),
            None => Err(ErrorCode::Network),
        }
    }
}

impl<'s, N: Net, C: Clock, G: EnrolmentSource + Drop, E: Write> Port for LocalPort<'s, N, C, G, E> {
    type Input = BufReader<DeadlineStream<'s, N::Stream, C>>;

    type Output = DeadlineStream<'s, N::Stream, C>;

    // Opens the port `number` of 127.0.0.1. If that fails, prints why to `errors`, and the error is
    // `Network`.
    fn listen(&mut self, number: u16) -> Result<(), ErrorCode>
        ensures listens { Listens unreported unreported number (is_ok result) }
        ensures fault { IfErr result IsPortError }
        ensures listener { OnOk result (IsSome self.new.listener) }
    {
        match TcpListener::bind(self.net, (Ipv4Addr::LOCALHOST, number)) {
            Ok(listener) => {
                self.listener = Some(listener);
                Ok(())
            }
            Err(error) => {
                report_port(
                    self.alloc,
                    number,
                    port_cause(error.kind()),
                    &mut self.errors,
                );
                Err(ErrorCode::Network)
            }
        }
    }

    // Waits for the next connection, keeps it for `take`, and returns the new enrolments. It looks for them
    // after the wait, to find those that were added meanwhile.
    fn newly_enrolled(&mut self, alloc: Global) -> Result<Vec<Enrolment>, ErrorCode> {
        self.waiting = Some(self.next_stream()?);
        self.enrolment_source.look(alloc)
    }

    // Takes the connection that is kept, or else accepts one, and reads the clock after that: this is the
    // moment of its request.
    fn take(
        &mut self,
        alloc: Global,
    ) -> Result<
        ClientStream<BufReader<DeadlineStream<'s, N::Stream, C>>, DeadlineStream<'s, N::Stream, C>>,
        ErrorCode,
    > {
        let stream = self.next_stream()?;
        let now = SystemTime::now(self.clock).map_err(|_| ErrorCode::Clock)?;
        connection_of(alloc, self.clock, now, stream)
    }

    // Discards what the client still sends, and drops the connection. It waits for more only if the request
    // wasn't read whole. I/O errors are ignored.
    fn close(
        &mut self,
        mut input: BufReader<DeadlineStream<'s, N::Stream, C>>,
        output: DeadlineStream<'s, N::Stream, C>,
        outcome: ExchangeEnd,
    ) -> Result<(), ErrorCode> {
        let _ = if outcome.is_whole {
            discard_extra(input.get_mut(), &output)
        } else {
            discard_rest(input.get_mut(), &output)
        };
        Ok(())
    }
}

// Prints a line to `errors` that says why the port `number` can't be opened (`cause`). If memory runs out,
// nothing is printed; a failed write is ignored.
fn report_port<E: Write>(alloc: Global, number: u16, cause: &str, errors: &mut E)
    ensures { IsWrittenAsFarAsPossible (spec.port_line number cause.now) (E.contents errors.old)
        (E.contents errors.new) }
{
    if let Ok(text) = port_text(alloc, number, cause) {
        report_line(&text, errors);
    }
}

// Writes `line` to `errors`, up to the first write that fails. The write error is ignored.
fn report_line<E: Write>(line: &str, errors: &mut E)
    ensures { IsWrittenAsFarAsPossible line.now (E.contents errors.old) (E.contents errors.new) }
{
    let _ = write_whole(errors, line.as_bytes());
}

// The line that says why the port `number` can't be opened (`cause`). An error if memory runs out.
fn port_text(alloc: Global, number: u16, cause: &str) -> Result<String, AllocError>
    ensures { IfOk result (λ text. string_bytes text ≡ spec.port_line number cause.now) }
{
    format!(in alloc; "uss_desk: 127.0.0.1:{number}: {cause}\n")
}

// Why a port can't be opened, in words, by the kind of the error.
fn port_cause(kind: ErrorKind) -> &'static str
    ensures used { kind ≡ ErrorKind.AddrInUse → result.now ≡ codes "in use by another program" }
    ensures denied { kind ≡ ErrorKind.PermissionDenied → result.now ≡ codes "no right to it" }
    ensures unknown { kind ≢ ErrorKind.AddrInUse → kind ≢ ErrorKind.PermissionDenied
        → result.now ≡ codes "it can't be had" }
{
    match kind {
        ErrorKind::AddrInUse => "in use by another program",
        ErrorKind::PermissionDenied => "no right to it",
        _ => "it can't be had",
    }
}

// The stream of the next connection. Connections that were aborted before they were accepted are skipped;
// `Network` after any other error.
fn accept_from<L: OpenListener>(listener: &L) -> Result<L::Stream, ErrorCode>
    ensures { IfErr result IsPortError }
{
    for accepted in listener.incoming() {
        if let Some(stream) = stream_of(accepted)? {
            return Ok(stream);
        }
    }
    Err(ErrorCode::Network)
}

// The stream of an accepted connection, or `None` if the client aborted it before. `Network` after any other
// error.
fn stream_of<T: Drop>(accepted: io::Result<T>) -> Result<Option<T>, ErrorCode>
    ensures ok { IfOk accepted (λ stream. result ≡ Ok (Some stream)) }
    ensures aborted { IfErr accepted (λ e. error_kind e ≡ ErrorKind.ConnectionAborted → result ≡ Ok None) }
    ensures failed { IfErr accepted (λ e. error_kind e ≢ ErrorKind.ConnectionAborted
        → result ≡ Err ErrorCode.Network) }
{
    match accepted {
        Ok(stream) => Ok(Some(stream)),
        Err(error) if error.kind() == ErrorKind::ConnectionAborted => Ok(None),
        Err(_) => Err(ErrorCode::Network),
    }
}

// The connection over `stream`, which was accepted at the time `now`. Both directions get deadlines by
// `clock`. `Clock` if `now` is out of range (see `moment_in`), `Network` if the stream can't be cloned,
// `Memory` if memory runs out.
fn connection_of<'s, T, C: Clock>(
    alloc: Global,
    clock: &'s C,
    now: SystemTime,
    stream: T,
) -> Result<ClientStream<BufReader<DeadlineStream<'s, T, C>>, DeadlineStream<'s, T, C>>, ErrorCode>
where
    T: std::io::Read + std::io::Write + OpenStream + Drop,
    ensures moment { IfOk result (λ c. moment_at (system_time_nanos now) ≡ Some c.moment.second) }
    ensures fault { IfErr result IsPortError }
{
    let moment = moment_in(now).ok_or(ErrorCode::Clock)?;
    let other = stream.try_clone().map_err(|_| ErrorCode::Network)?;
    let input = DeadlineStream::new(stream, clock);
    let input = BufReader::new(alloc, input).map_err(|_| ErrorCode::Memory)?;
    Ok(ClientStream {
        moment,
        input,
        output: DeadlineStream::new(other, clock),
    })
}

// The timestamp of a system time, in whole seconds since 1970, rounded down. None if it isn't from 0 to
// `MAX_SECOND`.
fn moment_in(time: SystemTime) -> Option<Moment>
    ensures { option_map (λ moment. moment.second) result ≡ moment_at (system_time_nanos time) }
{
    let since = time.duration_since(SystemTime::UNIX_EPOCH).ok()?;
    match i64::try_from(since.as_secs()) {
        Ok(second @ 0..=MAX_SECOND) => Some(Moment { second }),
        _ => None,
    }
}
