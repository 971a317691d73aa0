//! The command `serve`: one request per connection, one connection after the other.

ghost use Rattle.std.specs.Prelude.{◌≡◌, IfOk, IfErr, string_bytes};
ghost use Rattle.desk_store.specs.Changes.{Remembers, IsHonest};
ghost use Rattle.desk_cli.specs.{Exits.IsAnnounced, Exits.failure_at, Lines.IsPlay, Lines.IsServe};
ghost use Rattle.desk_run.specs.{Calls.FindsOnly, Verdicts.world_of};
ghost use Rattle.desk_wire.specs.Streams.{course};
ghost use Rattle.desk_program.specs.{Enrolling.HasCause, Enrolling.IsEndCounted, PortGiven.IsInputKept, PortGiven.IsInputPlayed, Keeping.AreKept, Keeping.IsPortKept, Keeping.IsServeKept, Keeping.bytes_written, Keeping.ended};
ghost use Rattle.desk_program.specs.Serving as spec;
ghost use Rattle.desk_program.specs.Serving.{IsAskedToListen, IsAtPort, IsPortError, IsLineServed, error_in, PrintsIfListening, first_failure, listening_line};

use crate::port::{ClientStream, ExchangeEnd, Port};
use crate::program::{enrol_new, set_up};
use desk_cli::{ErrorCode, ExitReport, PlayArgs, ServeArgs, report_exit, write_text};
use desk_run::Desk;
use desk_store::PlanStore;
use desk_wire::serve_one;
use io_ends::{ServeFault, Served};
use std::alloc::{AllocError, Global};
use std::io::Write;

/// The most requests that `play` answers.
const MAX_ANSWERED: u32 = 1_000_000;

/// The HTTP status of an answer that says that the desk failed.
const SERVER_ERROR: u16 = 500;

/// Runs the command `serve` with the arguments `line` at a desk: sets its terms (its settings), enrols
/// operators, opens the port, prints a line to `output` that says so, and serves the connections. Returns the
/// exit report. An error code goes to `errors`; a failed write there is ignored.
pub fn serve<S: PlanStore, P: Port, W: Write, E: Write>(
    alloc: Global,
    port: &mut P,
    line: &ServeArgs,
    desk: &mut Desk<S>,
    output: &mut W,
    errors: &mut E,
) -> ExitReport<E>
    requires { IsServe line.now }
    ensures served { IsLineServed (IsHonest (S.doubt desk.new.store)) line.now
        (ended E.Write result errors.old errors.new) (course (P.traffic port.old) (P.traffic port.new))
        (bytes_written W.Write output.old output.new) (world_of S.content desk.old)
        (world_of S.content desk.new) }
    ensures kept { FindsOnly S.PlanStore desk.old desk.new (IsServeKept (IsHonest (S.doubt desk.new.store))
        line.now (ended E.Write result errors.old errors.new) (course (P.traffic port.old)
        (P.traffic port.new)) (world_of S.content desk.old) (world_of S.content desk.new)) }
    ensures remembered { Remembers S.doubt S.faults S.is_shielded desk.old.store desk.new.store }
    ensures cause { HasCause S.PlanStore desk.old desk.new (ended E.Write result errors.old errors.new) }
{
    report_exit(errors, try_serve(alloc, port, line, desk, output))
}

// Does the work of `serve`, and returns the first error, which ends it. If an enrolment fails, the port isn't
// opened.
// Long: what is sent, the crash states, what is printed and when, and why it ends have a clause each.
fn try_serve<S: PlanStore, P: Port, W: Write>(
    alloc: Global,
    port: &mut P,
    line: &ServeArgs,
    desk: &mut Desk<S>,
    output: &mut W,
) -> Result<(), ErrorCode>
    requires { IsServe line.now }
    ensures served { IsAtPort (IsHonest (S.doubt desk.new.store)) result line.now (course (P.traffic port.old)
        (P.traffic port.new)) (world_of S.content desk.old) (world_of S.content desk.new) }
    ensures kept { FindsOnly S.PlanStore desk.old desk.new (IsPortKept (IsHonest (S.doubt desk.new.store))
        result line.now (course (P.traffic port.old) (P.traffic port.new)) (world_of S.content desk.old)
        (world_of S.content desk.new)) }
    ensures printed { IsAnnounced result (listening_line line.now.port) (W.contents output.old)
        (W.contents output.new) }
    ensures heard { PrintsIfListening (course (P.traffic port.old) (P.traffic port.new)) line.now.port
        (course (W.contents output.old) (W.contents output.new)) }
    ensures remembered { Remembers S.doubt S.faults S.is_shielded desk.old.store desk.new.store }
    ensures cause { IsEndCounted result (S.faults desk.old.store) (S.faults desk.new.store) }
{
    set_up(desk, &line.desk.terms, &line.desk.enrolments)?;
    listen(alloc, port, line.port, output)?;
    serve_connections(alloc, port, line.connections, desk)
}

// Opens the port `number`, and then prints a line that says so. If the line can't be printed, the error is
// returned, and the port stays open.
fn listen<P: Port, W: Write>(
    alloc: Global,
    port: &mut P,
    number: u16,
    output: &mut W,
) -> Result<(), ErrorCode>
    ensures fault { IfErr result IsPortError }
    ensures listens { IsAskedToListen (P.traffic port.old) (P.traffic port.new) number }
    ensures heard { PrintsIfListening (course (P.traffic port.old) (P.traffic port.new)) number
        (course (W.contents output.old) (W.contents output.new)) }
    ensures printed { IsAnnounced result (listening_line number) (W.contents output.old)
        (W.contents output.new) }
{
    port.listen(number)?;
    let text = listening_text(alloc, number)?;
    write_text(output, &text)
}

// The line that says that the port number `port` of 127.0.0.1 is open. An error if memory runs out.
fn listening_text(alloc: Global, port: u16) -> Result<String, AllocError>
    ensures { IfOk result (λ text. string_bytes text ≡ listening_line port) }
{
    format!(in alloc; "listening 127.0.0.1:{port}\n")
}

/// Runs `play` at a desk with the requests of a port instead of an input: sets the terms, enrols operators,
/// and answers up to 1,000,000 requests, each at the timestamp of its connection.
///
/// # Errors
///
/// The first error of an enrolment; or why the port gave no more requests, or the desk stopped at one.
pub fn play_port<S: PlanStore, P: Port>(
    alloc: Global,
    port: &mut P,
    play: &PlayArgs,
    desk: &mut Desk<S>,
) -> Result<(), ErrorCode>
    requires { IsPlay play.now }
    ensures played { IsInputPlayed (IsHonest (S.doubt desk.new.store)) result play.now
        (course (P.traffic port.old) (P.traffic port.new)) (world_of S.content desk.old)
        (world_of S.content desk.new) }
    ensures kept { FindsOnly S.PlanStore desk.old desk.new (IsInputKept (IsHonest (S.doubt desk.new.store))
        result play.now (course (P.traffic port.old) (P.traffic port.new)) (world_of S.content desk.old)
        (world_of S.content desk.new)) }
    ensures remembered { Remembers S.doubt S.faults S.is_shielded desk.old.store desk.new.store }
    ensures cause { IsEndCounted result (S.faults desk.old.store) (S.faults desk.new.store) }
{
    set_up(desk, &play.desk.terms, &play.desk.enrolments)?;
    serve_connections(alloc, port, MAX_ANSWERED, desk)
}

// Serves `count` connections, one after the other, up to the first at which the desk stops. The error says
// why it stopped.
fn serve_connections<S: PlanStore, P: Port>(
    alloc: Global,
    port: &mut P,
    count: u32,
    desk: &mut Desk<S>,
) -> Result<(), ErrorCode>
    ensures kept { AreKept S.PlanStore result count (course (P.traffic port.old) (P.traffic port.new))
        desk.old desk.new }
    ensures remembered { Remembers S.doubt S.faults S.is_shielded desk.old.store desk.new.store }
    ensures cause { IsEndCounted result (S.faults desk.old.store) (S.faults desk.new.store) }
{
    for before in 0..count {
        serve_connection(alloc, port, desk)?;
    }
    Ok(())
}

// Waits for the next connection, makes the new enrolments, answers its request, and closes it. The error says
// why the desk stops. Faults of the client, such as a request that is cut short, don't stop it.
fn serve_connection<S: PlanStore, P: Port>(
    alloc: Global,
    port: &mut P,
    desk: &mut Desk<S>,
) -> Result<(), ErrorCode>
    ensures kept { AreKept S.PlanStore result 1 (course (P.traffic port.old) (P.traffic port.new)) desk.old
        desk.new }
    ensures remembered { Remembers S.doubt S.faults S.is_shielded desk.old.store desk.new.store }
    ensures cause { IsEndCounted result (S.faults desk.old.store) (S.faults desk.new.store) }
{
    let enrolments = port.newly_enrolled(alloc)?;
    enrol_new(desk, &enrolments)?;
    let mut client = port.take(alloc)?;
    let served = serve_one(
        alloc,
        desk,
        client.moment,
        &mut client.input,
        &mut client.output,
    );
    let closed = port.close(client.input, client.output, outcome_of(&served));
    exchange_result(served, closed)
}

// How a request ended, as the port needs to know when its connection is closed; `served` is the result of
// serving it. The request counts as whole unless it was answered though its end isn't known (`framed` is
// false).
fn outcome_of(served: &Result<Served, ServeFault>) -> ExchangeEnd
    ensures { result ≡ spec.outcome_of served.now }
{
    ExchangeEnd {
        is_whole: !matches!(served, Ok(Served::Answered { framed: false, .. })),
        is_answered: served.is_ok(),
    }
}

// The result of one connection, whose request was `served` and which was `closed` with these results: why the
// desk stops after the request, if it does; else the result of closing.
fn exchange_result(
    served: Result<Served, ServeFault>,
    closed: Result<(), ErrorCode>,
) -> Result<(), ErrorCode>
    ensures { error_in result ≡ first_failure (failure_at served) (error_in closed) }
{
    match failure_of(served) {
        None => closed,
        Some(failure) => Err(failure),
    }
}

// Why the desk stops after a request: the answer was a 500, or memory ran out. None after faults of the
// client or its connection: the desk goes on.
fn failure_of(served: Result<Served, ServeFault>) -> Option<ErrorCode>
    ensures { result ≡ failure_at served }
{
    match served {
        Ok(Served::Answered { status, .. }) if status == SERVER_ERROR => Some(ErrorCode::Broken),
        Err(ServeFault::OutOfMemory) => Some(ErrorCode::Memory),
        _ => None,
    }
}
