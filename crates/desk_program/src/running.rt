//! A command run at an open desk, over any store. Its exit report has the exit status.

ghost use Rattle.std.specs.Prelude.{IfErr, IfOk};
ghost use Rattle.std.specs.Option.{IsSomeAnd};
ghost use Rattle.desk_cli.specs.Lines.{IsLine, line_of};
ghost use Rattle.desk_wire.specs.Streams.{course, passage};
ghost use Rattle.desk_program.specs.Keeping.{bytes_written, ended, outside, streamed, CarriesOut, EndsWithStatus, IsPortless, IsUnopened};

use crate::port::Port;
use crate::program::{enrol, play};
use crate::server::serve;
use desk_cli::{DeskCommand, ErrorCode, ExitReport, Line, report_exit};
use desk_run::Desk;
use desk_store::PlanStore;
use std::alloc::Global;
use std::io::{Read, Write};

/// The streams of a command.
#[derive(Drop)]
pub struct Streams<R: Drop, W: Drop, E: Drop> {
    /// What it reads.
    pub input: R,
    /// What it prints to.
    pub output: W,
    /// Where its error code is printed.
    pub errors: E,
}

/// Runs the command `action` at the desk that was opened for it, and returns the exit report and the desk. If
/// opening failed, that error code goes to the error stream, nothing else is done, and there is no desk.
pub fn run_opened<S: PlanStore + Drop, P: Port, R: Read + Drop, W: Write + Drop, E: Write + Drop>(
    alloc: Global,
    action: DeskCommand<'_>,
    opened: Result<Desk<S>, ErrorCode>,
    port: &mut P,
    streams: &mut Streams<R, W, E>,
) -> (ExitReport<E>, Option<Desk<S>>)
    requires { IsLine (line_of action) }
    ensures opened { IfOk opened (λ desk. IsSomeAnd result.1 (CarriesOut S.PlanStore (line_of action.entry)
        (outside R.Read W.Write E.Write streams.old streams.new
        (course (P.traffic port.old) (P.traffic port.new)) result.0) desk)) }
    ensures unopened { IfErr opened (IsUnopened (outside R.Read W.Write E.Write streams.old streams.new
        (course (P.traffic port.old) (P.traffic port.new)) result.0) result.1) }
{
    match opened {
        Ok(mut desk) => {
            let exit = carry_out(alloc, action, &mut desk, port, streams);
            (exit, Some(desk))
        }
        Err(failure) => (report_exit(&mut streams.errors, Err(failure)), None),
    }
}

// Runs the command `action` at a desk, and returns the exit report. Only `serve` uses `port`, and only `play`
// reads the input.
fn carry_out<S: PlanStore, P: Port, R: Read + Drop, W: Write + Drop, E: Write + Drop>(
    alloc: Global,
    action: DeskCommand<'_>,
    desk: &mut Desk<S>,
    port: &mut P,
    streams: &mut Streams<R, W, E>,
) -> ExitReport<E>
    requires { IsLine (line_of action) }
    ensures { CarriesOut S.PlanStore (line_of action.entry) (outside R.Read W.Write E.Write streams.old
        streams.new (course (P.traffic port.old) (P.traffic port.new)) result) desk.old desk.new }
{
    let output = &mut streams.output;
    let errors = &mut streams.errors;
    match action {
        DeskCommand::Play(words) => play(alloc, words, desk, &mut streams.input, output, errors),
        DeskCommand::Serve(words) => serve(alloc, port, words, desk, output, errors),
        DeskCommand::Enrol(words) => enrol(alloc, &words.enrolment, desk, output, errors),
    }
}

/// Runs the command `line`, which is `play` or `enrol`, at a desk, and returns the exit status. An error code
/// goes to `errors`; a failed write there is ignored.
pub fn with_desk<S: PlanStore, R: Read, W: Write, E: Write>(
    alloc: Global,
    line: &Line,
    desk: &mut Desk<S>,
    input: &mut R,
    output: &mut W,
    errors: &mut E,
) -> u8
    requires { IsPortless line.now }
    ensures { EndsWithStatus S.PlanStore line.now result (passage R.Read W.Write input.old input.new
        output.old output.new) (bytes_written E.Write errors.old errors.new) desk.old desk.new }
{
    carry_out_portless(alloc, line, desk, input, output, errors).status
}

// Runs the command `line`, which is `play` or `enrol` and needs no port, at a desk, and returns the exit
// report.
fn carry_out_portless<S: PlanStore, R: Read, W: Write, E: Write>(
    alloc: Global,
    line: &Line,
    desk: &mut Desk<S>,
    input: &mut R,
    output: &mut W,
    errors: &mut E,
) -> ExitReport<E>
    requires { IsPortless line.now }
    ensures { CarriesOut S.PlanStore line.now (streamed (passage R.Read W.Write input.old input.new output.old
        output.new) (ended E.Write result errors.old errors.new)) desk.old desk.new }
{
    match line {
        Line::Play(given) => play(alloc, given, desk, input, output, errors),
        Line::Enrol(given) => enrol(alloc, &given.enrolment, desk, output, errors),
        _ => unreachable!(),
    }
}
