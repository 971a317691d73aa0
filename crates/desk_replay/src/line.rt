//! The command `replay`, once its database is open: the journal is replayed, and the result is printed.

ghost use Rattle.std.specs.Prelude.{◌≡◌, ◌⊎◌, IfErr, IfOk, IfSome, is_some, option_map, string_bytes};
ghost use Rattle.desk_store.specs.Changes.{IsHonest, Remembers};
ghost use Rattle.desk_run.specs.Verdicts.{world_of};
ghost use Rattle.desk_wire.specs.Streams.{course, passage};
ghost use Rattle.desk_cli.specs.Exits.{ending, IsWrittenOrCut};
ghost use Rattle.desk_replay.specs.Running as spec;
ghost use Rattle.desk_replay.specs.Running.{IsLinePrinted, IsLineWritten, IsReplayReported, IsReplayed, IsUnplayed, Replays, place_line, replayed_line};

use crate::fault::ReplayFault;
use crate::stream::{ReplayEnd, Replayed, replay};
use desk_cli::{ErrorCode, ExitReport, report_exit};
use desk_record::ReadFault;
use desk_run::Desk;
use desk_store::PlanStore;
use io_ends::{WriteError, write_whole};
use std::alloc::{AllocError, Global};
use std::io::{Read, Write};

/// Replays the journal `input` at the desk `opened`, up to the first request whose Unix second is greater
/// than `until`, if that is given. Prints how many requests were replayed and how many of them changed the
/// database, and returns the exit report and the desk. If an entry can't be read or replayed, where and why
/// goes to `errors`, and then the error code. If no desk could be opened, only the error code does, and
/// nothing is read.
pub fn replay_opened<S: PlanStore + Drop, R: Read, W: Write, E: Write>(
    alloc: Global,
    until: Option<u64>,
    opened: Result<Desk<S>, ErrorCode>,
    input: &mut R,
    output: &mut W,
    errors: &mut E,
) -> (ExitReport<E>, Option<Desk<S>>)
    ensures opened { IfOk opened (Replays R S.PlanStore until
        (passage R.Read W.Write input.old input.new output.old output.new)
        (ending result.0 (E.contents errors.old) (E.contents errors.new)) result.1) }
    ensures unopened { IfErr opened (IsUnplayed
        (passage R.Read W.Write input.old input.new output.old output.new)
        (ending result.0 (E.contents errors.old) (E.contents errors.new)) result.1) }
{
    match opened {
        Ok(mut desk) => {
            let exit = replay_at_desk(alloc, until, &mut desk, input, output, errors);
            (exit, Some(desk))
        }
        Err(failure) => (report_exit(errors, Err(failure)), None),
    }
}

// Replays the journal `input` at an open desk, up to `until` as `replay_opened` does, and prints the result.
fn replay_at_desk<S: PlanStore, R: Read, W: Write, E: Write>(
    alloc: Global,
    until: Option<u64>,
    desk: &mut Desk<S>,
    input: &mut R,
    output: &mut W,
    errors: &mut E,
) -> ExitReport<E>
    ensures replayed { IsReplayed R (IsHonest (S.doubt desk.new.store)) until
        (passage R.Read W.Write input.old input.new output.old output.new)
        (ending result (E.contents errors.old) (E.contents errors.new))
        (world_of S.content desk.old) (world_of S.content desk.new) }
    ensures remembered { Remembers S.doubt S.faults S.is_shielded desk.old.store desk.new.store }
{
    let replayed = replay(alloc, desk, until, input);
    report_end(alloc, &replayed, output, errors)
}

// Prints the result of a replay: a summary to `output` if all was replayed; else where and why it stopped to
// `errors`, and then the error code.
fn report_end<R, W: Write, E: Write>(
    alloc: Global,
    replayed: &Replayed<R>,
    output: &mut W,
    errors: &mut E,
) -> ExitReport<E>
    ensures { IsReplayReported replayed.now.ended replayed.now.progress.requests replayed.now.progress.changes
        replayed.now.place (ending result (E.contents errors.old) (E.contents errors.new))
        (course (W.contents output.old) (W.contents output.new)) }
{
    let requests = replayed.progress.requests;
    let changes = replayed.progress.changes;
    match end_fault(replayed.ended) {
        None => report_exit(errors, print_summary(alloc, requests, changes, output)),
        Some((failure, cause)) => {
            report_cause(alloc, requests, replayed.place, cause, errors);
            report_exit(errors, Err(failure))
        }
    }
}

// Why a replay didn't play all that was to be played: the error code of the command, and the cause in words
// for the administrator, in which `record` stands for a journal. None if all was played.
fn end_fault<R>(ended: ReplayEnd<R>) -> Option<(ErrorCode, &'static str)>
    ensures code { option_map (λ why. why.0) result ≡ spec.failure_of_end ended }
    ensures cause { IfSome result (λ why. why.1.now ≡ spec.cause_of_end ended) }
{
    let why = match ended {
        ReplayEnd::End | ReplayEnd::Until => return None,
        ReplayEnd::Endless | ReplayEnd::Unread(ReadFault::Unread(_)) => {
            (ErrorCode::Read, "a read failed")
        }
        ReplayEnd::Unread(ReadFault::OutOfMemory) => (ErrorCode::Memory, "memory ran out"),
        ReplayEnd::Unread(ReadFault::CutShort) => (
            ErrorCode::CutShort,
            "an entry that is cut short",
        ),
        ReplayEnd::Unread(ReadFault::NoRecord) => (ErrorCode::NoRecord, "no entry of a record"),
        ReplayEnd::Unplayed(ReplayFault::OutOfMemory) => (ErrorCode::Memory, "memory ran out"),
        ReplayEnd::Unplayed(ReplayFault::Store) => (ErrorCode::Store, "the store failed"),
        ReplayEnd::Unplayed(ReplayFault::NoRecord) => (
            ErrorCode::NoRecord,
            "an entry that no record has there",
        ),
        ReplayEnd::Unplayed(ReplayFault::NotNext) => (
            ErrorCode::NoRecord,
            "a record that is not the next one",
        ),
        ReplayEnd::Unplayed(ReplayFault::Differs) => (
            ErrorCode::Differs,
            "another answer than the recorded one",
        ),
    };
    Some(why)
}

// Prints the summary of a complete replay: how many requests were replayed, and how many of them changed the
// database (`changes`). `Memory` if there is no memory for it; `Write` if a write fails.
#[tactic(auto, using(crate::proofs::ReportingLemmas::begun_part))]
fn print_summary<W: Write>(
    alloc: Global,
    requests: u64,
    changes: u64,
    output: &mut W,
) -> Result<(), ErrorCode>
    ensures { IsLinePrinted result (replayed_line requests changes) (W.contents output.old)
        (W.contents output.new) }
{
    let text = summary_line(alloc, requests, changes)?;
    write_whole(output, text.as_bytes())?;
    Ok(())
}

// The summary of a complete replay, as `print_summary` prints it. An error if memory runs out.
#[tactic(auto, unfolding(crate::specs::Running::replayed_line))]
fn summary_line(alloc: Global, requests: u64, changes: u64) -> Result<String, AllocError>
    ensures { IfOk result (λ text. string_bytes text ≡ replayed_line requests changes) }
{
    format!(in alloc; "replayed {requests} requests, {changes} changes, all answers alike\n")
}

// Prints where and why a replay stopped: after `requests` requests, at the byte `place` of the input (from
// 0), because of `cause`. Write errors are ignored; if memory runs out, nothing is printed.
fn report_cause<E: Write>(alloc: Global, requests: u64, place: u64, cause: &str, errors: &mut E)
    ensures { IsLineWritten (place_line requests place cause.now) (E.contents errors.old)
        (E.contents errors.new)
        ⊎ (E.contents errors.new ≡ E.contents errors.old) }
{
    if let Ok(text) = cause_line(alloc, requests, place, cause) {
        let _ = write_line(errors, &text);
    }
}

// The line that says where and why a replay stopped, as `report_cause` prints it. An error if memory runs
// out.
#[tactic(auto, unfolding(crate::specs::Running::place_line))]
fn cause_line(alloc: Global, requests: u64, place: u64, cause: &str) -> Result<String, AllocError>
    ensures { IfOk result (λ text. string_bytes text ≡ place_line requests place cause.now) }
{
    format!(in alloc; "uss_desk: request {requests}, at byte {place}: {cause}\n")
}

// Writes `text` to `errors`, up to the first write that fails. Returns the write error, if there was one.
#[tactic(auto, using(crate::proofs::ReportingLemmas::begun_part))]
fn write_line<E: Write>(errors: &mut E, text: &str) -> Option<WriteError<E>>
    ensures { IsWrittenOrCut (is_some result) text.now (E.contents errors.old) (E.contents errors.new) }
{
    write_whole(errors, text.as_bytes()).err()
}
