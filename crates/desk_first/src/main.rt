//! The planning desk over a list: those commands of the program `uss_desk` that keep no plans in a file,
//! without its database. It compiles in a fifth of the time, and answers the same bytes: both stores meet one
//! contract.
#![tactic(auto)]

ghost use Rattle.std.specs.Prelude.{◌≡◌, ◌||◌};
ghost use Rattle.std.specs.Option.{is_some};
ghost use Rattle.desk_cli.specs.Lines.{IsPlay, file_of};

use desk_cli::{
    ErrorCode, Line, PlayArgs, WordsFault, print_line, read_words, report, report_exit,
    report_malformed_argument,
};
use desk_program::play;
use desk_run::Desk;
use desk_store::ListStore;
use std::alloc::Global;
use std::env;
use std::io::BufReader;
use std::process::ExitCode;

// Runs the program on its arguments.
fn main(rt: HostRuntime) -> ExitCode {
    let status = match given_words(&rt) {
        Some(words) => run_words(&rt, rt.alloc(), words),
        None => fail(&rt, ErrorCode::Memory),
    };
    ExitCode::from(status)
}

// The command line, whose first word is the program's own name. None if memory runs out.
fn given_words(rt: &HostRuntime) -> Option<Vec<String>> {
    env::args(rt).ok()?.collect::<Vec<String>>(rt.alloc()).ok()
}

// Runs the command line `words`, and returns the exit status. Commands that use a file or serve a port aren't
// in this program: they fail with the error code `store`.
fn run_words(rt: &HostRuntime, alloc: Global, words: Vec<String>) -> u8 {
    match read_words(alloc, words) {
        Ok(Line::Play(line)) => play_here(rt, alloc, &line),
        Ok(line @ (Line::Token(_) | Line::Cover(_))) => {
            print_line(alloc, &line, &mut rt.stdout(), &mut rt.stderr()).status
        }
        Ok(_) => fail(rt, ErrorCode::Store),
        Err(WordsFault::Words(error)) => match error.print(rt) {
            Ok(()) => error.exit_code() as u8,
            Err(_) => fail(rt, ErrorCode::Write),
        },
        Err(WordsFault::Value) => fail_for_a_word(rt),
        Err(WordsFault::OutOfMemory) => fail(rt, ErrorCode::Memory),
    }
}

// Runs `play` with the arguments `line`: answers the requests of the standard input at an empty desk, and
// returns the exit status. If it is to use a database file or a journal, it fails with `store`.
fn play_here(rt: &HostRuntime, alloc: Global, line: &PlayArgs) -> u8
    requires { IsPlay line.now }
{
    if keeps(line) {
        return fail(rt, ErrorCode::Store);
    }
    let mut errors = rt.stderr();
    if line.desk.enrolments.is_empty() {
        report(
            alloc,
            "in memory",
            "no operator is enrolled, so each request is answered 403",
            &mut errors,
        );
    }
    let Ok(mut input) = BufReader::new(alloc, rt.stdin()) else {
        return fail(rt, ErrorCode::Memory);
    };
    let mut desk = Desk::new(ListStore::new(alloc));
    play(
        alloc,
        line,
        &mut desk,
        &mut input,
        &mut rt.stdout(),
        &mut errors,
    )
    .status
}

// Whether `play` with the arguments `line` keeps plans in a file, or requests in a folder.
fn keeps(line: &PlayArgs) -> bool
    ensures { result ≡ (is_some (file_of line.now.desk.database) || is_some line.now.desk.folder) }
{
    line.desk.database.path().is_some() || line.desk.folder.is_some()
}

// Prints which argument is malformed, and then the error code `value`; returns its exit status. If memory
// runs out, only the error code is printed.
fn fail_for_a_word(rt: &HostRuntime) -> u8 {
    if let Some(words) = given_words(rt) {
        report_malformed_argument(rt.alloc(), &words, &mut rt.stderr());
    }
    fail(rt, ErrorCode::Value)
}

// Prints the error code `failure`, and returns its exit status.
fn fail(rt: &HostRuntime, failure: ErrorCode) -> u8 {
    report_exit(&mut rt.stderr(), Err(failure)).status
}
