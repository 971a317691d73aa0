//! Lines carried out over streams in memory: the exit status, and what is printed.

ghost use Rattle.std.specs.Prelude.{◌≡◌, IfOk};
ghost use Rattle.desk_program.specs.Keeping.{IsPortless};

use desk_cli::{Database, DeskArgs, EnrolArgs, Enrolment, Line, PlayArgs};
use desk_program::with_desk;
use desk_rules::operator::Operator;
use desk_rules::terms::Terms;
use desk_run::Desk;
use desk_store::{ListStore, PlanStore};
use io_ends::Moment;
use std::alloc::Global;
use std::process::Abort;
use std::test::Fail;

// What a line came to.
#[derive(Drop)]
struct Done {
    status: u8,
    output: Vec<u8>,
    errors: Vec<u8>,
    desk: Desk<ListStore>,
}

// The line of `play` at second 0 for `alfa` and `bravo`.
fn play_line(alloc: Global) -> Result<Line, Fail>
    ensures { IfOk result IsPortless }
{
    let alfa = Enrolment {
        operator: Operator::try_new(b"alfa").ok_or("a name")?,
        ceiling: 1_000,
    };
    let bravo = Enrolment {
        operator: Operator::try_new(b"bravo").ok_or("a name")?,
        ceiling: 7,
    };
    Ok(Line::Play(PlayArgs {
        desk: desk_in_memory(vec![in alloc; alfa, bravo]?),
        moment: Moment { second: 0 },
    }))
}

// The desk in memory of these enrolments.
fn desk_in_memory(enrolments: Vec<Enrolment>) -> DeskArgs
    ensures { result.enrolments ≡ enrolments }
{
    DeskArgs {
        database: Database::InMemory,
        terms: Terms::none(),
        enrolments,
        operators: None,
        folder: None,
    }
}

// What that line comes to on these bytes.
fn played(alloc: Global, bytes: &[u8]) -> Result<Done, Fail> {
    let line = play_line(alloc)?;
    let mut desk = Desk::new(ListStore::new(alloc));
    let mut input = bytes;
    let mut output = Vec::new(alloc);
    let mut errors = Vec::new(alloc);
    let status = with_desk(
        alloc,
        &line,
        &mut desk,
        &mut input,
        &mut output,
        &mut errors,
    );
    Ok(Done {
        status,
        output,
        errors,
        desk,
    })
}

// Each row has an input, the exit status, and what is printed to the two writers.
fn check_plays(
    rt: &impl Abort,
    alloc: Global,
    rows: &[(&[u8], u8, &[u8], &str)],
) -> Result<(), Fail> {
    for (bytes, wanted, text, word) in rows {
        let done = played(alloc, bytes)?;
        assert_eq!(rt; done.status, *wanted, "{word}");
        assert_eq!(rt; done.output.as_slice(), *text);
        assert_eq!(rt; done.errors.as_slice(), word.as_bytes());
    }
    Ok(())
}

#[test]
fn says_how_it_ended(rt: HostRuntime) -> Result<(), Fail> {
    let no_route = b"HTTP/1.1 404 Not Found\r\ncontent-type: application/json\r\n\
        content-length: 20\r\nconnection: close\r\n\r\n{\"error\":\"no_route\"}"
        .as_slice();
    let bad_head = b"HTTP/1.1 400 Bad Request\r\ncontent-type: application/json\r\n\
        content-length: 20\r\nconnection: close\r\n\r\n{\"error\":\"bad_head\"}"
        .as_slice();
    let rows = [
        (b"GET /plans HTTP/1.1\r\n\r\n".as_slice(), 0, no_route, ""),
        (b"GET /status", 3, b"", "uss_desk: cut_short\n"),
        (b"GET\r\n\r\n", 3, bad_head, "uss_desk: unframed\n"),
    ];
    check_plays(&rt, rt.alloc(), &rows)
}

#[test]
fn enrols_every_name(rt: HostRuntime) -> Result<(), Fail> {
    let done = played(rt.alloc(), b"")?;
    let mut store = done.desk.into_store();
    let alfa = Operator::try_new(b"alfa").ok_or("a name")?;
    let bravo = Operator::try_new(b"bravo").ok_or("a name")?;
    assert_eq!(rt; store.ceiling(&alfa)?, Some(1_000));
    assert_eq!(rt; store.ceiling(&bravo)?, Some(7));
    Ok(())
}

// The line of `enrol` for `alfa`.
fn enrol_line(alloc: Global) -> Result<Line, Fail>
    ensures { IfOk result IsPortless }
{
    let alfa = Enrolment {
        operator: Operator::try_new(b"alfa").ok_or("a name")?,
        ceiling: 100,
    };
    Ok(Line::Enrol(EnrolArgs {
        desk: desk_in_memory(Vec::new(alloc)),
        enrolment: alfa,
    }))
}

// What came of enrolling `alfa` with a writer that takes `room` bytes: the exit status, what was written to
// it, how many bytes it has left, what was written to the errors, and the ceiling of `alfa`.
fn enrol_with(
    alloc: Global,
    room: usize,
) -> Result<(u8, [u8; 20], usize, Vec<u8>, Option<u32>), Fail> {
    let line = enrol_line(alloc)?;
    let alfa = Operator::try_new(b"alfa").ok_or("a name")?;
    let mut bytes = [0; 20];
    let mut output = bytes.get_mut(..room).ok_or("too much room")?;
    let mut errors = Vec::new(alloc);
    let mut input = b"".as_slice();
    let mut desk = Desk::new(ListStore::new(alloc));
    let status = with_desk(
        alloc,
        &line,
        &mut desk,
        &mut input,
        &mut output,
        &mut errors,
    );
    let left = output.len();
    let ceiling = desk.into_store().ceiling(&alfa)?;
    Ok((status, bytes, left, errors, ceiling))
}

// Enrols `alfa` with a writer that takes `room` bytes, and compares the exit status and what is printed to
// the two writers. The operator is enrolled in any case.
fn check_enrolment(
    rt: &impl Abort,
    alloc: Global,
    room: usize,
    wanted: u8,
    text: &str,
    word: &str,
) -> Result<(), Fail> {
    let (status, bytes, left, errors, ceiling) = enrol_with(alloc, room)?;
    assert_eq!(rt; status, wanted);
    assert_eq!(rt; room.checked_sub(left), Some(text.len()));
    assert!(rt; bytes.starts_with(text.as_bytes()));
    assert_eq!(rt; errors.as_slice(), word.as_bytes());
    assert_eq!(rt; ceiling, Some(100));
    Ok(())
}

// A line that is cut off leaves the operator enrolled.
#[test]
fn enrols_before_it_prints(rt: HostRuntime) -> Result<(), Fail> {
    for (room, wanted, text, word) in [
        (20, 0, "enrolled alfa 100\n", ""),
        (8, 4, "enrolled", "uss_desk: write\n"),
    ] {
        check_enrolment(&rt, rt.alloc(), room, wanted, text, word)?;
    }
    Ok(())
}
