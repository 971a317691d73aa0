//! The first entries of a journal file. The terms of a desk are its settings: which priorities are permitted
//! (plans of equal priority may overlap there), and the limits on the spans and the cells of an operator's
//! plans.

ghost use Rattle.std.specs.Prelude.{◌≡◌, ◌++◌, map, option_to_list, IfOk, OnErr, OnOk};
ghost use Rattle.desk_record.specs.Record.{entries};
ghost use Rattle.desk_recording.specs.RecordWrites.{header, header_writes, permitted_below, permitted_if, limit_entry, Appended, FollowsWrites, StopsWriting};
ghost use Rattle.desk_program.specs.Enrolling.{AreNamed, operator_entry};

use crate::journal::{AppendError, Journal, append_to, sync_to};
use desk_cli::Enrolment;
use desk_record::{Kind, write_entry};
use desk_rules::decide::MAX_PRIORITY;
use desk_rules::permission::Permitted;
use desk_rules::terms::Terms;
use std::alloc::{AllocError, Global};

/// The version of the journal format, as the first entry has it.
const VERSION: &[u8] = b"1";

/// Writes the first entries of the journal file `number` of its folder: the version of the format, the
/// settings of the desk (`terms`), and the enrolment of each of `operators`. They are flushed to the disk.
///
/// # Errors
///
/// `OutOfMemory` if memory runs out: nothing is written. `Journal` if the file fails: some of the entries, or
/// all, may be in it.
pub fn write_header<J: Journal>(
    alloc: Global,
    journal: &mut J,
    number: u64,
    terms: &Terms,
    operators: &[Enrolment],
) -> Result<(), AppendError<J::Fault>>
    ensures done { OnOk result (FollowsWrites (J.writes journal.old) (J.writes journal.new)
        (header_writes number terms.now operators.now)) }
    ensures stops { OnErr result (StopsWriting (J.writes journal.old) (J.writes journal.new)
        (Appended (entries (header number terms.now operators.now)))) }
{
    let text = header_text(alloc, number, terms, operators)?;
    append_to(journal, &text)?;
    sync_to(journal)
}

// The text of the first entries of a journal file, as `write_header` writes them. An error if memory runs
// out.
fn header_text(
    alloc: Global,
    number: u64,
    terms: &Terms,
    operators: &[Enrolment],
) -> Result<Vec<u8>, AllocError>
    ensures { IfOk result (λ text. text.items ≡ entries (header number terms.now operators.now)) }
{
    let mut text = Vec::new(alloc);
    write_entry(&mut text, Kind::Record, number, VERSION)?;
    write_permitted(&mut text, &terms.permitted)?;
    write_limit(&mut text, Kind::Spans, terms.spans)?;
    write_limit(&mut text, Kind::Cells, terms.cells)?;
    write_operators(&mut text, operators)?;
    Ok(text)
}

// Appends an entry to `text` for each `permitted` priority (0 to 1,000), in ascending order. An error if
// memory runs out: some of them may be appended.
fn write_permitted(text: &mut Vec<u8>, permitted: &Permitted) -> Result<(), AllocError>
    ensures { OnOk result (text.new.items ≡ text.old.items
        ++ entries (permitted_below 1001 permitted.now)) }
{
    for priority in 0..MAX_PRIORITY + 1 {
        write_if_permitted(text, permitted, priority)?;
    }
    Ok(())
}

// Appends an entry for `priority` to `text` if that is among the `permitted` ones; else nothing. An error if
// memory runs out.
fn write_if_permitted(
    text: &mut Vec<u8>,
    permitted: &Permitted,
    priority: u32,
) -> Result<(), AllocError>
    ensures { OnOk result (text.new.items ≡ text.old.items
        ++ entries (permitted_if permitted.now priority)) }
{
    if permitted.has(priority) {
        write_entry(text, Kind::Permitted, u64::from(priority), b"")
    } else {
        Ok(())
    }
}

// Appends an entry of this `kind` (`Spans` or `Cells`) to `text` for the `limit`, if there is one. An error
// if memory runs out.
fn write_limit(text: &mut Vec<u8>, kind: Kind, limit: Option<u32>) -> Result<(), AllocError>
    ensures { OnOk result (text.new.items ≡ text.old.items
        ++ entries (map (limit_entry kind) (option_to_list limit))) }
{
    match limit {
        Some(limit) => write_entry(text, kind, u64::from(limit), b""),
        None => Ok(()),
    }
}

/// Appends an entry for each operator to `text`, in their order: its ceiling (the greatest priority that it
/// may use) as the number, its name as the bytes. The clause `named` says that each name is valid, as that of
/// any `Enrolment` is.
///
/// # Errors
///
/// `AllocError` if memory runs out: some of them may be appended.
pub(crate) fn write_operators(text: &mut Vec<u8>, operators: &[Enrolment]) -> Result<(), AllocError>
    ensures text { OnOk result (text.new.items ≡ text.old.items
        ++ entries (map operator_entry operators.now)) }
    ensures named { OnOk result (AreNamed operators.now) }
{
    for enrolment in operators {
        write_entry(
            text,
            Kind::Operator,
            u64::from(enrolment.ceiling),
            enrolment.operator.as_str().as_bytes(),
        )?;
    }
    Ok(())
}
