//! The end of a journal file: what a recovery has to do after a crash. The functions `apply_..` note in the
//! `Tail` what one entry says; after an error the `Tail` isn't used any more. `OutOfMemory` says that memory
//! ran out.

ghost use Rattle.std.specs.Prelude.{◌≡◌, IfErr, IfOk};
ghost use Rattle.std.specs.Io.KnownBytes.{Consumes};
ghost use Rattle.desk_record.specs.Record.{entry_parts, entry};
ghost use Rattle.desk_recording.specs.Tail as spec;
ghost use Rattle.desk_recording.specs.Tail.{HasNoTail, IsTail, Notes, StepsTail, empty_tail, tail_with, tail_shown};

use desk_cli::Enrolment;
use desk_record::{Entry, Kind, ReadFault, lengths, read_entry};
use desk_replay::is_500;
use desk_rules::decide::MAX_PRIORITY;
use desk_rules::operator::Operator;
use desk_rules::permission::Permitted;
use desk_rules::terms::{MAX_SPANS, MAX_TOTAL_CELLS, Terms};
use io_ends::ReadError;
use std::alloc::{AllocError, Global};
use std::io::Read;
use volume4d::MAX_SECOND;

/// The version of the journal format that is read.
const VERSION: &[u8] = b"1";

/// The length of an entry without its own bytes: a line of 86 bytes, and a line feed.
const OVERHEAD: u64 = 87;

/// A recorded request without an answer, or whose answer is a 500.
#[derive(Debug, Drop)]
pub struct PendingRequest {
    /// The Unix second at which it was decided, at most 253,370,764,800.
    pub second: u64,
    /// The bytes of the request.
    pub request: Vec<u8>,
}

/// What the whole entries of a journal file say.
#[derive(Debug, Drop)]
pub struct Tail {
    /// The number of the file in its folder, if it has a first entry.
    pub record: Option<u64>,
    /// The permitted priorities, in the order of their entries.
    pub permitted: Vec<u32>,
    /// The settings of the desk that wrote the file; `permitted` is a part of them.
    pub terms: Terms,
    /// The operators that were enrolled after the last request, or all if there is none.
    pub operators: Vec<Enrolment>,
    /// The last request, if it has no answer or a 500.
    pub asked: Option<PendingRequest>,
    /// The length of all whole entries, in bytes.
    pub size: u64,
}

/// What follows the last whole entry of a journal file.
#[derive(Clone, Copy, Debug, PartialEq, Eq)]
pub enum TailEnd {
    /// Nothing.
    End,
    /// A truncated entry, as a crash may leave it behind.
    Short,
    /// Something else: the file is damaged.
    Damaged,
}

/// Why an entry was not applied.
#[derive(Clone, Copy, Debug, PartialEq, Eq)]
pub enum EntryFault {
    /// Memory ran out.
    OutOfMemory,
    /// The entry is one that no desk writes at its place.
    NoRecord,
}

/// Why the end of a journal file could not be read from an `R`.
#[derive_where(Clone, Copy, Debug, PartialEq, Eq)]
pub enum TailFault<R> {
    /// A read failed, or a chunk was interrupted a million times.
    Unread(ReadError<R>),
    /// Memory ran out.
    OutOfMemory,
    /// An entry is one that no desk writes at its place.
    NoRecord,
    /// The whole entries have 2^64 - 1 bytes or more, which can't be counted any further.
    Endless,
}

impl<R> From<AllocError> for TailFault<R> {
    ghost use Rattle.std.specs.Prelude.{◌≡◌};
    ghost use Rattle.desk_recording.specs.declared.tail.TailFault.TheVariants as tail_fault;

    ghost from_gives = { λ _ fault. fault ≡ tail_fault.OutOfMemory };

    // A failed allocation means that memory ran out.
    fn from(_error: AllocError) -> TailFault<R> {
        TailFault::OutOfMemory
    }
}

impl<R> From<EntryFault> for TailFault<R> {
    ghost use Rattle.std.specs.Prelude.{◌≡◌};
    ghost use Rattle.desk_recording.specs.Tail.{tail_fault_of};

    ghost from_gives = { λ fault it. it ≡ tail_fault_of fault };

    // The end of the journal can't be read for the same reason.
    fn from(fault: EntryFault) -> TailFault<R> {
        match fault {
            EntryFault::OutOfMemory => TailFault::OutOfMemory,
            EntryFault::NoRecord => TailFault::NoRecord,
        }
    }
}

impl Tail {
    // The tail before the first entry is applied: nothing is said yet.
    fn empty(alloc: Global) -> Tail
        ensures { tail_shown result ≡ empty_tail }
    {
        Tail {
            record: None,
            permitted: Vec::new(alloc),
            terms: Terms::none(),
            operators: Vec::new(alloc),
            asked: None,
            size: 0,
        }
    }
}

/// Reads a journal file up to its end or to the first bytes that are no whole entry. Returns what the whole
/// entries say, and what follows them: an entry that is cut short, or damage, is no error. The contract
/// speaks of the bytes of `input`, if they are known.
///
/// # Errors
///
/// As `TailFault` says.
pub fn read_tail<R: Read>(alloc: Global, input: &mut R) -> Result<(Tail, TailEnd), TailFault<R>>
    ensures ok { IfOk result (λ read. IsTail (R.remaining input.old) read.1 (tail_shown read.0)) }
    ensures err { IfErr result (HasNoTail (R.remaining input.old)) }
{
    let mut tail = Tail::empty(alloc);
    while tail.size < u64::MAX {
        match read_next_entry(alloc, input, &mut tail) {
            Ok(None) => {}
            Ok(Some(ended)) => return Ok((tail, ended)),
            Err(fault) => return Err(fault),
        }
    }
    Err(TailFault::Endless)
}

// Reads the next entry and applies it to `tail`; returns None then. If there is no whole entry, returns what
// is there instead, and `tail` is unchanged. `NoRecord` if no desk writes such an entry there, `Unread` if a
// read fails; never `Endless`.
fn read_next_entry<R: Read>(
    alloc: Global,
    input: &mut R,
    tail: &mut Tail,
) -> Result<Option<TailEnd>, TailFault<R>>
    ensures { StepsTail result (R.remaining input.old) (R.remaining input.new) (tail_shown tail.old)
        (tail_shown tail.new) }
{
    match read_entry(alloc, input) {
        Ok(Some(entry)) => {
            apply_entry(tail, entry)?;
            Ok(None)
        }
        Ok(None) => Ok(Some(TailEnd::End)),
        Err(ReadFault::CutShort) => Ok(Some(TailEnd::Short)),
        Err(ReadFault::NoRecord) => Ok(Some(TailEnd::Damaged)),
        Err(ReadFault::OutOfMemory) => Err(TailFault::OutOfMemory),
        Err(ReadFault::Unread(error)) => Err(TailFault::Unread(error)),
    }
}

// Applies an entry to `tail` and adds its length to `tail.size`. `NoRecord` if no desk writes such an entry
// there: for example, the first one has to be the header, of the kind `Record`. `lengths` does nothing: its
// contract says how long an entry is.
#[tactic(auto, unfolding(crate::specs::Tail::tail_with))]
fn apply_entry(tail: &mut Tail, entry: Entry) -> Result<(), EntryFault>
    ensures { Notes result (tail_with (tail_shown tail.old) (entry_parts entry)) (tail_shown tail.new) }
{
    let Entry {
        kind,
        number,
        bytes,
    } = entry;
    if tail.record.is_none() && kind != Kind::Record {
        return Err(EntryFault::NoRecord);
    }
    lengths();
    tail.size = tail.size.saturating_add(OVERHEAD + bytes.len() as u64);
    apply_by_kind(tail, kind, number, bytes)
}

// Applies an entry to `tail`, by its kind, which says what `number` and `bytes` are. `NoRecord` if no desk
// writes such an entry there; for example, entries of the kinds `Permitted`, `Spans` and `Cells` have no
// bytes.
fn apply_by_kind(tail: &mut Tail, kind: Kind, number: u64, bytes: Vec<u8>) -> Result<(), EntryFault>
    ensures { Notes result (spec.tail_with_kind kind (tail_shown tail.old) number bytes.items)
        (tail_shown tail.new) }
{
    if !bytes.is_empty() && matches!(kind, Kind::Permitted | Kind::Spans | Kind::Cells) {
        return Err(EntryFault::NoRecord);
    }
    match kind {
        Kind::Record => apply_header(tail, number, &bytes),
        Kind::Permitted => apply_permitted(tail, number),
        Kind::Spans => apply_spans_limit(tail, number),
        Kind::Cells => apply_cells_limit(tail, number),
        Kind::Operator => apply_operator(tail, number, &bytes),
        Kind::Request => apply_request(tail, number, bytes),
        Kind::Answer => apply_answer(tail, number, &bytes),
    }
}

// Applies the header to `tail`: the file's number and the version of the format. `NoRecord` if it isn't the
// first entry or the version is another.
#[tactic(auto, unfolding(crate::specs::Tail::tail_with_header))]
fn apply_header(tail: &mut Tail, number: u64, version: &[u8]) -> Result<(), EntryFault>
    ensures { Notes result (spec.tail_with_header (tail_shown tail.old) number version.now)
        (tail_shown tail.new) }
{
    if tail.record.is_some() || version != VERSION {
        return Err(EntryFault::NoRecord);
    }
    tail.record = Some(number);
    Ok(())
}

// Adds a permitted priority to `tail`. `NoRecord` if it is above 1,000, not greater than the one before, or
// the 33rd.
#[tactic(auto, unfolding(crate::specs::Tail::tail_with_permitted))]
fn apply_permitted(tail: &mut Tail, priority: u64) -> Result<(), EntryFault>
    ensures { Notes result (spec.tail_with_permitted (tail_shown tail.old) priority) (tail_shown tail.new) }
{
    if priority > u64::from(MAX_PRIORITY) {
        return Err(EntryFault::NoRecord);
    }
    if tail.permitted.push(priority as u32).is_err() {
        return Err(EntryFault::OutOfMemory);
    }
    tail.terms.permitted = Permitted::try_new(&tail.permitted).map_err(|_| EntryFault::NoRecord)?;
    Ok(())
}

// Notes the limit on the spans of an operator's live plans. `NoRecord` if it is 0 or above `MAX_SPANS`.
#[tactic(auto, unfolding(crate::specs::Tail::tail_with_spans))]
fn apply_spans_limit(tail: &mut Tail, spans: u64) -> Result<(), EntryFault>
    ensures { Notes result (spec.tail_with_spans (tail_shown tail.old) spans) (tail_shown tail.new) }
{
    if spans < 1 || spans > u64::from(MAX_SPANS) {
        return Err(EntryFault::NoRecord);
    }
    tail.terms.spans = Some(spans as u32);
    Ok(())
}

// Notes the limit on the cells of all plans of an operator. `NoRecord` if it is 0 or above `MAX_TOTAL_CELLS`.
#[tactic(auto, unfolding(crate::specs::Tail::tail_with_cells))]
fn apply_cells_limit(tail: &mut Tail, cells: u64) -> Result<(), EntryFault>
    ensures { Notes result (spec.tail_with_cells (tail_shown tail.old) cells) (tail_shown tail.new) }
{
    if cells < 1 || cells > u64::from(MAX_TOTAL_CELLS) {
        return Err(EntryFault::NoRecord);
    }
    tail.terms.cells = Some(cells as u32);
    Ok(())
}

// Adds an operator with this name and ceiling to `tail`. `NoRecord` if the name is no operator's name, or the
// ceiling, the greatest priority that it may use, is above 1,000.
#[tactic(auto, unfolding(crate::specs::Tail::tail_with_operator))]
fn apply_operator(tail: &mut Tail, ceiling: u64, name: &[u8]) -> Result<(), EntryFault>
    ensures { Notes result (spec.tail_with_operator (tail_shown tail.old) ceiling name.now)
        (tail_shown tail.new) }
{
    let operator = Operator::try_new(name).ok_or(EntryFault::NoRecord)?;
    if ceiling > u64::from(MAX_PRIORITY) {
        return Err(EntryFault::NoRecord);
    }
    let ceiling = ceiling as u32;
    if tail
        .operators
        .push(Enrolment { operator, ceiling })
        .is_err()
    {
        return Err(EntryFault::OutOfMemory);
    }
    Ok(())
}

// Notes a request, which has no answer yet, and drops the operators before it: the desk has enrolled these.
// `NoRecord` if the request before is unanswered, or `second` is above `MAX_SECOND`.
#[tactic(auto, unfolding(crate::specs::Tail::tail_with_request))]
fn apply_request(tail: &mut Tail, second: u64, request: Vec<u8>) -> Result<(), EntryFault>
    ensures { Notes result (spec.tail_with_request (tail_shown tail.old) second request.items)
        (tail_shown tail.new) }
{
    if tail.asked.is_some() || second > MAX_SECOND as u64 {
        return Err(EntryFault::NoRecord);
    }
    tail.operators.clear();
    tail.asked = Some(PendingRequest { second, request });
    Ok(())
}

// Notes the answer to the last request. After a 500 the request still counts as unanswered. `NoRecord` if no
// request waits for an answer, or `second` isn't that of the request.
#[tactic(auto, unfolding(crate::specs::Tail::tail_with_answer))]
fn apply_answer(tail: &mut Tail, second: u64, answer: &[u8]) -> Result<(), EntryFault>
    ensures { Notes result (spec.tail_with_answer (tail_shown tail.old) second answer.now)
        (tail_shown tail.new) }
{
    let Some(asked) = &tail.asked else {
        return Err(EntryFault::NoRecord);
    };
    if asked.second != second {
        return Err(EntryFault::NoRecord);
    }
    if !is_500(answer) {
        tail.asked = None;
    }
    Ok(())
}
