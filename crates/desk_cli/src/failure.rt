//! Error codes: why a command failed, its exit status, and the word that is printed. A desk is what the
//! program runs: it decides requests to plan flights, against the plans in its store.

ghost use Rattle.std.specs.Prelude.{◌≡◌, IfErr, None, OnOk, is_some};
ghost use Rattle.std.specs.Io.KnownBytes.{Appends};
ghost use Rattle.desk_cli.specs.Exits as spec;
ghost use Rattle.desk_cli.specs.Exits.{IsPartlyWritten};
ghost use Rattle.desk_cli.specs.declared.failure.ErrorCode.TheVariants as failure;

use desk_run::DeskFault;
use io_ends::{ServeFault, WriteError, write_whole};
use s2_cellid::TokenFault;
use s2_cover::{CoverFault, RectFault};
use std::alloc::{AllocError, AllocFailed};
use std::io::Write;

/// Why a command failed.
#[derive(Clone, Copy, Debug, PartialEq, Eq)]
pub enum ErrorCode {
    /// It isn't known where the next request begins.
    Unframed,
    /// The input ended inside a request.
    CutShort,
    /// A read failed.
    Read,
    /// The maximum number of requests of one run was answered.
    Limit,
    /// A text is no S2 token.
    Token(TokenFault),
    /// Six numbers are no rectangle.
    Rect(RectFault),
    /// The cover of a rectangle has too many cells.
    TooManyCells,
    /// The last answer has the status 500.
    Broken,
    /// Memory ran out.
    Memory,
    /// The store failed.
    Store,
    /// A write failed.
    Write,
    /// The port can't be listened at, or no connection can be accepted.
    Network,
    /// The time of the clock is out of range.
    Clock,
    /// An enrolment's ceiling is above 1,000.
    Value,
    /// A file isn't a valid database: its tables or its rows are wrong.
    NotADesk,
    /// A database has schema 1 and has to be migrated.
    OldSchema,
    /// The WAL of a database is damaged.
    DamagedLog,
    /// A journal is damaged, or a file of it is missing.
    NoRecord,
    /// The desk's answer differs from the recorded one.
    Differs,
}

impl ErrorCode {
    /// The exit status of a command that failed so: 2 because of its arguments, 3 because of its input, 4
    /// because of memory, the database, the output, the network or the clock.
    pub fn status(self) -> u8
        ensures { result ≡ spec.failure_status self }
    {
        match self {
            ErrorCode::Value => 2,
            ErrorCode::Unframed | ErrorCode::CutShort | ErrorCode::Read | ErrorCode::Limit => 3,
            ErrorCode::Token(_) | ErrorCode::Rect(_) | ErrorCode::TooManyCells => 3,
            ErrorCode::NoRecord | ErrorCode::Differs => 3,
            ErrorCode::Broken | ErrorCode::Memory | ErrorCode::Store | ErrorCode::Write => 4,
            ErrorCode::Network | ErrorCode::Clock | ErrorCode::NotADesk | ErrorCode::OldSchema => 4,
            ErrorCode::DamagedLog => 4,
        }
    }

    /// The word for this error code, as it is printed.
    pub fn word(self) -> &'static str
        ensures { result.now ≡ spec.failure_word self }
    {
        match self {
            ErrorCode::Unframed => "unframed",
            ErrorCode::CutShort => "cut_short",
            ErrorCode::Read => "read",
            ErrorCode::Limit => "limit",
            ErrorCode::Token(fault) => token_word(fault),
            ErrorCode::Rect(fault) => rect_word(fault),
            ErrorCode::TooManyCells => "too_many_cells",
            ErrorCode::Broken => "broken",
            ErrorCode::Memory => "memory",
            ErrorCode::Store => "store",
            ErrorCode::Write => "write",
            ErrorCode::Network => "network",
            ErrorCode::Clock => "clock",
            ErrorCode::Value => "value",
            ErrorCode::NotADesk => "not_a_desk",
            ErrorCode::OldSchema => "old_schema",
            ErrorCode::DamagedLog => "damaged_log",
            ErrorCode::NoRecord => "no_record",
            ErrorCode::Differs => "differs",
        }
    }
}

// The word for a text that is no S2 token (a cell's name in hex digits), by what is wrong with it.
fn token_word(fault: TokenFault) -> &'static str
    ensures { result.now ≡ spec.token_word fault }
{
    match fault {
        TokenFault::Empty => "empty",
        TokenFault::TooLong => "too_long",
        TokenFault::NotHex => "not_hex",
        TokenFault::NotACell => "not_a_cell",
    }
}

// The word for six numbers that are no rectangle, by what is wrong with them.
fn rect_word(fault: RectFault) -> &'static str
    ensures { result.now ≡ spec.rect_word fault }
{
    match fault {
        RectFault::Face => "face",
        RectFault::Coordinate => "coordinate",
        RectFault::Order => "order",
        RectFault::Level => "level",
    }
}

impl From<DeskFault> for ErrorCode {
    ghost from_gives = { λ fault failure. failure ≡ spec.enrolment_failure fault };

    // The error code of an enrolment that failed. It can't fail with `UnknownOperator` or `NoSuchPlan`.
    fn from(fault: DeskFault) -> ErrorCode {
        match fault {
            DeskFault::OutOfMemory => ErrorCode::Memory,
            DeskFault::Store => ErrorCode::Store,
            DeskFault::UnknownOperator | DeskFault::NoSuchPlan | DeskFault::Ceiling =>
                ErrorCode::Value,
        }
    }
}

impl From<ServeFault> for ErrorCode {
    ghost from_gives = { λ fault failure. failure ≡ spec.serving_failure fault };

    // The error code of a request that got no whole answer.
    fn from(fault: ServeFault) -> ErrorCode {
        match fault {
            ServeFault::Read => ErrorCode::Read,
            ServeFault::Write { .. } => ErrorCode::Write,
            ServeFault::CutShort => ErrorCode::CutShort,
            ServeFault::OutOfMemory => ErrorCode::Memory,
        }
    }
}

impl<W> From<WriteError<W>> for ErrorCode {
    ghost from_gives = { λ _ f. f ≡ failure.Write };

    // The error code of a write that failed.
    fn from(_cut: WriteError<W>) -> ErrorCode {
        ErrorCode::Write
    }
}

impl From<TokenFault> for ErrorCode {
    ghost from_gives = { λ fault f. f ≡ failure.Token fault };

    // The error code of a text that is no S2 token.
    fn from(fault: TokenFault) -> ErrorCode {
        ErrorCode::Token(fault)
    }
}

impl From<RectFault> for ErrorCode {
    ghost from_gives = { λ fault f. f ≡ failure.Rect fault };

    // The error code of six numbers that are no rectangle.
    fn from(fault: RectFault) -> ErrorCode {
        ErrorCode::Rect(fault)
    }
}

impl From<CoverFault> for ErrorCode {
    ghost from_gives = { λ fault f. f ≡ spec.cover_failure fault };

    // The error code of a rectangle for which no cover was made.
    fn from(fault: CoverFault) -> ErrorCode {
        match fault {
            CoverFault::TooManyCells { .. } => ErrorCode::TooManyCells,
            CoverFault::OutOfMemory => ErrorCode::Memory,
        }
    }
}

impl From<AllocError> for ErrorCode {
    ghost from_gives = { λ _ f. f ≡ failure.Memory };

    // The error code if memory ran out.
    fn from(_error: AllocError) -> ErrorCode {
        ErrorCode::Memory
    }
}

impl<T: Drop> From<AllocFailed<T>> for ErrorCode {
    ghost from_gives = { λ _ f. f ≡ failure.Memory };

    // The error code if memory ran out.
    fn from(_error: AllocFailed<T>) -> ErrorCode {
        ErrorCode::Memory
    }
}

/// How a command ended. `E` is the writer to which errors are reported.
#[derive_where(Clone, Copy, Debug, PartialEq, Eq)]
pub struct ExitReport<E> {
    /// The exit status.
    pub status: u8,
    /// The write error if the error code couldn't be printed whole.
    pub cut: Option<WriteError<E>>,
}

impl<E> ExitReport<E> {
    /// The report of a command that ended with `status`, and for which no error code was to be printed.
    pub fn silent(status: u8) -> ExitReport<E>
        ensures status { result.status ≡ status }
        ensures cut { result.cut ≡ None }
    {
        ExitReport { status, cut: None }
    }
}

/// Ends a command whose result is `done`. If that is an error, prints `uss_desk: WORD` with its word to
/// `errors`, and reports its status; else reports the status 0. A write error at `errors` doesn't change the
/// status: it is returned in `cut`.
pub fn report_exit<E: Write>(errors: &mut E, done: Result<(), ErrorCode>) -> ExitReport<E>
    ensures status { result.status ≡ spec.exit_status done }
    ensures reported { spec.IsExitReported done (is_some result.cut) (E.contents errors.old)
        (E.contents errors.new) }
{
    match done {
        Ok(()) => ExitReport::silent(0),
        Err(failure) => ExitReport {
            status: failure.status(),
            cut: write_failure(errors, failure).err(),
        },
    }
}

// Writes the line `uss_desk: WORD` with the word for `failure`. The error is that of the first write that
// failed: nothing is written after that.
fn write_failure<E: Write>(errors: &mut E, failure: ErrorCode) -> Result<(), WriteError<E>>
    ensures ok { OnOk result (Appends (E.contents errors.old) (E.contents errors.new)
        (spec.failure_line failure)) }
    ensures err { IfErr result (λ _. IsPartlyWritten (spec.failure_line failure)
        (E.contents errors.old) (E.contents errors.new)) }
{
    write_whole(errors, b"uss_desk: ")?;
    write_whole(errors, failure.word().as_bytes())?;
    write_whole(errors, b"\n")
}
