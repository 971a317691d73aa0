//! The lines that `check` and `copy` print: what a database file has, and how much was copied. The area of a
//! plan is stored as spans, runs of cells that follow each other on the S2 curve. A plan is live until it is
//! closed. The functions that make a text return an error if memory runs out.

ghost use Rattle.std.specs.Prelude.{◌≡◌, ℕ, IfOk, List, codes, if◌then◌else◌, string_bytes};
ghost use Rattle.desk_cli.specs.Exits.{ending};
ghost use Rattle.desk_program.specs.Enrolling as spec;
ghost use Rattle.desk_program.specs.Enrolling.{IsTextPrinted};

use desk_cli::{ErrorCode, ExitReport, report_exit};
use io_ends::write_whole;
use std::alloc::{AllocError, Global};
use std::io::Write;

// A tenth of a megabyte, in bytes.
const TENTH: u64 = 100_000;

/// What `check` reports of a database file.
#[derive(Clone, Copy, Debug, PartialEq, Eq)]
pub struct CheckedFile {
    /// Whether the rows are those of schema 1.
    pub is_old: bool,
    /// Whether its pages have the checksums of SQLite's `cksumvfs`.
    pub has_checksums: bool,
    /// The number of operators.
    pub operators: usize,
    /// The number of plans, closed ones included.
    pub plans: usize,
    /// The number of plans that are not closed.
    pub live: usize,
    /// The number of rows of spans.
    pub spans: usize,
    /// The greatest number of such rows of one operator.
    pub most_spans: usize,
    /// The greatest number of cells of one operator's plans, closed ones included.
    pub most_cells: usize,
    /// The size of the file in bytes.
    pub size: u64,
    /// The size of its WAL in bytes.
    pub log: u64,
}

/// Prints the line of `check`: what a database file has. Returns the exit report. An error code goes to
/// `errors`; a failed write there is ignored.
pub fn print_checked<W: Write, E: Write>(
    alloc: Global,
    file: &CheckedFile,
    output: &mut W,
    errors: &mut E,
) -> ExitReport<E>
    ensures { IsTextPrinted (spec.checked_line file.now)
        (ending result (E.contents errors.old) (E.contents errors.new)) (W.contents output.old)
        (W.contents output.new) }
{
    print_line(checked_text(alloc, file), output, errors)
}

/// Prints the line of `copy`: how many operators and plans were copied. Returns the exit report. An error
/// code goes to `errors`; a failed write there is ignored.
pub fn print_copied<W: Write, E: Write>(
    alloc: Global,
    operators: usize,
    plans: usize,
    output: &mut W,
    errors: &mut E,
) -> ExitReport<E>
    ensures { IsTextPrinted (spec.copied_line operators plans)
        (ending result (E.contents errors.old) (E.contents errors.new)) (W.contents output.old)
        (W.contents output.new) }
{
    print_line(copied_text(alloc, operators, plans), output, errors)
}

/// Prints `text`, the last line of a command; if it is an error, the command fails with `Memory`. Returns the
/// exit report. An error code goes to `errors`; a failed write there is ignored.
pub(crate) fn print_line<W: Write, E: Write>(
    text: Result<String, AllocError>,
    output: &mut W,
    errors: &mut E,
) -> ExitReport<E>
    ensures { (line : List ℕ) → IfOk text (λ text. string_bytes text ≡ line)
        → IsTextPrinted line (ending result (E.contents errors.old) (E.contents errors.new))
        (W.contents output.old) (W.contents output.new) }
{
    let Ok(text) = text else {
        return report_exit(errors, Err(ErrorCode::Memory));
    };
    match write_whole(output, text.as_bytes()) {
        Ok(()) => ExitReport::silent(0),
        Err(cut) => report_exit(errors, Err(ErrorCode::from(cut))),
    }
}

// The line of `check`, put together from its four parts.
fn checked_text(alloc: Global, file: &CheckedFile) -> Result<String, AllocError>
    ensures { IfOk result (λ text. string_bytes text ≡ spec.checked_line file.now) }
{
    let mut text = tables_text(alloc, file)?;
    text.push_str(&plans_text(alloc, file)?)?;
    text.push_str(&sizes_text(alloc, file)?)?;
    text.push_str(&most_text(alloc, file)?)?;
    Ok(text)
}

// The first part of the line of `check`: the schema, whether pages have checksums, and the number of
// operators.
#[tactic(auto, unfolding(crate::specs::Enrolling::tables_text))]
fn tables_text(alloc: Global, file: &CheckedFile) -> Result<String, AllocError>
    ensures { IfOk result (λ text. string_bytes text ≡ spec.tables_text file.now) }
{
    let schema = schema_of(file.is_old);
    let sums = yes_or_no(file.has_checksums);
    let operators = file.operators;
    format!(in alloc; "schema {schema}, sums {sums}, {operators} operators, ")
}

// The second part of the line of `check`: the numbers of plans, of live plans, and of spans.
#[tactic(auto, unfolding(crate::specs::Enrolling::plans_text))]
fn plans_text(alloc: Global, file: &CheckedFile) -> Result<String, AllocError>
    ensures { IfOk result (λ text. string_bytes text ≡ spec.plans_text file.now) }
{
    let plans = file.plans;
    let live = file.live;
    let spans = file.spans;
    format!(in alloc; "{plans} plans, {live} live, {spans} spans")
}

// The number of a file's schema: 1 if it is the old one, else 2.
fn schema_of(is_old: bool) -> u8
    ensures { result ≡ (if is_old then 1 else 2) }
{
    if is_old { 1 } else { 2 }
}

// How a flag is printed: `yes` if it is so, else `no`.
fn yes_or_no(is_so: bool) -> &'static str
    ensures { result.now ≡ (if is_so then codes "yes" else codes "no") }
{
    if is_so { "yes" } else { "no" }
}

// The third part of the line of `check`: the sizes of the file and its WAL in megabytes, rounded down to one
// decimal.
#[tactic(auto, unfolding(crate::specs::Enrolling::sizes_text))]
fn sizes_text(alloc: Global, file: &CheckedFile) -> Result<String, AllocError>
    ensures { IfOk result (λ text. string_bytes text ≡ spec.sizes_text file.now) }
{
    let size = file.size / TENTH;
    let whole = size / 10;
    let part = size % 10;
    let log = file.log / TENTH;
    let log_whole = log / 10;
    let log_part = log % 10;
    format!(in alloc; ", {whole}.{part} MB, {log_whole}.{log_part} MB in the log")
}

// The last part of the line of `check`: the most spans of one operator, and the most cells of one.
#[tactic(auto, unfolding(crate::specs::Enrolling::most_text))]
fn most_text(alloc: Global, file: &CheckedFile) -> Result<String, AllocError>
    ensures { IfOk result (λ text. string_bytes text ≡ spec.most_text file.now) }
{
    let spans = file.most_spans;
    let cells = file.most_cells;
    format!(in alloc;
        ", at most {spans} spans of one operator, at most {cells} cells of one operator\n"
    )
}

// The line of `copy`: how many operators and plans were copied.
#[tactic(auto, unfolding(crate::specs::Enrolling::copied_line))]
fn copied_text(alloc: Global, operators: usize, plans: usize) -> Result<String, AllocError>
    ensures { IfOk result (λ text. string_bytes text ≡ spec.copied_line operators plans) }
{
    format!(in alloc; "copied {operators} operators, {plans} plans\n")
}
