//! Lines for the administrator on the standard error: `uss_desk: NAME: TEXT`.

ghost use Rattle.std.specs.Prelude.{◌≡◌, IfOk, option_map, string_bytes};
ghost use Rattle.desk_program.specs.Keeping.{bytes_written};
ghost use Rattle.host_files.specs.Naming as spec;
ghost use Rattle.host_files.specs.Naming.{IsWrittenIfRoom, IsWrittenUpTo, Reports};

use io_ends::{WriteError, write_whole};
use std::alloc::{AllocError, Global};
use std::io::Write;

// What is reported of a database without operators.
const UNENROLLED: &str = "no operator is enrolled, so each request is answered 403";

/// Prints the line `uss_desk: PATH: TEXT` on `errors`, the standard error. A failed write and running out of
/// memory are ignored.
#[tactic(auto, using(crate::proofs::lemmas::Reporting::reports_noted))]
pub fn report_text<E: Write>(alloc: Global, path: &str, text: &str, errors: &mut E)
    ensures line { IsWrittenIfRoom (spec.line_of path.now text.now)
        (bytes_written E.Write errors.old errors.new) }
    ensures reported { Reports (bytes_written E.Write errors.old errors.new) }
{
    if let Ok(line) = line_of(alloc, path, text) {
        let _ = report_line(&line, errors);
    }
}

/// The line that reports `text` about the file at `path`.
///
/// # Errors
///
/// `AllocError` if memory runs out.
#[tactic(auto, unfolding(crate::specs::Naming::line_of))]
pub fn line_of(alloc: Global, path: &str, text: &str) -> Result<String, AllocError>
    ensures { IfOk result (λ line. string_bytes line ≡ spec.line_of path.now text.now) }
{
    format!(in alloc; "uss_desk: {path}: {text}\n")
}

/// Prints a line to `errors`, and returns where the write broke off, or `None` if it didn't.
#[tactic(auto, using(crate::proofs::lemmas::Reporting::noted))]
pub fn report_line<E: Write>(line: &str, errors: &mut E) -> Option<WriteError<E>>
    ensures cut { IsWrittenUpTo line.now result (bytes_written E.Write errors.old errors.new) }
    ensures line { IsWrittenIfRoom line.now (bytes_written E.Write errors.old errors.new) }
{
    write_whole(errors, line.as_bytes()).err()
}

/// Reports to `errors` that a database has no operator: the one in the file at `path`, or the one in memory
/// if that is `None`. A failed write and running out of memory are ignored.
pub fn report_unenrolled<E: Write>(alloc: Global, path: Option<&str>, errors: &mut E)
    ensures { IsWrittenIfRoom (spec.unenrolled_line (option_map (λ path. path.now) path.entry))
        (bytes_written E.Write errors.old errors.new) }
{
    match path {
        Some(path) => report_text(alloc, path, UNENROLLED, errors),
        None => report_text(alloc, "in memory", UNENROLLED, errors),
    }
}
