//! Error messages with their place: `uss_desk: PLACE: TEXT`.

ghost use Rattle.std.specs.Prelude.{◌≡◌, IfOk, map, string_bytes};
ghost use Rattle.desk_cli.specs.Malformed as spec;
ghost use Rattle.desk_cli.specs.Malformed.{IsMalformedReported, IsReported};

use crate::malformed::find_malformed_argument;
use io_ends::write_whole;
use std::alloc::{AllocError, Global};
use std::io::Write;

/// Prints `uss_desk: PLACE: TEXT` to `errors`; `place` is an argument or the path of a file. Write errors are
/// ignored; if memory runs out, nothing is printed.
#[tactic(auto, using(crate::proofs::ReportLemmas::nothing_reported, crate::proofs::ReportLemmas::printed_line, crate::proofs::ReportLemmas::broken_line))]
pub fn report<E: Write>(alloc: Global, place: &str, text: &str, errors: &mut E)
    ensures { IsReported place.now text.now (E.contents errors.old) (E.contents errors.new) }
{
    if let Ok(line) = report_line(alloc, place, text) {
        let _ = write_whole(errors, line.as_bytes());
    }
}

// The line `uss_desk: PLACE: TEXT`, with its line feed. An error if memory runs out.
#[tactic(auto, unfolding(crate::specs::Malformed::report_line))]
fn report_line(alloc: Global, place: &str, text: &str) -> Result<String, AllocError>
    ensures { IfOk result (λ line. string_bytes line ≡ spec.report_line place.now text.now) }
{
    format!(in alloc; "uss_desk: {place}: {text}\n")
}

/// Prints the first malformed argument of the command line `words`, and what it should have been, to
/// `errors`: `uss_desk: ARGUMENT: TEXT`. The first word is the program's own name. Write errors are ignored;
/// if `find_malformed_argument` finds none, or memory runs out, nothing is printed.
#[tactic(auto, using(crate::proofs::ReportLemmas::nothing_malformed))]
pub fn report_malformed_argument<E: Write>(alloc: Global, words: &[String], errors: &mut E)
    ensures { IsMalformedReported (map string_bytes words.now) (E.contents errors.old)
        (E.contents errors.new) }
{
    if let Some((word, cause)) = find_malformed_argument(alloc, words) {
        report(alloc, word, cause, errors);
    }
}
