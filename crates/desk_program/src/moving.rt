//! The line of `migrate`, which reports how many plans were migrated to schema 2.

ghost use Rattle.std.specs.Prelude.{◌≡◌, IfOk, string_bytes};
ghost use Rattle.desk_cli.specs.Exits.{ending};
ghost use Rattle.desk_program.specs.Enrolling as spec;
ghost use Rattle.desk_program.specs.Enrolling.{IsCountPrinted};

use crate::looking::print_line;
use desk_cli::ExitReport;
use std::alloc::{AllocError, Global};
use std::io::Write;

/// Prints the line of `migrate`: how many plans were migrated (`count`). Returns the exit report. An error
/// code goes to `errors`; a failed write there is ignored.
pub fn print_migrated<W: Write, E: Write>(
    alloc: Global,
    count: u32,
    output: &mut W,
    errors: &mut E,
) -> ExitReport<E>
    ensures { IsCountPrinted count (ending result (E.contents errors.old) (E.contents errors.new))
        (W.contents output.old) (W.contents output.new) }
{
    print_line(migrated_text(alloc, count), output, errors)
}

// The line of `migrate`: how many plans were migrated (`count`). An error if memory runs out.
#[tactic(auto, unfolding(crate::specs::Enrolling::migrated_line))]
fn migrated_text(alloc: Global, count: u32) -> Result<String, AllocError>
    ensures { IfOk result (λ text. string_bytes text ≡ spec.migrated_line count) }
{
    format!(in alloc; "migrated {count} plans\n")
}
