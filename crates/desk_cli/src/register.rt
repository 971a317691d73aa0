//! The file of enrolments (`--operators`): lines `NAME CEILING`. Each enrols the operator NAME with a
//! ceiling, the greatest priority that it may use.

ghost use Rattle.std.specs.Prelude.{◌≡◌, ◌≤◌, ◌++◌, ◌∷◌, [], IfOk, IfSome, map};
ghost use Rattle.desk_rules.specs.Limits.{max_priority};
ghost use Rattle.desk_cli.specs.Lines.{AreEnrolments};
ghost use Rattle.desk_cli.specs.Malformed as spec;

use crate::line::{Enrolment, make_enrolment};
use std::alloc::{AllocError, Global};

/// The lines of `text`, without their line feeds. After a line feed at the end comes an empty line. An error
/// if memory runs out.
pub fn lines_of<'t>(alloc: Global, text: &'t str) -> Result<Vec<&'t str>, AllocError>
    ensures { IfOk result (λ lines. map (λ line. line.now) lines.items ≡ spec.lines_of text.now) }
{
    text.split('\n').collect(alloc)
}

/// Parses the lines that are `NAME CEILING`, in their order; other lines are skipped. An error if memory runs
/// out.
pub fn parse_enrolment_lines(alloc: Global, lines: &[&str]) -> Result<Vec<Enrolment>, AllocError>
    ensures in_range { IfOk result (λ enrolments. AreEnrolments enrolments.items) }
    ensures value { IfOk result (λ enrolments.
        enrolments.items ≡ spec.parse_enrolment_lines (map (λ line. line.now) lines.now)) }
{
    let mut enrolments = Vec::new(alloc);
    for line in lines {
        add_enrolment(&mut enrolments, line)?;
    }
    Ok(enrolments)
}

// Adds the enrolment of `line` to the end of `enrolments`; nothing if `line` is no enrolment. An error if
// memory runs out.
fn add_enrolment(enrolments: &mut Vec<Enrolment>, line: &str) -> Result<(), AllocError>
    ensures in_range { IfOk result (λ _. AreEnrolments enrolments.old.items →
        AreEnrolments enrolments.new.items) }
    ensures value { IfOk result (λ _. enrolments.new.items
        ≡ enrolments.old.items ++ spec.parse_enrolment_lines (line.now ∷ [])) }
{
    if let Some(enrolment) = parse_enrolment_line(line) {
        enrolments.push(enrolment)?;
    }
    Ok(())
}

/// Parses a line `NAME CEILING`, split at its first space. None if it is malformed.
#[tactic(auto, unfolding(crate::specs::Malformed::parse_enrolment_line))]
pub fn parse_enrolment_line(line: &str) -> Option<Enrolment>
    ensures value { result ≡ spec.parse_enrolment_line line.now }
    ensures in_range { IfSome result (λ e. e.ceiling ≤ max_priority) }
{
    let (name, ceiling) = line.split_once(' ')?;
    make_enrolment(name, ceiling)
}
