//! The commands `play` and `enrol` at an open desk, and the enrolments of all commands. The terms of a desk
//! are its settings. An enrolment has an operator's name and its ceiling, the greatest priority that it may
//! use.

ghost use Rattle.std.specs.Prelude.{◌≡◌, ◌≤◌, IfErr, IfOk, string_bytes};
ghost use Rattle.desk_run.specs.{Calls.FindsOnly, Calls.IsBreakdown, Calls.IsStoreFaultCounted, Verdicts.world_of};
ghost use Rattle.desk_store.specs.Changes.{Remembers, IsHonest};
ghost use Rattle.desk_wire.specs.Streams.{passage};
ghost use Rattle.desk_cli.specs.Exits as spec;
ghost use Rattle.desk_rules.specs.Limits.{max_priority};
ghost use Rattle.desk_cli.specs.Lines.{AreEnrolments, IsPlay};
ghost use Rattle.desk_program.specs.Enrolling.{HasCause, HasEnrolled, HasEnrolledNew, on_terms, IsEnrolled, IsPlayDone, done_unless};
ghost use Rattle.desk_program.specs.Enrolling as enrolling;
ghost use Rattle.desk_program.specs.Keeping.{FindsEnrolled, FindsEnrolments, FindsNewEnrolments, IsPlayKept, bytes_written, ended};

use desk_cli::{Enrolment, ErrorCode, ExitReport, PlayArgs, report_exit};
use desk_rules::terms::Terms;
use desk_run::{Desk, DeskFault};
use desk_store::PlanStore;
use desk_wire::play_all;
use io_ends::{PlayEnd, write_whole};
use std::alloc::{AllocError, Global};
use std::io::{Read, Write};

/// Runs the command `play` with the arguments `line` at a desk: sets its terms, enrols operators, and answers
/// the requests of the input. If an enrolment fails, nothing is read. Returns the exit report. An error code
/// goes to `errors`; a failed write there is ignored.
pub fn play<S: PlanStore, R: Read, W: Write, E: Write>(
    alloc: Global,
    line: &PlayArgs,
    desk: &mut Desk<S>,
    input: &mut R,
    output: &mut W,
    errors: &mut E,
) -> ExitReport<E>
    requires { IsPlay line.now }
    ensures played { IsPlayDone (IsHonest (S.doubt desk.new.store)) line.now
        (ended E.Write result errors.old errors.new) (passage R.Read W.Write input.old input.new
        output.old output.new) (world_of S.content desk.old) (world_of S.content desk.new) }
    ensures kept { FindsOnly S.PlanStore desk.old desk.new (IsPlayKept (IsHonest (S.doubt desk.new.store))
        line.now (ended E.Write result errors.old errors.new) (passage R.Read W.Write input.old input.new
        output.old output.new) (world_of S.content desk.old) (world_of S.content desk.new)) }
    ensures remembered { Remembers S.doubt S.faults S.is_shielded desk.old.store desk.new.store }
    ensures cause { HasCause S.PlanStore desk.old desk.new (ended E.Write result errors.old errors.new) }
{
    if let Err(fault) = set_up(desk, &line.desk.terms, &line.desk.enrolments) {
        return report_exit(errors, Err(ErrorCode::from(fault)));
    }
    let played = play_all(alloc, desk, line.moment, input, output);
    report_exit(errors, play_result(played.ended))
}

/// Enrols an operator at a desk, and prints a line that says so. The line is made first, so that nothing is
/// changed if there is no memory for it; if it can't be printed, the operator stays enrolled. Returns the
/// exit report. An error code goes to `errors`; a failed write there is ignored.
pub fn enrol<S: PlanStore, W: Write, E: Write>(
    alloc: Global,
    enrolment: &Enrolment,
    desk: &mut Desk<S>,
    output: &mut W,
    errors: &mut E,
) -> ExitReport<E>
    requires { enrolment.now.ceiling ≤ max_priority }
    ensures enrolled { IsEnrolled (IsHonest (S.doubt desk.new.store)) enrolment.now
        (ended E.Write result errors.old errors.new) (bytes_written W.Write output.old output.new)
        (world_of S.content desk.old) (world_of S.content desk.new) }
    ensures kept { FindsOnly S.PlanStore desk.old desk.new (FindsEnrolled enrolment.now
        (ended E.Write result errors.old errors.new) (bytes_written W.Write output.old output.new)
        (world_of S.content desk.old)) }
    ensures remembered { Remembers S.doubt S.faults S.is_shielded desk.old.store desk.new.store }
    ensures cause { HasCause S.PlanStore desk.old desk.new (ended E.Write result errors.old errors.new) }
{
    let Ok(text) = enrolled_text(alloc, enrolment) else {
        return report_exit(errors, Err(ErrorCode::Memory));
    };
    if let Err(fault) = desk.enrol(&enrolment.operator, enrolment.ceiling) {
        return report_exit(errors, Err(ErrorCode::from(fault)));
    }
    match write_whole(output, text.as_bytes()) {
        Ok(()) => ExitReport::silent(0),
        Err(cut) => report_exit(errors, Err(ErrorCode::from(cut))),
    }
}

// The line of `enrol`: the operator's name and its ceiling. An error if memory runs out.
#[tactic(auto, unfolding(crate::specs::Enrolling::enrolled_line))]
fn enrolled_text(alloc: Global, enrolment: &Enrolment) -> Result<String, AllocError>
    ensures { IfOk result (λ text. string_bytes text ≡ enrolling.enrolled_line enrolment.now) }
{
    let operator = enrolment.operator;
    let ceiling = enrolment.ceiling;
    format!(in alloc; "enrolled {operator} {ceiling}\n")
}

// The result of `play`, by why it read no more requests: an error unless the input ended.
fn play_result(ended: PlayEnd) -> Result<(), ErrorCode>
    ensures { result ≡ done_unless (spec.failure_after ended) }
{
    match ended {
        PlayEnd::End => Ok(()),
        PlayEnd::Unframed => Err(ErrorCode::Unframed),
        PlayEnd::Broken => Err(ErrorCode::Broken),
        PlayEnd::Limit => Err(ErrorCode::Limit),
        PlayEnd::Fault(fault) => Err(ErrorCode::from(fault)),
    }
}

/// Sets the terms of a desk, and enrols operators in the order given: a name given twice has its last
/// ceiling.
///
/// # Errors
///
/// The first error of an enrolment, `OutOfMemory` or `Store`. The terms are set by then, and the operators
/// before it stay enrolled.
pub fn set_up<S: PlanStore>(
    desk: &mut Desk<S>,
    terms: &Terms,
    enrolments: &[Enrolment],
) -> Result<(), DeskFault>
    requires { AreEnrolments enrolments.now }
    ensures listed { HasEnrolled (IsHonest (S.doubt desk.new.store)) result enrolments.now
        (on_terms (world_of S.content desk.old) terms.now) (world_of S.content desk.new) }
    ensures kept { FindsOnly S.PlanStore desk.old desk.new (FindsEnrolments
        (IsHonest (S.doubt desk.new.store)) result enrolments.now
        (on_terms (world_of S.content desk.old) terms.now) (world_of S.content desk.new)) }
    ensures fault { IfErr result IsBreakdown }
    ensures remembered { Remembers S.doubt S.faults S.is_shielded desk.old.store desk.new.store }
    ensures cause { IfErr result (IsStoreFaultCounted S.faults desk.old.store desk.new.store) }
{
    desk.set_terms(*terms);
    enrol_all(desk, enrolments)
}

/// Enrols these operators while a desk serves, in the order given; one that is enrolled already gets this
/// ceiling. If there are none, the desk is left as it is. After a crash on the way, a start finds the
/// enrolments that were made, or one more (`found`).
///
/// # Errors
///
/// The first error of an enrolment, `OutOfMemory` or `Store`. The operators before it stay enrolled.
pub fn enrol_new<S: PlanStore>(
    desk: &mut Desk<S>,
    new_enrolments: &[Enrolment],
) -> Result<(), DeskFault>
    requires { AreEnrolments new_enrolments.now }
    ensures listed { HasEnrolledNew (IsHonest (S.doubt desk.new.store)) result new_enrolments.now
        (world_of S.content desk.old) (world_of S.content desk.new) }
    ensures found { IsHonest (S.doubt desk.new.store) → FindsNewEnrolments result new_enrolments.now
        (world_of S.content desk.old) (world_of S.content desk.new) (S.may_leave desk.old.store)
        (S.may_leave desk.new.store) }
    ensures fault { IfErr result IsBreakdown }
    ensures remembered { Remembers S.doubt S.faults S.is_shielded desk.old.store desk.new.store }
    ensures cause { IfErr result (IsStoreFaultCounted S.faults desk.old.store desk.new.store) }
{
    if new_enrolments.is_empty() {
        return Ok(());
    }
    enrol_all(desk, new_enrolments)
}

// Enrols operators in the order given: a name given twice has its last ceiling. After the first error,
// `OutOfMemory` or `Store`, the operators before it stay enrolled.
fn enrol_all<S: PlanStore>(desk: &mut Desk<S>, enrolments: &[Enrolment]) -> Result<(), DeskFault>
    requires { AreEnrolments enrolments.now }
    ensures listed { HasEnrolled (IsHonest (S.doubt desk.new.store)) result enrolments.now
        (world_of S.content desk.old) (world_of S.content desk.new) }
    ensures found { IsHonest (S.doubt desk.new.store) → FindsNewEnrolments result enrolments.now
        (world_of S.content desk.old) (world_of S.content desk.new) (S.may_leave desk.old.store)
        (S.may_leave desk.new.store) }
    ensures fault { IfErr result IsBreakdown }
    ensures remembered { Remembers S.doubt S.faults S.is_shielded desk.old.store desk.new.store }
    ensures cause { IfErr result (IsStoreFaultCounted S.faults desk.old.store desk.new.store) }
{
    for enrolment in enrolments {
        desk.enrol(&enrolment.operator, enrolment.ceiling)?;
    }
    Ok(())
}
