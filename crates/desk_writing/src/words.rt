//! The words in answers: those of InterUSS flight_planning v1, and the desk's own notes.

ghost use Rattle.std.specs.Prelude.{◌≡◌};
ghost use Rattle.desk_writing.specs.ReplyText as words;

use desk_rules::words::{Aircraft, Note, PlanResult, PlanStatus, Usage};

/// The value of `flight_plan_status` in an answer: the status of the plan.
pub fn status_word(status: PlanStatus) -> &'static str
    ensures { result.now ≡ words.status_word status }
{
    match status {
        PlanStatus::NotPlanned => "NotPlanned",
        PlanStatus::Planned => "Planned",
        PlanStatus::OkToFly => "OkToFly",
        PlanStatus::OffNominal => "OffNominal",
        PlanStatus::Closed => "Closed",
    }
}

/// The value of `planning_result` in an answer: whether the request was carried out.
pub fn result_word(outcome: PlanResult) -> &'static str
    ensures { result.now ≡ words.result_word outcome }
{
    match outcome {
        PlanResult::Completed => "Completed",
        PlanResult::Rejected => "Rejected",
        PlanResult::NotSupported => "NotSupported",
    }
}

// The word of `note`, which says why a PUT was refused. Clients read these words in the member `notes`.
fn note_word(note: Note) -> &'static str
    ensures { result.now ≡ words.note_word note }
{
    match note {
        Note::Style => "style",
        Note::State => "state",
        Note::Closed => "closed",
        Note::NotPlanned => "not_planned",
        Note::Ended => "ended",
        Note::Horizon => "horizon",
        Note::Priority => "priority",
        Note::PlansLimit => "plans_limit",
        Note::SpansLimit => "spans_limit",
        Note::CellsLimit => "cells_limit",
        Note::Conflict => "conflict",
    }
}

/// The value of `notes` in an answer: the note's word, or the empty text if there is no note.
pub fn notes_text(note: Option<Note>) -> &'static str
    ensures { result.now ≡ words.notes_text note }
{
    note.map_or("", note_word)
}

/// The value of `usage_state` in an answer: whether the flight is planned, in use or closed.
pub fn usage_word(usage: Usage) -> &'static str
    ensures { result.now ≡ words.usage_word usage }
{
    match usage {
        Usage::Planned => "Planned",
        Usage::InUse => "InUse",
        Usage::Closed => "Closed",
    }
}

/// The value of `uas_state` in an answer: whether the aircraft keeps to its plan.
pub fn aircraft_word(aircraft: Aircraft) -> &'static str
    ensures { result.now ≡ words.aircraft_word aircraft }
{
    match aircraft {
        Aircraft::Nominal => "Nominal",
        Aircraft::OffNominal => "OffNominal",
        Aircraft::Contingent => "Contingent",
    }
}
