//! The state table: which states of a plan (its usage and the state of its aircraft) may follow which.

ghost use Rattle.std.specs.Prelude.{◌≡◌};
ghost use Rattle.std.specs.Option.{option_copied};
ghost use Rattle.desk_rules.specs.Outcome.{step_of, step_from, step_from_none, step_from_planned, step_from_use, step_from_contingency, step_from_closed};

use crate::plan::{PlanRow, PutCall, States, states_of};
use crate::words::{Aircraft, Note, PlanStatus, Usage};

/// What the state table says about a request.
#[derive(Clone, Copy, Debug, PartialEq, Eq)]
pub enum Step {
    /// The request is refused.
    Refuse(Note),
    /// The request is checked against the other rules and, if none refuses it, stored with this
    /// status.
    Check(PlanStatus),
    /// The request reports what happens in the air. It is stored with this status, with no check for
    /// conflicts.
    Report(PlanStatus),
    /// The stored plan is closed.
    Shut,
    /// The stored plan is already closed, and stays as it is.
    Keep,
}

/// What the state table says of `call`. `stored` is the operator's plan with the call's id, or `None` if
/// there is none.
pub fn transition(stored: Option<&PlanRow>, call: &PutCall) -> Step
    ensures { result ≡ step_of (option_copied stored.entry) call.now }
{
    transition_from(states_of(stored), call)
}

/// What the state table says of `call`. `stored` are the states of the operator's plan with the call's id, or
/// `None` if there is no such plan.
pub fn transition_from(stored: Option<States>, call: &PutCall) -> Step
    ensures { result ≡ step_from stored call.now }
{
    let (usage, aircraft) = (call.usage, call.aircraft);
    let Some(old) = stored else {
        return from_none(usage, aircraft);
    };
    match (old.usage, old.aircraft) {
        (Usage::Planned, _) => from_planned(usage, aircraft),
        (Usage::InUse, Aircraft::Contingent) => from_contingency(usage, aircraft),
        (Usage::InUse, _) => from_use(usage, aircraft),
        (Usage::Closed, _) => from_closed(usage),
    }
}

// What the state table says of the requested states if no plan is stored. A plan begins with a nominal
// aircraft.
fn from_none(usage: Usage, aircraft: Aircraft) -> Step
    ensures { result ≡ step_from_none usage aircraft }
{
    match (usage, aircraft) {
        (Usage::Closed, _) => Step::Refuse(Note::NotPlanned),
        (Usage::Planned, Aircraft::Nominal) => Step::Check(PlanStatus::Planned),
        (Usage::InUse, Aircraft::Nominal) => Step::Check(PlanStatus::OkToFly),
        (_, _) => Step::Refuse(Note::State),
    }
}

// What the state table says of the requested states if the stored plan is planned. An aircraft can go off its
// plan only in use.
fn from_planned(usage: Usage, aircraft: Aircraft) -> Step
    ensures { result ≡ step_from_planned usage aircraft }
{
    match (usage, aircraft) {
        (Usage::Closed, _) => Step::Shut,
        (Usage::Planned, Aircraft::Nominal) => Step::Check(PlanStatus::Planned),
        (Usage::Planned, _) => Step::Refuse(Note::State),
        (Usage::InUse, Aircraft::Nominal) => Step::Check(PlanStatus::OkToFly),
        (Usage::InUse, _) => Step::Report(PlanStatus::OffNominal),
    }
}

// What the state table says of the requested states if the stored plan is in use and its aircraft needs no
// contingency procedure. A plan in use can't be planned again.
fn from_use(usage: Usage, aircraft: Aircraft) -> Step
    ensures { result ≡ step_from_use usage aircraft }
{
    match (usage, aircraft) {
        (Usage::Closed, _) => Step::Shut,
        (Usage::Planned, _) => Step::Refuse(Note::State),
        (Usage::InUse, Aircraft::Nominal) => Step::Check(PlanStatus::OkToFly),
        (Usage::InUse, _) => Step::Report(PlanStatus::OffNominal),
    }
}

// What the state table says of the requested states if the stored plan is in use and its aircraft needs a
// contingency procedure. Only this state, or the end of the flight, may follow.
fn from_contingency(usage: Usage, aircraft: Aircraft) -> Step
    ensures { result ≡ step_from_contingency usage aircraft }
{
    match (usage, aircraft) {
        (Usage::Closed, _) => Step::Shut,
        (Usage::InUse, Aircraft::Contingent) => Step::Report(PlanStatus::OffNominal),
        (_, _) => Step::Refuse(Note::State),
    }
}

// What the state table says of the requested usage if the stored plan is closed: it may only be closed again.
fn from_closed(usage: Usage) -> Step
    ensures { result ≡ step_from_closed usage }
{
    match usage {
        Usage::Closed => Step::Keep,
        _ => Step::Refuse(Note::Closed),
    }
}
