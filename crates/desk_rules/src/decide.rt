//! The verdict on a request to plan, change or close a flight, by the order of refusals.

ghost use Rattle.std.specs.Prelude.{◌≡◌, ◌∷◌, [], ◌&&◌, None, pos, ◌+ℤ◌, ◌-ℤ◌, int_lt, nat_le, nat_lt, is_none};
ghost use Rattle.std.specs.Option.{option_copied};
ghost use Rattle.desk_rules.specs.declared.words.Note.TheVariants as notes;
ghost use Rattle.desk_rules.specs.declared.words.PlanResult.TheVariants as results;
ghost use Rattle.desk_rules.specs.Outcome.{outcome, outcome_under, has_ended, is_beyond_horizon, step_status, step_effect, styled_effect, note_from, first_note, note_where, refused_result, shown_conflict, is_offered};
ghost use Rattle.desk_rules.specs.Limits.{max_plans, max_ahead};
ghost use Rattle.desk_rules.specs.Outcome as spec;

use crate::plan::{PlanRow, PutCall, States, states_of};
use crate::terms::Excess;
use crate::transition::{Step, transition_from};
use crate::words::{Aircraft, Note, PlanResult, PlanStatus, Style, Usage};
use volume4d::{Meeting, Volume};

/// How a request changes the stored plan with its id.
#[derive(Clone, Copy, Debug, PartialEq, Eq)]
pub enum Effect {
    /// Nothing changes.
    Nothing,
    /// The requested plan is stored, in place of any stored before.
    Save,
    /// The stored plan is closed.
    Shut,
}

/// The outcome of a request: `planning_result` and `flight_plan_status` of InterUSS flight_planning
/// v1, the reason for a refusal, and the change to the stored plan.
#[derive(Clone, Copy, Debug, PartialEq, Eq)]
pub struct Verdict {
    /// Whether the request was carried out.
    pub result: PlanResult,
    /// The status of the plan after the request.
    pub status: PlanStatus,
    /// Why the request was refused, or `None` if it was carried out.
    pub note: Option<Note>,
    /// The first blocked point, if the note is `Conflict`.
    pub meeting: Option<Meeting>,
    /// How the stored plan changes.
    pub effect: Effect,
}

/// What the verdict on a request depends on beside the request and the stored plan that it names.
#[derive(Clone, Copy, Debug, PartialEq, Eq)]
pub struct Standing {
    /// How many plans the operator has, closed ones included.
    pub own_rows: u32,
    /// The greatest priority that the operator may use.
    pub ceiling: u32,
    /// Which limits the operator's plans would exceed, with the requested one in place of the stored one.
    pub excess: Excess,
}

/// The greatest time between a request and the start of its plan, in seconds: thirty days.
pub const HORIZON: i64 = 2_592_000;

/// The greatest priority of a plan, and the greatest ceiling of an operator.
pub const MAX_PRIORITY: u32 = 1_000;

/// The most plans that an operator may have, closed ones included.
pub const MAX_PLANS: u32 = 200;

/// The verdict on the request `call`: the first refusal that applies, in the order of `Note`, or `Completed`
/// if none does. The contract allows an operator's plans any number of spans and of cells. The verdict where
/// these are limited is that of `decide_under`.
///
/// `moment` is the Unix second of the request. `stored` is the operator's plan with this id, or `None`.
/// `own_rows` is the number of the operator's plans, closed ones included. `ceiling` is the greatest priority
/// that the operator may use. `meeting` is the first blocked point of the requested area, or `None` if no
/// point is blocked.
#[tactic(auto, unfolding(crate::specs::Outcome::outcome))]
pub fn decide(
    call: &PutCall,
    moment: i64,
    stored: Option<&PlanRow>,
    own_rows: u32,
    ceiling: u32,
    meeting: Option<Meeting>,
) -> Verdict
    ensures { result ≡
        outcome call.now moment (option_copied stored.entry) own_rows ceiling meeting }
{
    let standing = Standing {
        own_rows,
        ceiling,
        excess: Excess::none(),
    };
    decide_under(call, moment, states_of(stored), &standing, meeting)
}

/// The verdict on a request, like that of `decide`, where spans and cells may be limited: `standing` says
/// which limits the operator would exceed. `stored` are the states of the operator's plan with the request's
/// id, or `None` if there is no such plan. `moment` and `meeting` are as for `decide`.
#[tactic(auto, unfolding(crate::specs::Outcome::outcome_under))]
pub fn decide_under(
    call: &PutCall,
    moment: i64,
    stored: Option<States>,
    standing: &Standing,
    meeting: Option<Meeting>,
) -> Verdict
    ensures { result ≡ outcome_under call.now moment stored standing.now meeting }
{
    match note_for(call, moment, stored, standing, meeting.is_some()) {
        Some(note) => Verdict {
            result: result_for(note),
            status: status_from(stored),
            note: Some(note),
            meeting: shown_conflict(note, meeting),
            effect: Effect::Nothing,
        },
        None => completed(call.style, transition_from(stored, call)),
    }
}

// The verdict on a request that no rule refuses. `style` is the request's, and `step` what the state table
// says of it.
fn completed(style: Style, step: Step) -> Verdict
    ensures { result ≡ record {
      result = results.Completed;
      status = step_status step;
      note = None;
      meeting = None;
      effect = styled_effect style (step_effect step);
    } }
{
    Verdict {
        result: PlanResult::Completed,
        status: status_after(step),
        note: None,
        meeting: None,
        effect: effect_of(style, step),
    }
}

// The first reason to refuse a request, in the order of `Note`, or `None` if there is none. `blocked` says
// whether the requested area has a conflict; the other parameters are those of `decide_under`. A report of
// what happens in the air (`Step::Report`) is not checked for times and conflicts. A request that closes a
// plan is only checked for its style and states.
#[tactic(auto, unfolding(crate::specs::Outcome::note_from))]
fn note_for(
    call: &PutCall,
    moment: i64,
    stored: Option<States>,
    standing: &Standing,
    blocked: bool,
) -> Option<Note>
    ensures { result ≡ note_from call.now moment stored standing.now blocked }
{
    if !is_offered(call.style, call.usage, call.aircraft) {
        return Some(Note::Style);
    }
    match transition_from(stored, call) {
        Step::Refuse(note) => Some(note),
        Step::Check(_) => {
            if any_ended(call.area.volumes(), moment) {
                return Some(Note::Ended);
            }
            if any_beyond_horizon(call.area.volumes(), moment) {
                return Some(Note::Horizon);
            }
            if let Some(note) = over_limit(call.priority, stored, standing) {
                return Some(note);
            }
            blocked.then_some(Note::Conflict)
        }
        Step::Report(_) => over_limit(call.priority, stored, standing),
        Step::Shut | Step::Keep => None,
    }
}

// The first of the operator's limits that it would exceed with a plan of priority `priority`, in the order of
// `Note`; `None` if it exceeds none. `stored` are the states of the plan that this one replaces, or `None` if
// the plan is new.
fn over_limit(priority: u32, stored: Option<States>, standing: &Standing) -> Option<Note>
    ensures { result ≡ first_note (note_where (nat_lt standing.now.ceiling priority) notes.Priority
        ∷ note_where (is_none stored && nat_le max_plans standing.now.own_rows) notes.PlansLimit
        ∷ note_where standing.now.excess.spans notes.SpansLimit
        ∷ note_where standing.now.excess.cells notes.CellsLimit ∷ []) }
{
    if priority > standing.ceiling {
        return Some(Note::Priority);
    }
    if is_full(stored, standing.own_rows) {
        return Some(Note::PlansLimit);
    }
    if standing.excess.spans {
        return Some(Note::SpansLimit);
    }
    if standing.excess.cells {
        return Some(Note::CellsLimit);
    }
    None
}

// Whether the plan is new (`stored` is `None`) and the operator already has 200 plans or more.
fn is_full(stored: Option<States>, own_rows: u32) -> bool
    ensures { result ≡ (is_none stored && nat_le max_plans own_rows) }
{
    stored.is_none() && own_rows >= MAX_PLANS
}

// Whether the desk supports the style for the requested states. `InReality` is only supported for reports of
// what has happened: that an aircraft in use is off its plan, or that a flight is over.
fn is_offered(style: Style, usage: Usage, aircraft: Aircraft) -> bool
    ensures { result ≡ is_offered style usage aircraft }
{
    match (style, usage, aircraft) {
        (Style::InReality, Usage::Planned, _)
        | (Style::InReality, Usage::InUse, Aircraft::Nominal) => false,
        (_, _, _) => true,
    }
}

// Whether some volume ends at or before the Unix second `moment`.
#[tactic(auto, unfolding(crate::specs::Outcome::has_ended))]
fn any_ended(volumes: &[Volume], moment: i64) -> bool
    ensures { result ≡ has_ended volumes.now moment }
{
    volumes.iter().any(|volume| volume.window().end() <= moment)
}

// Whether some volume starts more than `HORIZON` seconds after the Unix second `moment`.
#[tactic(auto, unfolding(crate::specs::Outcome::is_beyond_horizon))]
fn any_beyond_horizon(volumes: &[Volume], moment: i64) -> bool
    ensures { result ≡ is_beyond_horizon volumes.now moment }
{
    volumes
        .iter()
        .any(|volume| starts_beyond_horizon(volume, moment))
}

// Whether a volume starts more than `HORIZON` seconds after the Unix second `moment`.
fn starts_beyond_horizon(volume: &Volume, moment: i64) -> bool
    ensures { result ≡ int_lt (moment +ℤ pos max_ahead) volume.now.window.start }
{
    moment < earliest_request(volume)
}

// The Unix second from which on a volume may be requested: `HORIZON` before its start. A volume's start is
// limited, so that this difference can't overflow, while `moment + HORIZON` could.
fn earliest_request(volume: &Volume) -> i64
    ensures { result ≡ volume.now.window.start -ℤ pos max_ahead }
{
    volume.window().start() - HORIZON
}

// The result of a request that is refused for the reason `note`: `NotSupported` for the style, else
// `Rejected`.
fn result_for(note: Note) -> PlanResult
    ensures { result ≡ refused_result note }
{
    match note {
        Note::Style => PlanResult::NotSupported,
        _ => PlanResult::Rejected,
    }
}

/// The status of the plan `stored`, or `NotPlanned` if there is none: `flight_plan_status` of flight_planning
/// v1.
pub fn status_of(stored: Option<&PlanRow>) -> PlanStatus
    ensures { result ≡ spec.status_of (option_copied stored.entry) }
{
    status_from(states_of(stored))
}

/// The status of a plan in the states `stored`, or `NotPlanned` if there is none: `flight_plan_status` of
/// flight_planning v1.
pub fn status_from(stored: Option<States>) -> PlanStatus
    ensures { result ≡ spec.status_from stored }
{
    let Some(states) = stored else {
        return PlanStatus::NotPlanned;
    };
    match (states.usage, states.aircraft) {
        (Usage::Planned, _) => PlanStatus::Planned,
        (Usage::InUse, Aircraft::Nominal) => PlanStatus::OkToFly,
        (Usage::InUse, _) => PlanStatus::OffNominal,
        (Usage::Closed, _) => PlanStatus::Closed,
    }
}

// The status of the plan after `step`, which no rule refuses. So `step` isn't `Refuse`, and the value for
// that is arbitrary.
fn status_after(step: Step) -> PlanStatus
    ensures { result ≡ step_status step }
{
    match step {
        Step::Refuse(_) => PlanStatus::NotPlanned,
        Step::Check(status) | Step::Report(status) => status,
        Step::Shut | Step::Keep => PlanStatus::Closed,
    }
}

// The change to the stored plan by `step`, which no rule refuses. A request of the style `Hypothetical`
// changes nothing.
fn effect_of(style: Style, step: Step) -> Effect
    ensures { result ≡ styled_effect style (step_effect step) }
{
    if style == Style::Hypothetical {
        return Effect::Nothing;
    }
    match step {
        Step::Refuse(_) | Step::Keep => Effect::Nothing,
        Step::Check(_) | Step::Report(_) => Effect::Save,
        Step::Shut => Effect::Shut,
    }
}

// What is reported beside `note` as the first blocked point: `meeting` if the note is `Conflict`, else
// `None`.
fn shown_conflict(note: Note, meeting: Option<Meeting>) -> Option<Meeting>
    ensures { result ≡ shown_conflict note meeting }
{
    match note {
        Note::Conflict => meeting,
        _ => None,
    }
}
