//! Requests to put a plan, from the JSON of their bodies.
ghost use Rattle.std.specs.Prelude.{◌≡◌, option_and_then};
ghost use Rattle.serde_json.specs.View.{view};
ghost use Rattle.request_parser.specs.{Messages.GivesIfRoom, Requests.integer_in};
ghost use Rattle.request_parser.specs.Requests as spec;

use crate::json_in::{array_at, non_null_at, read_json, text_at};
use crate::volume_in::read_area;
use crate::wire_fault::{ReadError, WireFault};
use desk_rules::decide::MAX_PRIORITY;
use desk_rules::plan::PutCall;
use desk_rules::plan_id::PlanId;
use desk_rules::words::{Aircraft, Style, Usage};
use serde_json::Value;
use std::alloc::Global;

/// Parses `body`, the JSON body of a PUT of the plan `id`.
///
/// # Errors
///
/// `OutOfMemory` if memory runs out. Else the first fault: `BadJson`, then `BadMember`, then `BadVolume` if
/// there are not 1 to 32 volumes, then the fault of the first volume that has one (`BadVolume` or
/// `TooManyCells`).
#[tactic(auto, unfolding(crate::specs::Requests::put_in))]
pub fn read_put(alloc: Global, id: PlanId, body: &[u8]) -> Result<PutCall, ReadError>
    ensures { GivesIfRoom (λ call. call) result (spec.put_in id body.now) }
{
    let value = read_json(alloc, body)?;
    read_members(alloc, id, &value)
}

// Reads a PUT of the plan `id` from `value`, the JSON of its body. The order of the reads is that in which
// faults are reported: first `BadMember`, and the faults of the volumes last.
#[tactic(auto, unfolding(crate::specs::Requests::put_of))]
fn read_members(alloc: Global, id: PlanId, value: &Value) -> Result<PutCall, ReadError>
    ensures { GivesIfRoom (λ call. call) result (spec.put_of id (view value.now)) }
{
    let style = text_at(value, "execution_style")
        .and_then(parse_style)
        .ok_or(WireFault::BadMember)?;
    let plan = value.get("flight_plan").ok_or(WireFault::BadMember)?;
    let information = plan.get("basic_information").ok_or(WireFault::BadMember)?;
    let usage = text_at(information, "usage_state")
        .and_then(parse_usage)
        .ok_or(WireFault::BadMember)?;
    let aircraft = text_at(information, "uas_state")
        .and_then(parse_aircraft)
        .ok_or(WireFault::BadMember)?;
    let items = array_at(information, "area").ok_or(WireFault::BadMember)?;
    let priority = read_priority(plan)?;
    let area = read_area(alloc, items)?;
    Ok(PutCall {
        id,
        style,
        usage,
        aircraft,
        priority,
        area,
    })
}

// The priority of `plan`, a `flight_plan`: 0 if `astm_f3548_21`, or its `priority`, is missing or null.
// `BadMember` if the first is not an object, or the second not an integer from 0 to 1,000.
#[tactic(auto, unfolding(crate::specs::Requests::priority_of))]
fn read_priority(plan: &Value) -> Result<u32, WireFault>
    ensures { result ≡ spec.priority_of (view plan.now) }
{
    let Some(rules) = non_null_at(plan, "astm_f3548_21") else {
        return Ok(0);
    };
    if !rules.is_object() {
        return Err(WireFault::BadMember);
    }
    match non_null_at(rules, "priority") {
        Some(priority) => read_priority_number(priority).ok_or(WireFault::BadMember),
        None => Ok(0),
    }
}

// The priority that `value` is: an integer from 0 to 1,000. `None` for every other value.
fn read_priority_number(value: &Value) -> Option<u32>
    ensures { result ≡ option_and_then spec.priority_number (integer_in (view value.now)) }
{
    let priority = u32::try_from(value.as_i64()?).ok()?;
    (priority <= MAX_PRIORITY).then_some(priority)
}

// The execution style that a word of InterUSS flight_planning v1 stands for; `None` for every other word.
#[tactic(auto, unfolding(crate::specs::Requests::style_of))]
fn parse_style(word: &str) -> Option<Style>
    ensures { result ≡ spec.style_of word.now }
{
    match word {
        "Hypothetical" => Some(Style::Hypothetical),
        "IfAllowed" => Some(Style::IfAllowed),
        "InReality" => Some(Style::InReality),
        _ => None,
    }
}

// The usage state that a word of InterUSS flight_planning v1 stands for; `None` for every other word.
#[tactic(auto, unfolding(crate::specs::Requests::usage_of))]
fn parse_usage(word: &str) -> Option<Usage>
    ensures { result ≡ spec.usage_of word.now }
{
    match word {
        "Planned" => Some(Usage::Planned),
        "InUse" => Some(Usage::InUse),
        "Closed" => Some(Usage::Closed),
        _ => None,
    }
}

// The aircraft state that a word of InterUSS flight_planning v1 stands for; `None` for every other word.
#[tactic(auto, unfolding(crate::specs::Requests::aircraft_of))]
fn parse_aircraft(word: &str) -> Option<Aircraft>
    ensures { result ≡ spec.aircraft_of word.now }
{
    match word {
        "Nominal" => Some(Aircraft::Nominal),
        "OffNominal" => Some(Aircraft::OffNominal),
        "Contingent" => Some(Aircraft::Contingent),
        _ => None,
    }
}
