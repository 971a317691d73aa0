//! The bodies of answers, as JSON. Each function fails only if memory runs out. The members of objects are in
//! alphabetical order.
ghost use Rattle.std.specs.Prelude.{◌≡◌, IfOk, codes};
ghost use Rattle.serde_json.specs.{Data.object, Data.member, View.view};
ghost use Rattle.desk_rules.specs.Outcome.{said_in};
ghost use Rattle.desk_writing.specs.ReplyText.{error_data, cleared_data, conflict_data, outcome_members, put_data, reply_data};

use crate::shown_out::{plans_value, shown_value};
use crate::words::{notes_text, result_word, status_word};
use desk_rules::reply::{PutReply, Reply};
use desk_rules::words::{Note, PlanResult, PlanStatus};
use serde_json::{Value, json};
use std::alloc::{AllocError, Global};
use volume4d::Meeting;

/// The JSON body of the answer for `reply`.
pub fn reply_value(alloc: Global, reply: &Reply) -> Result<Value, AllocError>
    ensures { IfOk result (λ v. view v ≡ reply_data (said_in reply.now)) }
{
    match reply {
        Reply::Ready => json!(in alloc; {"status": "Ready"}),
        Reply::Plans(plans) => plans_value(alloc, plans),
        Reply::Plan(shown) => shown_value(alloc, shown),
        Reply::Answered(put) => put_value(alloc, *put),
        Reply::Cleared(count) => cleared_value(alloc, *count),
    }
}

/// The JSON body of an error: `{"error":WORD}`, where `word` is the error code.
pub fn error_value(alloc: Global, word: &str) -> Result<Value, AllocError>
    ensures { IfOk result (λ v. view v ≡ error_data word.now) }
{
    json!(in alloc; {"error": word})
}

// The body of the answer to a clear that removed `count` plans.
fn cleared_value(alloc: Global, count: u32) -> Result<Value, AllocError>
    ensures { IfOk result (λ v. view v ≡ cleared_data count) }
{
    let message = format!(in alloc; "cleared {count}")?;
    json!(in alloc; {"outcome": {"message": message.as_str(), "success": true}})
}

// The body of the answer to a PUT or a DELETE, with the member `conflict` if `put.meeting` is a point.
fn put_value(alloc: Global, put: PutReply) -> Result<Value, AllocError>
    ensures { IfOk result (λ v. view v ≡ put_data put.status put.result put.note put.meeting) }
{
    match put.meeting {
        Some(meeting) => {
            let conflict = conflict_value(alloc, meeting)?;
            outcome_with_conflict_value(alloc, put.status, put.result, put.note, conflict)
        }
        None => outcome_value(alloc, put.status, put.result, put.note),
    }
}

// The body of the answer to a PUT or a DELETE without a conflict. `outcome` is for the member
// `planning_result`, `note` for `notes` (`None`: the empty text).
fn outcome_value(
    alloc: Global,
    status: PlanStatus,
    outcome: PlanResult,
    note: Option<Note>,
) -> Result<Value, AllocError>
    ensures { IfOk result (λ v. view v ≡ object (outcome_members status outcome note)) }
{
    json!(in alloc; {
        "flight_plan_status": status_word(status),
        "notes": notes_text(note),
        "planning_result": result_word(outcome)
    })
}

// The body of the answer to a PUT with a conflict, which is `conflict` as JSON. `outcome` is for the member
// `planning_result`, `note` for `notes` (`None`: the empty text).
fn outcome_with_conflict_value(
    alloc: Global,
    status: PlanStatus,
    outcome: PlanResult,
    note: Option<Note>,
    conflict: Value,
) -> Result<Value, AllocError>
    ensures { IfOk result (λ v. view v
        ≡ object (member (codes "conflict") (view conflict) (outcome_members status outcome note))) }
{
    json!(in alloc; {
        "conflict": conflict,
        "flight_plan_status": status_word(status),
        "notes": notes_text(note),
        "planning_result": result_word(outcome)
    })
}

/// The value of the JSON member `conflict`: a point, by its altitude in decimetres, its Unix second and the
/// S2 token of its leaf cell (`cell`), and the greatest priority that is held there.
///
/// # Errors
///
/// `AllocError` if memory runs out.
pub fn conflict_value(alloc: Global, meeting: Meeting) -> Result<Value, AllocError>
    ensures { IfOk result (λ v. view v ≡ conflict_data meeting) }
{
    let token = meeting.cell().token();
    json!(in alloc; {
        "altitude": meeting.altitude,
        "cell": token.as_str(),
        "priority": meeting.priority,
        "second": meeting.second
    })
}
