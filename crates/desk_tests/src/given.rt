//! A desk, and a request to it with its answer, written by hand.

use desk_rules::operator::Operator;
use desk_run::{Desk, DeskFault};
use desk_store::ListStore;
use io_ends::Moment;
use std::alloc::Global;

/// The moment of all calls.
pub const MOMENT: Moment = Moment {
    second: 1_780_315_000,
};

/// The id of the plan.
pub const ID: &str = "11111111-1111-4111-8111-111111111111";

/// A whole request by the operator `alfa`.
pub const FIRST_PUT: &[u8] = b"PUT /flight_plans/11111111-1111-4111-8111-111111111111 HTTP/1.1\r\n\
host: desk\r\nx-operator: alfa\r\ncontent-length: 371\r\n\r\n\
{\"execution_style\":\"IfAllowed\",\"flight_plan\":{\"astm_f3548_21\":{\"priority\":10},\
\"basic_information\":{\"area\":[{\"time_end\":{\"format\":\"RFC3339\",\
\"value\":\"2026-06-01T13:00:00Z\"},\"time_start\":{\"format\":\"RFC3339\",\
\"value\":\"2026-06-01T12:00:00Z\"},\"volume\":{\"altitude_lower\":0,\
\"altitude_upper\":1000,\"cells\":[\"04\"]}}],\"uas_state\":\"Nominal\",\
\"usage_state\":\"Planned\"}},\"request_id\":\"r1\"}";

/// Its answer.
pub const COMPLETED: &[u8] = b"HTTP/1.1 200 OK\r\ncontent-type: application/json\r\n\
content-length: 73\r\nconnection: close\r\n\r\n\
{\"flight_plan_status\":\"Planned\",\"notes\":\"\",\"planning_result\":\"Completed\"}";

/// Its answer once its time is over.
pub const LATE: &[u8] = b"HTTP/1.1 200 OK\r\ncontent-type: application/json\r\n\
content-length: 80\r\nconnection: close\r\n\r\n\
{\"flight_plan_status\":\"NotPlanned\",\"notes\":\"ended\",\"planning_result\":\"Rejected\"}";

/// A desk at which `alfa` is enrolled.
pub fn desk_of_alfa(alloc: Global) -> Result<Desk<ListStore>, DeskFault> {
    let mut desk = Desk::new(ListStore::new(alloc));
    if let Some(alfa) = Operator::try_new(b"alfa") {
        desk.enrol(&alfa, 100)?;
    }
    Ok(desk)
}
