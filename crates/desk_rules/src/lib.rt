//! The rules of the planning desk, independent of any storage: plans and their states, the state table,
//! permitted priorities, conflicts and the order of refusals.
//!
//! The words of requests and answers are those of InterUSS flight_planning v1. A plan is live while it is
//! planned or in use. An operator's ceiling is the greatest priority that it may use. A plan is blocked at a
//! point that another live plan holds at a greater priority, or at the same one if that is not permitted; its
//! conflict is the first such point.
#![tactic(auto)]

pub mod call;
pub mod conflict;
pub mod decide;
pub mod laws;
pub mod operator;
pub mod permission;
pub mod plan;
pub mod plan_id;
pub mod reply;
pub mod terms;
pub mod transition;
pub mod words;
