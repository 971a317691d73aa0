//! The desk: calls answered over a store, each prepared before it is committed. A prepared call has its reply
//! and the change to the store that goes with it; preparing changes nothing, and committing makes the change.
//!
//! A call is a request, after it is read. An operator's ceiling is the greatest priority that its plans may
//! have. A plan's conflict is the first of its points that another live plan blocks, by leaf, then altitude,
//! then second. A slab has the points of one range of leaves (numbered along the S2 curve) in one range of
//! altitudes and one of seconds. `least`, a parameter of many functions, is the least priority that blocks a
//! plan.
#![tactic(auto)]

mod desk;
mod fault;
pub mod laws;
mod pending;
mod run;

pub use desk::Desk;
pub use desk_rules::call::{Asked, Call};
pub use desk_rules::reply::{PutReply, Reply, Shown};
pub use fault::DeskFault;
pub use pending::Pending;
pub use run::{Outcome, Ran};
