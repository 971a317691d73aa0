//! Stores of plans: where a desk keeps its operators and their plans, and a store in memory.
//!
//! The content of a store is its operators with their ceilings (the greatest priority of each) and all plans.
//! A live plan is planned or in use, and holds the points of its area. A slab has the points of one range of
//! leaves (numbered along the S2 curve) in one range of altitudes and one of seconds. An extent is a slab for
//! which a store is asked.
#![tactic(auto)]

mod change;
mod fault;
pub mod laws;
mod limits;
mod list;
mod plan;
mod sizes;
mod store;

pub use change::Change;
pub use fault::StoreFault;
pub use list::{ListStore, in_order};
pub use sizes::Sizes;
pub use store::PlanStore;
