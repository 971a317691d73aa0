//! The public calls as a caller writes them, from Rust: cells and areas, a store, a desk, requests as bytes,
//! files. What each function ensures is proved from the clauses of what it calls alone, so a call that gets
//! weaker breaks it here.
//!
//! A caller names the crates that it calls, as [crates.txt](../crates.txt) does for this one. What takes
//! memory takes the allocator first, and reports want of memory as a fault. A desk is a `Desk<S>` over any
//! store `S: PlanStore`: a function with clauses is best written over `S`, and called with a store in memory
//! (`ListStore`) or over tables (`SqliteStore`). What a call answers is claimed while the store is honest
//! (`IsHonest`), which a list always is. A clause reads a desk's content as `world_of S.content desk.old`,
//! and what a reply says as `said_in reply`.
#![tactic(auto)]

pub mod desks;
pub mod files;
pub mod ground;
pub mod lines;
pub mod requests;
pub mod stores;
