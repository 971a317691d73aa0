//! An index in memory of a store's operators, beside its tables: of each operator the ceiling, and the ids,
//! the states and the sizes of its plans.
//!
//! The states of a plan are its usage (planned, in use or closed) and the state of its aircraft. Its sizes
//! are how many spans it has (ranges of leaves along the S2 curve; none if it is closed) and how many cells.
//! The ceiling is the maximum priority that the operator may use.
#![tactic(auto)]

mod account;
mod listed;
mod roll;

pub use listed::ListedOperator;
pub use roll::OperatorIndex;
