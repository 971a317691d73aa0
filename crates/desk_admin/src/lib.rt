//! The administrator's commands on a database file: check it, copy it, put its tables in canonical order; and
//! the reports of why a file is refused.
#![tactic(auto)]

pub mod causes;
pub mod keeping;
pub mod reordering;
pub mod scratch_copies;
pub mod unopened;
