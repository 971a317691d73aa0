//! Files of the operating system: what is at a path, why a file can't be opened, how a new file gets its
//! name, and the lines that report it to the administrator. It depends on no tables.
#![tactic(auto)]

pub mod access;
pub mod files;
pub mod naming;
pub mod pairs;
pub mod paths;
pub mod probing;
pub mod reporting;
pub mod state;
