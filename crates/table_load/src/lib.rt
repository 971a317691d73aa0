//! Loading a whole database: which tables it has, the state that their rows stand for, and why a database is
//! refused. A state has the operators with their ceilings, and all plans; it is valid if it keeps the desk's
//! limits.
#![tactic(auto)]

pub mod connecting;
mod covers;
pub mod fault;
pub mod finding;
pub mod looking;
pub mod moving;
pub mod naming;
mod ordering;
pub mod path;
mod spans;
pub mod word;
