//! Reading: what the store answers of its rows.

pub(crate) mod asking;
pub(crate) mod others;
pub(crate) mod plans;
pub(crate) mod readers;
