//! Queries, and the rows that they return.

pub(crate) mod answer;
pub(crate) mod asking;
pub(crate) mod others;
pub(crate) mod plans;
pub(crate) mod queries;
pub(crate) mod query;
pub(crate) mod rivals;
pub(crate) mod taking;
pub(crate) mod volumes;
pub(crate) mod whole;
