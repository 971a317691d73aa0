//! Changing: what a change makes of the rows.

pub(crate) mod changes;
