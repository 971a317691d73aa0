//! Opening a store: over a connection, over files, and as a copy.

pub(crate) mod copying;
pub(crate) mod files;
pub(crate) mod open;
