//! Which versions of the schema a database has rows of.

pub(crate) mod rows;
