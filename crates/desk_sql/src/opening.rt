//! What tables a database has, and making them.

pub(crate) mod finding;
pub(crate) mod making;
pub(crate) mod matching;
pub(crate) mod numbers;
pub(crate) mod objects;
pub(crate) mod unpacking;
