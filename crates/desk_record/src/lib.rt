//! The format of the request journal: entries with each request, its moment and its answer, written and read.
#![tactic(auto)]

mod entry;
mod kind;
mod laws;
mod line;
mod numbers;
mod reading;
mod sums;

pub use entry::{Entry, write_entry};
pub use kind::Kind;
pub use laws::{an_entry_is_not_short, beginnings_are_short, lengths, one_entry, one_record};
pub use reading::{ReadFault, read_entry};
