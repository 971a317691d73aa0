//! The store of plans over tables in SQLite: how it is opened, read, changed, copied and closed. Its state
//! has the operators with their ceilings, and all plans; a state is valid if it keeps the desk's limits.
#![tactic(auto)]

mod changing;
mod closing;
pub mod laws;
mod opening;
mod reading;
mod store;
mod tables;

pub use closing::CheckpointError;
pub use opening::files::{Copied, CopyFault, FilesFault, Source, copy_from, look_at};
pub use opening::open::AdoptFault;
pub use operator_index::ListedOperator;
pub use store::SqliteStore;
pub use table_load::fault::OpenFault;
pub use table_load::looking::{DbStats, read_stats};
pub use table_load::naming::{InvalidPart, Named, find_invalid, part_at};
pub use table_load::path::NotOpened;
pub use table_load::word::open_word;
