//! An SQLite database file and its WAL as bytes: whether the WAL is damaged or has a commit, the checksums of
//! pages, the order in which the first page lists the tables and indexes of a desk; and a file in memory.
#![tactic(auto)]

mod commits;
mod committing;
mod db_header;
mod frames;
mod judging;
mod laws;
mod numbers;
mod orders;
mod ram;
mod reading;
mod sums;
mod wal_header;

pub use commits::takes_commit;
pub use committing::{Ordered, Unordered, is_in_order, put_in_order, reorder_first_page};
pub use judging::{WalError, WalState, check_wal};
pub use laws::{
    accepted_is_sound, commits_are_long, damaged_is_long, damaged_once, empty_is_sound,
    stop_without_salts_is_sound, torn_is_sound,
};
pub use orders::{copy_in_order, copy_mended, has_other_order, order_page, order_text};
pub use ram::Ram;
pub use sums::{
    copy_bytes, copy_checksummed, count_bad_checksums, count_bad_pages, has_checksums, set_checksum,
};
