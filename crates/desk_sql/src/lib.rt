//! The desk's tables: their schema, which of them a database has, and each query as a function whose contract
//! says which rows it returns.
//!
//! The schema has two versions. Version 1 has the tables `operator`, `plan`, `volume` and `span`, and an
//! index of `span`. Version 2 adds `volume2`, `span2` and an index of `span2`. Volumes and spans of version 2
//! are rows of these two; `volume` and `span` stay, and are empty. A span is a run of leaf positions that
//! follow each other on the S2 curve.
//!
//! Each table and each index has its rows in a b-tree. These are numbered from 0, in the order in which the
//! file lists tables and indexes. A file in canonical order lists them as the desk makes them; a packed file
//! lists all tables before the indexes, as after a VACUUM, so `volume2` and `span2` have other b-trees there.
//!
//! A call of SQLite fails with `OutOfMemory` if memory runs out, with `OperationInterrupted` at the
//! connection's step limit (on the rows that a statement may visit), and with any error if the disk fails. A
//! failure of the disk may close the connection; then every call fails. What contracts say of rows and
//! errors holds if the disk returned what was written to it (*HasCleanDisk*) and the connection is open.
#![tactic(auto)]

pub mod laws;
mod old;
mod opening;
mod parameters;
mod reading;
mod running;

pub use old::rows::{has_new_rows, has_old_rows};
pub use opening::finding::{TablesPresent, find_tables};
pub use opening::making::complete_tables;
pub use opening::numbers::DeskTable;
pub use opening::unpacking::rebuild_tables;
pub use parameters::Parameters;
pub use reading::others::other_spans;
pub use reading::plans::plan_spans;
pub use reading::queries::{own_plans, plan_of, volumes_of};
pub use reading::rivals::{SpanFilter, rival_spans};
pub use reading::taking::RowVisitor;
pub use reading::volumes::each_volume;
pub use reading::whole::{WholeTable, all_rows, each_row};
pub use running::run;
