//! Changes of the desk's tables: each statement that changes rows as a function whose contract says which
//! rows it changes, and the transactions that run these. Version 1 of the schema has volumes and spans in
//! `volume` and `span`, version 2 in `volume2` and `span2`. A span is a run of leaf positions that follow
//! each other on the S2 curve.
//!
//! Each row has a rowid, an integer: a new row gets the next one above the greatest in its table. The last is
//! 2^63 - 1, and then the table takes no more rows. So contracts count the rowids that a change uses.
//!
//! A call of SQLite fails with `OutOfMemory` if memory runs out, with `OperationInterrupted` at the
//! connection's step limit (on the rows that a statement may visit), and with any error if the disk fails. An
//! error commits nothing.
#![tactic(auto)]

mod batch;
mod change;
mod emptying;
mod execute;
mod transactions;
mod writing;

pub use batch::{insert_spans, insert_volumes};
pub use emptying::{empty_old_spans, empty_old_volumes};
pub use transactions::{clear_plans, close_plan, put_operator, put_plan};
pub use writing::{PlanRecord, SpanRecord, VolumeRecord, insert_operator, insert_plan};
