//! What commands do with files beside the tables: scratch copies, checks of the WAL, room for a new file, the
//! journal folder, the file of enrolments. It depends on no tables.
#![tactic(auto)]

pub mod damage;
pub mod folders;
pub mod journal_file;
pub mod logs;
pub mod operators;
pub mod room;
pub mod scratch;
pub mod ways;
