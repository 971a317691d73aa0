//! Whether a database has rows of version 1 of the schema (in `volume` or `span`), and whether it has rows of
//! version 2 (in `volume2` or `span2`).
//!
//! In a packed file, which lists all tables before the indexes, `volume2` and `span2` have other b-trees than
//! in canonical order. No transaction may be open. Each query fails only if memory runs out, the disk fails
//! or has failed, or the connection's step limit is met.

ghost use Rattle.std.specs.Prelude.{◌≡◌, ◌&&◌, true};
ghost use Rattle.desk_sql.specs.{Schema.HasTable, Schema.has_table, Schema.tree_of, Rows.IsMadeTo, Rows.has_new_rows, Rows.has_old_rows, Rows.has_rows, Rows.tables_at, Queries.WasOpen, Queries.Answers, Effects.IsReady};

use crate::opening::finding::TablesPresent;
use crate::opening::numbers::{DeskTable, rowids_text, too_big_as_out_of_memory};
use crate::reading::taking::{RowVisitor, visit_rows};
use crate::reading::volumes::volume_table;
use crate::reading::whole::WholeTable;
use sqlite::{Alter, Connection, Error, Row};

/// A visitor that only notes whether it was given a row.
#[derive(Drop)]
struct AnyRow {
    was_taken: bool,
}

// It takes each row and refuses none. Rows may change all of it, so `keeps` says nothing.
impl RowVisitor for AnyRow {
    ghost use Rattle.std.specs.Prelude.{◌≡◌, ⊤};
    ghost use Rattle.desk_sql.specs.Rows.{has_rows};

    ghost has_taken = { λ any rows. any.was_taken ≡ has_rows rows };

    ghost keeps = { λ first now. ⊤ };

    ghost refuses = { λ taken row e. ⊥ };

    // Notes that there is a row. It never fails.
    fn take(&mut self, _row: &Row) -> Result<(), Error> {
        self.was_taken = true;
        Ok(())
    }
}

// Whether `table`, which the database must have, has a row. It reads the rowids of all rows, since no query
// here stops at the first. If there are 2^64 - 1 rows or more, which can't be counted, the error is
// `OutOfMemory`.
fn has_row<S: Alter>(connection: &mut Connection<S>, table: DeskTable) -> Result<bool, Error>
    requires ready { IsReady S.Store connection.old (HasTable table) }
    ensures answers { Answers S.Store connection.old connection.new result
        (λ db found. found ≡ has_rows (db (tree_of table))) }
    ensures open { WasOpen S.Store connection.old connection.new result }
{
    let mut any = AnyRow { was_taken: false };
    match visit_rows(connection, rowids_text(table), &[], &mut any) {
        Ok(()) => Ok(any.was_taken),
        Err(e) => Err(too_big_as_out_of_memory(e)),
    }
}

// Whether `table` has a row; false if it isn't among `made`, the tables that the database has. It fails as
// `has_row` does.
fn has_row_in<S: Alter>(
    connection: &mut Connection<S>,
    made: TablesPresent,
    table: DeskTable,
) -> Result<bool, Error>
    requires ready { IsReady S.Store connection.old (IsMadeTo made) }
    ensures answers { Answers S.Store connection.old connection.new result
        (λ db found. found ≡ (has_table made table && has_rows (db (tree_of table)))) }
    ensures open { has_table made table ≡ true → WasOpen S.Store connection.old connection.new result }
{
    if made.has(table) {
        has_row(connection, table)
    } else {
        Ok(false)
    }
}

/// Whether the database has rows of version 1 of the schema: `volume` or `span` has a row. `made` are the
/// tables that it has; a table that it lacks has no rows.
pub fn has_old_rows<S: Alter>(
    connection: &mut Connection<S>,
    made: TablesPresent,
) -> Result<bool, Error>
    requires ready { IsReady S.Store connection.old (IsMadeTo made) }
    ensures answers { Answers S.Store connection.old connection.new result
        (λ db found. found ≡ has_old_rows (tables_at made db)) }
{
    if has_row_in(connection, made, DeskTable::OldVolume)? {
        return Ok(true);
    }
    has_row_in(connection, made, DeskTable::OldSpan)
}

/// Whether the database has rows that only version 2 of the schema has: `volume2` or `span2` has a row.
/// `made` are the tables that it has; a table that it lacks has no rows.
pub fn has_new_rows<S: Alter>(
    connection: &mut Connection<S>,
    made: TablesPresent,
) -> Result<bool, Error>
    requires ready { IsReady S.Store connection.old (IsMadeTo made) }
    ensures answers { Answers S.Store connection.old connection.new result
        (λ db found. found ≡ has_new_rows (tables_at made db)) }
{
    let packed = made.is_packed();
    if has_row_in(connection, made, volume_table(packed))? {
        return Ok(true);
    }
    has_row_in(connection, made, WholeTable::Spans.table(packed))
}
