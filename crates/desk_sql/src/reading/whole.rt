//! All rows of a table, as they are read when a store is opened. A file in canonical order lists tables and
//! indexes as the desk makes them; a packed file lists all tables before the indexes. So `span2` has another
//! b-tree in a packed file, and the same name and columns. What is said of rows holds if the disk returned
//! what was written.

ghost use Rattle.std.specs.Prelude.{◌≡◌, true, OnOk, List, []};
ghost use Rattle.sqlite.specs.Order.{Row as Values};
ghost use Rattle.desk_sql.specs.{Schema.has_table, Schema.is_packed, Rows.IsMadeTo, Rows.tables_at, Rows.Lists, Effects.StaysOpen, Effects.IsReady};
ghost use Rattle.desk_sql.specs.Queries.{ShowsWhole, table_read, table_in, key_cells, rows_read, KeepsOn, WasOpen, Answers, HandsOut};

use crate::opening::finding::TablesPresent;
use crate::opening::numbers::DeskTable;
use crate::reading::asking::select_all;
use crate::reading::taking::{RowVisitor, visit_rows};
use sqlite::{Alter, Connection, Error, Row};
use std::alloc::Global;

/// A table that is read as a whole.
#[derive(Clone, Copy)]
pub enum WholeTable {
    /// `operator`: `name`, `ceiling`
    Operators,
    /// `plan`: `operator`, `id`, `priority`, `usage`, `aircraft`
    Plans,
    /// `volume`, which version 1 of the schema has: `operator`, `id`, `place`, `lower`, `upper`, `start`,
    /// `stop`, `asked`
    OldVolumes,
    /// `span`, which version 1 has: the columns of `Spans`
    OldSpans,
    /// `span2`: `operator`, `id`, `place`, `first`, `last`, `lower`, `upper`, `start`, `stop`, `priority`
    Spans,
}

impl WholeTable {
    /// The table, with the b-tree that it has in a packed file if `packed` is true, else with that in
    /// canonical order.
    pub(crate) fn table(self, packed: bool) -> DeskTable
        ensures { result ≡ table_in self packed }
    {
        match self {
            WholeTable::Operators => DeskTable::Operator,
            WholeTable::Plans => DeskTable::Plan,
            WholeTable::OldVolumes => DeskTable::OldVolume,
            WholeTable::OldSpans => DeskTable::OldSpan,
            WholeTable::Spans if packed => DeskTable::PackedSpan,
            WholeTable::Spans => DeskTable::Span,
        }
    }

    // The query of all rows, ordered by the table's key. It is the same for a packed file.
    fn text(self) -> &'static str
        ensures { ShowsWhole self result.now }
    {
        match self {
            WholeTable::Operators => operators_text(),
            WholeTable::Plans => plans_text(),
            WholeTable::OldVolumes => old_volumes_text(),
            WholeTable::OldSpans => old_spans_text(),
            WholeTable::Spans => spans_text(),
        }
    }
}

// The query of all rows of `operator`, ordered by its key: `name`.
fn operators_text() -> &'static str
    ensures { ShowsWhole WholeTable.Operators result.now }
{
    "SELECT name, ceiling FROM operator ORDER BY name"
}

// The query of all rows of `plan`, ordered by its key: `operator` and `id`.
fn plans_text() -> &'static str
    ensures { ShowsWhole WholeTable.Plans result.now }
{
    "SELECT operator, id, priority, usage, aircraft FROM plan ORDER BY operator, id"
}

// The query of all rows of `volume`, ordered by its key: `operator`, `id` and `place`.
fn old_volumes_text() -> &'static str
    ensures { ShowsWhole WholeTable.OldVolumes result.now }
{
    "SELECT operator, id, place, lower, upper, start, stop, asked FROM volume \
     ORDER BY operator, id, place"
}

// The query of all rows of `span`, ordered by its key: `operator`, `id`, `place` and `first`.
fn old_spans_text() -> &'static str
    ensures { ShowsWhole WholeTable.OldSpans result.now }
{
    "SELECT operator, id, place, first, last, lower, upper, start, stop, priority FROM span \
     ORDER BY operator, id, place, first"
}

// The query of all rows of `span2`, ordered by its key: `operator`, `id`, `place` and `first`.
fn spans_text() -> &'static str
    ensures { ShowsWhole WholeTable.Spans result.now }
{
    "SELECT operator, id, place, first, last, lower, upper, start, stop, priority FROM span2 \
     ORDER BY operator, id, place, first"
}

/// All rows of `whole_table`, ordered by its key. `made` are the tables that the database has; without this
/// table SQLite isn't asked, and the list is empty, with the allocator `alloc`. No transaction may be open.
///
/// # Errors
///
/// Those of SQLite if memory runs out, the disk fails or the connection's step limit is met.
pub fn all_rows<S: Alter>(
    alloc: Global,
    connection: &mut Connection<S>,
    whole_table: WholeTable,
    made: TablesPresent,
) -> Result<Vec<Row>, Error>
    requires ready { IsReady S.Store connection.old (IsMadeTo made) }
    ensures answers { Answers S.Store connection.old connection.new result
        (λ db rows. Lists (key_cells (table_read whole_table)) (rows_read whole_table (tables_at made db))
        rows.items) }
    ensures open { has_table made (table_in whole_table (is_packed made)) ≡ true
        → WasOpen S.Store connection.old connection.new result }
    ensures live { OnOk result (StaysOpen S.Store connection.old connection.new) }
{
    if made.has(whole_table.table(made.is_packed())) {
        select_all(connection, whole_table.text())
    } else {
        Ok(Vec::new(alloc))
    }
}

/// Passes all rows of `whole_table` to `visitor`, ordered by its key. `made` are the tables that the database
/// has; without this table there are no rows, and SQLite isn't asked. `visitor` must not have taken a row
/// before, and no transaction may be open.
///
/// # Errors
///
/// Those of SQLite if memory runs out, the disk fails or the connection's step limit is met; those of
/// `visitor`; and `TooBig` from 2^64 - 1 rows on. `visitor` may have taken some of the rows then.
// Long: what is passed, that the connection is open, and what holds whatever bytes the disk returned.
pub fn each_row<S: Alter, T: RowVisitor>(
    connection: &mut Connection<S>,
    whole_table: WholeTable,
    made: TablesPresent,
    visitor: &mut T,
) -> Result<(), Error>
    requires ready { IsReady S.Store connection.old (IsMadeTo made) }
    requires fresh { T.has_taken visitor.old [] }
    ensures answers { HandsOut S.Store connection.old connection.new result
        (λ db. Lists (key_cells (table_read whole_table)) (rows_read whole_table (tables_at made db)))
        (T.has_taken visitor.new) T.refuses }
    ensures open { has_table made (table_in whole_table (is_packed made)) ≡ true
        → WasOpen S.Store connection.old connection.new result }
    ensures live { OnOk result (StaysOpen S.Store connection.old connection.new) }
    ensures taken { OnOk result ((rows : List Values) × T.has_taken visitor.new rows) }
    ensures kept { OnOk result (KeepsOn T.keeps visitor.old visitor.new) }
{
    if made.has(whole_table.table(made.is_packed())) {
        visit_rows(connection, whole_table.text(), &[], visitor)
    } else {
        Ok(())
    }
}
