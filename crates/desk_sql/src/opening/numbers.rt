//! Whether the rowids of the tables are integers, each once. SQLite gives no others, but a damaged file may
//! have them, and then a DELETE may remove other rows than those that it names.

ghost use Rattle.std.specs.Prelude.{◌≡◌, ◌&&◌, List, [], ◌∷◌, true, false, IsTrue, OnOk, OnErr, IfErr};
ghost use Rattle.sqlite.specs.{Order.Row as Values, Tree.rowid, State.HasCleanDisk, Held.state};
ghost use Rattle.desk_sql.specs.{Schema.HasTable, Schema.IsSchemaOf, Schema.has_table, Schema.is_old, Schema.tree_of, Rows.AreNumbered, Rows.IsMadeTo, Statements.AreRowsUnread, Statements.IsUnnumbered, Statements.too_big_as_out_of_memory, Statements.SelectsAll, Statements.rowids, Effects.Holds, Effects.next_above, Effects.rises, Effects.OnlyReads, Effects.IsReady};

use crate::opening::finding::TablesPresent;
use crate::reading::taking::{RowVisitor, visit_rows};
use sqlite::{Alter, Connection, Error, ErrorCode, Row};
use sqlite_value::value::ValueRef;

// The rowid in the first column of `row`, if it is an integer greater than `last`; else `None`. `last` is the
// rowid of the row before; for the first row it is `None`, and any integer will do.
fn next_above(last: Option<i64>, row: &Row) -> Option<i64>
    ensures { result ≡ next_above last (rowid row.now) }
{
    let Ok(ValueRef::Int(rowid)) = row.get_ref(0) else {
        return None;
    };
    match last {
        Some(last) if rowid <= last => None,
        _ => Some(rowid),
    }
}

/// A visitor that checks rowids, which it gets in ascending order: `last` is the one before, and `rise` is
/// whether each so far was an integer greater than the one before. One that comes twice doesn't rise.
#[derive(Drop)]
struct Rowids {
    last: Option<i64>,
    rise: bool,
}

impl Rowids {
    // Checks the rowid in the first column of `row` against the one before. Once a check has failed, nothing
    // more is checked. So the fields say afterwards of any `rest` of the rows what they said before of `row`
    // and this rest: whether their rowids rise.
    fn add(&mut self, row: &Row)
        ensures { (rest : List Values) → (self.new.rise && rises rest self.new.last)
            ≡ (self.old.rise && rises (row.now ∷ rest) self.old.last) }
    {
        if !self.rise {
            return;
        }
        match next_above(self.last, row) {
            Some(rowid) => self.last = Some(rowid),
            None => self.rise = false,
        }
    }
}

// It takes each row and refuses none. Rows may change all of it, so `keeps` says nothing.
impl RowVisitor for Rowids {
    ghost use Rattle.std.specs.Prelude.{⊤};
    ghost use Rattle.desk_sql.specs.Effects.{RiseSo};

    ghost has_taken = { λ r rows. RiseSo r.rise r.last rows };

    ghost keeps = { λ first now. ⊤ };

    ghost refuses = { λ taken row e. ⊥ };

    // Checks the rowid in `row`. It never fails: what it found is in `rise`.
    fn take(&mut self, row: &Row) -> Result<(), Error> {
        self.add(row);
        Ok(())
    }
}

// `Ok` if `rise` is true, that is, if all rowids were rising integers; else the error `DatabaseCorrupt`.
fn require_rising(rise: bool) -> Result<(), Error>
    ensures rising { OnOk result (rise ≡ true) }
    ensures broken { OnErr result (rise ≡ false) }
    ensures code { IfErr result (λ e. e ≡ Error.SqliteFailure ErrorCode.DatabaseCorrupt) }
{
    if rise {
        Ok(())
    } else {
        Err(Error::SqliteFailure(ErrorCode::DatabaseCorrupt))
    }
}

/// The error of a query as it is reported: `OutOfMemory` instead of `TooBig`, which comes if there are
/// 2^64 - 1 rows or more. Any other error stays as it is.
pub(crate) fn too_big_as_out_of_memory(error: Error) -> Error
    ensures { result ≡ too_big_as_out_of_memory error }
{
    match error {
        Error::SqliteFailure(ErrorCode::TooBig) => Error::SqliteFailure(ErrorCode::OutOfMemory),
        error => error,
    }
}

/// A table of the schema, in the b-tree that it has there.
#[derive(Clone, Copy, Debug, PartialEq, Eq)]
pub enum DeskTable {
    /// `operator`
    Operator,
    /// `plan`
    Plan,
    /// `volume`, whose rows are those of version 1 of the schema
    OldVolume,
    /// `span`, whose rows are those of version 1
    OldSpan,
    /// `volume2`
    Volume,
    /// `span2`
    Span,
    /// `volume2` in a packed file
    PackedVolume,
    /// `span2` in a packed file
    PackedSpan,
}

impl DeskTable {
    /// Whether the table is one of version 1 of the schema: `operator`, `plan`, `volume` or `span`.
    pub(crate) fn is_old(self) -> bool
        ensures { result ≡ is_old self }
    {
        matches!(
            self,
            DeskTable::Operator | DeskTable::Plan | DeskTable::OldVolume | DeskTable::OldSpan
        )
    }
}

/// The query of the rowids of `table`, ascending. In a packed file a table has the same name.
pub(crate) fn rowids_text(table: DeskTable) -> &'static str
    ensures { SelectsAll table result.now (0 ∷ []) (λ db. rowids (db (tree_of table))) }
{
    match table {
        DeskTable::Operator => "SELECT rowid FROM operator ORDER BY rowid",
        DeskTable::Plan => "SELECT rowid FROM plan ORDER BY rowid",
        DeskTable::OldVolume => "SELECT rowid FROM volume ORDER BY rowid",
        DeskTable::OldSpan => "SELECT rowid FROM span ORDER BY rowid",
        DeskTable::Volume => "SELECT rowid FROM volume2 ORDER BY rowid",
        DeskTable::Span => "SELECT rowid FROM span2 ORDER BY rowid",
        DeskTable::PackedVolume => "SELECT rowid FROM volume2 ORDER BY rowid",
        DeskTable::PackedSpan => "SELECT rowid FROM span2 ORDER BY rowid",
    }
}

// Checks that the rowids of `table`, which the database must have, are integers, each once. The error is
// `DatabaseCorrupt` if they aren't, `OutOfMemory` if there are 2^64 - 1 rows or more, or one of SQLite for
// the query.
fn test_rowids<S: Alter>(connection: &mut Connection<S>, table: DeskTable) -> Result<(), Error>
    requires ready { IsReady S.Store connection.old (HasTable table) }
    ensures numbered { OnOk result (Holds S.Store connection.new
        (λ db. AreNumbered (db.trees (tree_of table)))) }
    ensures cause { HasCleanDisk (state S.Store connection.new)
        → IsTrue (state S.Store connection.new).is_open
        → IfErr result (IsUnnumbered S.Store connection.old connection.new table) }
    ensures reads { OnlyReads S.Store connection.old connection.new }
{
    let mut rowids = Rowids {
        last: None,
        rise: true,
    };
    match visit_rows(connection, rowids_text(table), &[], &mut rowids) {
        Ok(()) => require_rising(rowids.rise),
        Err(e) => Err(too_big_as_out_of_memory(e)),
    }
}

// Checks the rowids of `table`, as `test_rowids` does, if it is among `made`, the tables that the database
// has. Else it does nothing.
fn test_rowids_if_made<S: Alter>(
    connection: &mut Connection<S>,
    made: TablesPresent,
    table: DeskTable,
) -> Result<(), Error>
    requires ready { IsReady S.Store connection.old (λ db. IsSchemaOf made db.schema) }
    ensures numbered { OnOk result (has_table made table ≡ true → Holds S.Store connection.new
        (λ db. AreNumbered (db.trees (tree_of table)))) }
    ensures cause { HasCleanDisk (state S.Store connection.new)
        → IsTrue (state S.Store connection.new).is_open
        → IfErr result (AreRowsUnread S.Store connection.old connection.new) }
    ensures reads { OnlyReads S.Store connection.old connection.new }
{
    if made.has(table) {
        test_rowids(connection, table)
    } else {
        Ok(())
    }
}

/// Checks the rowids of all tables of `made`, the tables that the database has. It changes nothing.
///
/// # Errors
///
/// `DatabaseCorrupt` if the rowids of a table aren't integers, each once. Those of SQLite if memory runs out,
/// the disk fails or the connection's step limit is met.
pub(crate) fn test_all_rowids<S: Alter>(
    connection: &mut Connection<S>,
    made: TablesPresent,
) -> Result<(), Error>
    requires ready { IsReady S.Store connection.old (λ db. IsSchemaOf made db.schema) }
    ensures numbered { OnOk result (Holds S.Store connection.new (IsMadeTo made)) }
    ensures cause { HasCleanDisk (state S.Store connection.new)
        → IsTrue (state S.Store connection.new).is_open
        → IfErr result (AreRowsUnread S.Store connection.old connection.new) }
    ensures reads { OnlyReads S.Store connection.old connection.new }
{
    test_rowids_if_made(connection, made, DeskTable::Operator)?;
    test_rowids_if_made(connection, made, DeskTable::Plan)?;
    test_rowids_if_made(connection, made, DeskTable::OldVolume)?;
    test_rowids_if_made(connection, made, DeskTable::OldSpan)?;
    test_rowids_if_made(connection, made, DeskTable::Volume)?;
    test_rowids_if_made(connection, made, DeskTable::Span)?;
    test_rowids_if_made(connection, made, DeskTable::PackedVolume)?;
    test_rowids_if_made(connection, made, DeskTable::PackedSpan)
}
