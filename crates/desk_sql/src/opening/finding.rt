//! What tables a database has.
//!
//! Canonical order is that in which the desk makes its tables and indexes. A packed file lists all tables
//! before the indexes, so some have other b-trees there. Other tables, indexes and views stand apart if they
//! are listed behind all of the desk's, no foreign key refers to a table of the desk's, and no index is on
//! one.

ghost use Rattle.std.specs.Prelude.{◌≡◌, false, IsTrue, IfOk, IfErr, MatchOption};
ghost use Rattle.sqlite.specs.{State.HasCleanDisk, Held.state};
ghost use Rattle.desk_sql.specs.{Schema.has_table, Schema.is_packed, Effects.OnlyReads, Effects.Holds, Effects.HasOthers, Statements.AreRowsUnread, Rows.IsMadeTo};

use crate::opening::matching::tables_present;
use crate::opening::numbers::{DeskTable, test_all_rowids};
use sqlite::{Alter, Connection, Error};

/// Which tables and indexes of the schema a database has. The desk makes them one by one, in this order;
/// `Packed` is none of these steps.
#[derive(Clone, Copy, Debug, PartialEq, Eq)]
pub enum TablesPresent {
    /// There is no table, index or view.
    Nothing,
    /// There is `operator` alone.
    Operators,
    /// There are `operator` and `plan`.
    Plans,
    /// There are these and `volume`, which version 1 of the schema has.
    OldVolumes,
    /// There are these and `span`, which version 1 has.
    OldSpans,
    /// There are these and the index over the leaves of `span`: all of version 1.
    OldIndex,
    /// There are these and `volume2`.
    Volumes,
    /// There are these and `span2`.
    Spans,
    /// There are these and the index over the leaves of `span2`: all of version 2. Other tables, indexes and
    /// views may stand apart behind them.
    All,
    /// There are all, but the tables come before the indexes, as after a VACUUM.
    Packed,
}

impl TablesPresent {
    /// Whether all tables come before all indexes.
    pub fn is_packed(self) -> bool
        ensures { result ≡ is_packed self }
    {
        matches!(self, TablesPresent::Packed)
    }

    /// Whether the database has `table`, in the b-tree that this value also stands for: `Volume` and
    /// `PackedVolume`, for example, are both `volume2`, in the b-trees of canonical and of packed order.
    pub fn has(self, table: DeskTable) -> bool
        ensures { result ≡ has_table self table }
    {
        match self {
            TablesPresent::Nothing => false,
            TablesPresent::Operators => matches!(table, DeskTable::Operator),
            TablesPresent::Plans => matches!(table, DeskTable::Operator | DeskTable::Plan),
            TablesPresent::OldVolumes => matches!(
                table,
                DeskTable::Operator | DeskTable::Plan | DeskTable::OldVolume
            ),
            TablesPresent::OldSpans | TablesPresent::OldIndex => table.is_old(),
            TablesPresent::Volumes => table.is_old() || matches!(table, DeskTable::Volume),
            TablesPresent::Spans | TablesPresent::All => {
                table.is_old() || matches!(table, DeskTable::Volume | DeskTable::Span)
            }
            TablesPresent::Packed => {
                table.is_old() || matches!(table, DeskTable::PackedVolume | DeskTable::PackedSpan)
            }
        }
    }
}

/// Which tables and indexes of the schema the database has. `None` if it has others that don't stand apart,
/// or lists the schema's in an order that is neither canonical nor packed. The contract says so if the disk
/// returned what was written and the connection is open. No transaction may be open. It changes nothing.
///
/// # Errors
///
/// `DatabaseCorrupt` if a rowid in the tables isn't an integer or comes twice, which doesn't happen in a
/// sound database. Those of SQLite if memory runs out, the disk fails or the connection's step limit is met.
pub fn find_tables<S: Alter>(connection: &mut Connection<S>) -> Result<Option<TablesPresent>, Error>
    requires settled { connection.old.in_transaction ≡ false }
    ensures found { IfOk result (λ found. MatchOption found
        (Holds S.Store connection.new HasOthers)
        (λ made. Holds S.Store connection.new (IsMadeTo made))) }
    ensures cause { HasCleanDisk (state S.Store connection.new)
        → IsTrue (state S.Store connection.new).is_open
        → IfErr result (AreRowsUnread S.Store connection.old connection.new) }
    ensures reads { OnlyReads S.Store connection.old connection.new }
{
    let Some(made) = tables_present(connection.schema()) else {
        return Ok(None);
    };
    test_all_rowids(connection, made)?;
    Ok(Some(made))
}
