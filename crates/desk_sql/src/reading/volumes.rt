//! All rows of `volume2`, as they are read when a store is opened. A file in canonical order lists tables and
//! indexes as the desk makes them; a packed file lists all tables before the indexes. So `volume2` has
//! another b-tree in a packed file, and the same name and columns. What is said of rows holds if the disk
//! returned what was written.

ghost use Rattle.std.specs.Prelude.{◌≡◌, Bool, true, List, [], ◌∷◌, map, OnOk};
ghost use Rattle.sqlite.specs.Order.{Row as Values};
ghost use Rattle.desk_sql.specs.{Schema.has_table, Schema.is_packed, Schema.tree_of, Rows.IsMadeTo, Rows.columns, Rows.tables_at, Rows.ListVolumes, Rows.volume_table_in, Effects.StaysOpen, Effects.IsReady, Statements.SelectsAll, Queries.KeepsOn, Queries.WasOpen, Queries.HandsOut};

use crate::opening::finding::TablesPresent;
use crate::opening::numbers::DeskTable;
use crate::reading::taking::{RowVisitor, visit_rows};
use sqlite::{Alter, Connection, Error};

/// The table `volume2`, with the b-tree that it has in a packed file if `packed` is true, else with that in
/// canonical order.
pub(crate) fn volume_table(packed: bool) -> DeskTable
    ensures { result ≡ volume_table_in packed }
{
    if packed {
        DeskTable::PackedVolume
    } else {
        DeskTable::Volume
    }
}

// The query of all rows of `volume2`, ordered by its key: `operator`, `id` and `place` (columns 0 to 2). It
// is the same for a packed file.
fn volumes_text() -> &'static str
    ensures { (packed : Bool) → SelectsAll (volume_table_in packed) result.now (0 ∷ 1 ∷ 2 ∷ [])
        (λ db. map (columns 9) (db (tree_of (volume_table_in packed)))) }
{
    "SELECT operator, id, place, lower, upper, start, stop, asked, canon FROM volume2 \
     ORDER BY operator, id, place"
}

/// Passes all rows of `volume2` to `visitor`, ordered by their key `operator`, `id`, `place`. Their further
/// columns are `lower`, `upper`, `start`, `stop`, `asked` and `canon`. `made` are the tables that the
/// database has; without `volume2` there are no rows, and SQLite isn't asked. `visitor` must not have taken a
/// row before, and no transaction may be open.
///
/// # Errors
///
/// Those of SQLite if memory runs out, the disk fails or the connection's step limit is met; those of
/// `visitor`; and `TooBig` from 2^64 - 1 rows on. `visitor` may have taken some of the rows then.
// Long: what is passed, that the connection is open, and what holds whatever bytes the disk returned.
pub fn each_volume<S: Alter, T: RowVisitor>(
    connection: &mut Connection<S>,
    made: TablesPresent,
    visitor: &mut T,
) -> Result<(), Error>
    requires ready { IsReady S.Store connection.old (IsMadeTo made) }
    requires fresh { T.has_taken visitor.old [] }
    ensures answers { HandsOut S.Store connection.old connection.new result
        (λ db. ListVolumes (tables_at made db)) (T.has_taken visitor.new) T.refuses }
    ensures open { has_table made (volume_table_in (is_packed made)) ≡ true
        → WasOpen S.Store connection.old connection.new result }
    ensures live { OnOk result (StaysOpen S.Store connection.old connection.new) }
    ensures taken { OnOk result ((rows : List Values) × T.has_taken visitor.new rows) }
    ensures kept { OnOk result (KeepsOn T.keeps visitor.old visitor.new) }
{
    if made.has(volume_table(made.is_packed())) {
        visit_rows(connection, volumes_text(), &[], visitor)
    } else {
        Ok(())
    }
}
