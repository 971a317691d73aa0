//! Several rows added, or several plans removed, one after the other. Each row has a rowid, an integer: a new
//! row gets the next one above the greatest in its table. The last is 2^63 - 1, and then the table takes no
//! more rows. So contracts count the rowids that a change uses.

ghost use Rattle.std.specs.Prelude.{◌≡◌, ⊤, OnOk, IsTrue, length, map};
ghost use Rattle.std.specs.String.{string_bytes};
ghost use Rattle.sqlite.specs.{Effect.IsDatabase, State.HasCleanDisk, Held.state};
ghost use Rattle.desk_changes.specs.RowChanges.{volume_row_in, cover_of, span_row_in, AddsVolumes, AddsSpans, RemovesPlans, AreNewSpans, AreNewVolumes, TakesRoom};
ghost use Rattle.desk_sql.specs.{Effects.Makes, Effects.IsUnderWay, Effects.Remembers, Effects.Holds, Queries.HasRefusal, Queries.IsChanged, Queries.IsUndone, Rows.RemovesPlan, Rows.IsDesk};

use crate::change::RowChange;
use crate::execute::execute;
use crate::writing::{SpanRecord, VolumeRecord};
use sqlite::{Alter, Error, Transaction};

/// Adds `rows` to `volume2`, in their order, within a transaction. Each uses one rowid. If it fails, nothing
/// is committed. If each has a new key (`operator`, `id`, `place`) and a stored plan, and rowids are left
/// (*AreNewVolumes*), only memory, the disk or the connection's step limit makes it fail.
pub fn insert_volumes<S: Alter>(
    tx: &mut Transaction<'_, S>,
    rows: &[VolumeRecord<'_>],
) -> Result<(), Error>
    requires under_way { IsUnderWay S.Store tx.old.conn.now }
    ensures same_reference { tx.new.conn.ghost_name ≡ tx.old.conn.ghost_name }
    ensures changed { IsChanged S.Store tx.old.conn.now tx.new.conn.now result
        (AddsVolumes (map volume_row_in rows.now) (map cover_of rows.now))
        (AreNewVolumes (map volume_row_in rows.now) (map cover_of rows.now))
        (TakesRoom 0 (length rows.now) 0) }
{
    'rows: for row in rows {
        execute(tx, RowChange::AddVolume(*row))?;
    }
    Ok(())
}

/// Adds `rows` to `span2`, in their order, within a transaction. Each uses one rowid. If it fails, nothing is
/// committed. If each has a new key (`operator`, `id`, `place`, `first`) and a stored plan, and rowids are
/// left (*AreNewSpans*), only memory, the disk or the connection's step limit makes it fail.
pub fn insert_spans<S: Alter>(
    tx: &mut Transaction<'_, S>,
    rows: &[SpanRecord<'_>],
) -> Result<(), Error>
    requires under_way { IsUnderWay S.Store tx.old.conn.now }
    ensures same_reference { tx.new.conn.ghost_name ≡ tx.old.conn.ghost_name }
    ensures changed { IsChanged S.Store tx.old.conn.now tx.new.conn.now result
        (AddsSpans (map span_row_in rows.now)) (AreNewSpans (map span_row_in rows.now))
        (TakesRoom 0 0 (length rows.now)) }
{
    'rows: for row in rows {
        execute(tx, RowChange::AddSpan(*row))?;
    }
    Ok(())
}

/// Removes the operator's plans `ids` with their volumes and spans, within a transaction. Ids that are not
/// stored are passed over. If it fails, nothing is committed.
///
/// # Errors
///
/// Those of SQLite if memory runs out, the disk fails or the connection's step limit is met.
pub fn remove_plans<S: Alter>(
    tx: &mut Transaction<'_, S>,
    operator: &str,
    ids: &[String],
) -> Result<(), Error>
    requires desk { Holds S.Store tx.old.conn.now IsDesk }
    requires sound { Holds S.Store tx.old.conn.now IsDatabase }
    requires begun { IsTrue tx.old.conn.now.in_transaction }
    ensures same_reference { tx.new.conn.ghost_name ≡ tx.old.conn.ghost_name }
    ensures done { HasCleanDisk (state S.Store tx.new.conn.now)
        → OnOk result (Makes S.Store tx.old.conn.now tx.new.conn.now
        (RemovesPlans operator.now (map string_bytes ids.now))) }
    ensures undone { IsUndone S.Store tx.old.conn.now tx.new.conn.now result }
    ensures cause { HasRefusal S.Store tx.old.conn.now tx.new.conn.now result }
    ensures remembered { Remembers S.Store tx.old.conn.now tx.new.conn.now }
{
    // If an earlier failure of the disk has closed the connection, this call fails. Else empty `ids` would
    // succeed there.
    tx.prepare(RowChange::RemovePlan { operator, id: "" }.text())?;
    'ids: for id in ids {
        remove_plan_by_id(tx, operator, id)?;
    }
    Ok(())
}

// Removes the operator's plan `id`, if stored, with its volumes and spans. If it fails, nothing is committed.
fn remove_plan_by_id<S: Alter>(
    tx: &mut Transaction<'_, S>,
    operator: &str,
    id: &String,
) -> Result<(), Error>
    requires desk { Holds S.Store tx.old.conn.now IsDesk }
    ensures same_reference { tx.new.conn.ghost_name ≡ tx.old.conn.ghost_name }
    ensures changed { IsChanged S.Store tx.old.conn.now tx.new.conn.now result
        (RemovesPlan operator.now (string_bytes id.now)) (λ _. ⊤) (TakesRoom 0 0 0) }
{
    execute(tx, RowChange::RemovePlan { operator, id })
}
