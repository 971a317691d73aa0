//! Whole changes of the tables, each one transaction. None may be open before, and the database has to have
//! the desk's tables. What is said of rows and errors holds if the disk returned what was written.

ghost use Rattle.std.specs.Prelude.{◌≡◌, ⊤, map};
ghost use Rattle.desk_sql.specs.{Effects.Holds, Effects.IsReady, Rows.PutsOperator, Rows.ClosesPlan, Rows.IsDesk, Changing.AreLow, Changing.HasRowids, Changing.IsShort, Queries.IsChanged, Queries.IsCommitted};
ghost use Rattle.std.specs.String.{string_bytes};
ghost use Rattle.desk_changes.specs.RowChanges.{PutsPlan, RemovesPlans, IsPuttable, plan_put};

use crate::batch::{insert_spans, insert_volumes, remove_plans};
use crate::change::RowChange;
use crate::execute::{execute, execute_counted};
use crate::writing::{PlanRecord, SpanRecord, VolumeRecord, insert_operator, insert_plan};
use desk_sql::laws::committed_and_sound;
use sqlite::{Alter, Connection, Error, Transaction};

/// Removes the operator's plans `ids` with their volumes and spans, in one transaction: all of them, or none
/// if it fails. Ids that are not stored are passed over.
///
/// # Errors
///
/// Those of SQLite if memory runs out, the disk fails or the connection's step limit is met.
pub fn clear_plans<S: Alter>(
    connection: &mut Connection<S>,
    operator: &str,
    ids: &[String],
) -> Result<(), Error>
    requires ready { IsReady S.Store connection.old IsDesk }
    ensures committed { IsCommitted S.Store connection.old connection.new result
        (RemovesPlans operator.now (map string_bytes ids.now)) (λ _. ⊤) }
{
    // A law, which changes nothing: what the connection shows is committed and sound.
    committed_and_sound(connection);
    let mut tx = connection.transaction();
    remove_plans(&mut tx, operator, ids)?;
    tx.commit()
}

/// Stores a plan with its volumes and spans, in place of its former version if there is one, in one
/// transaction: as a whole, or not at all if it fails. That `volumes` and `spans` are those of `plan` isn't
/// required: it is a premise of what is said of errors (*IsPuttable*).
///
/// # Errors
///
/// Those of SQLite. If `volumes` and `spans` are those of `plan`, its operator has a row and rowids are left,
/// only memory, the disk or the connection's step limit makes it fail.
pub fn put_plan<S: Alter>(
    connection: &mut Connection<S>,
    plan: PlanRecord<'_>,
    volumes: &[VolumeRecord<'_>],
    spans: &[SpanRecord<'_>],
) -> Result<(), Error>
    requires ready { IsReady S.Store connection.old IsDesk }
    ensures committed { IsCommitted S.Store connection.old connection.new result
        (PutsPlan (plan_put plan.entry volumes.now spans.now))
        (IsPuttable (plan_put plan.entry volumes.now spans.now)) }
{
    // A law, which changes nothing: what the connection shows is committed and sound.
    committed_and_sound(connection);
    let mut tx = connection.transaction();
    let (operator, id) = (plan.operator, plan.id);
    // The volumes and spans of the former version go with its row (ON DELETE CASCADE).
    execute(&mut tx, RowChange::RemovePlan { operator, id })?;
    insert_plan(
        &mut tx,
        plan.operator,
        plan.id,
        plan.priority,
        plan.usage,
        plan.aircraft,
    )?;
    insert_volumes(&mut tx, volumes)?;
    insert_spans(&mut tx, spans)?;
    tx.commit()
}

// Sets the ceiling of the operator `name`, or adds the operator with it if it has no row, within a
// transaction. If it fails, nothing is committed.
fn set_or_add_operator<S: Alter>(
    tx: &mut Transaction<'_, S>,
    name: &str,
    ceiling: u32,
) -> Result<(), Error>
    requires desk { Holds S.Store tx.old.conn.now IsDesk }
    ensures same_reference { tx.new.conn.ghost_name ≡ tx.old.conn.ghost_name }
    ensures changed { IsChanged S.Store tx.old.conn.now tx.new.conn.now result
        (PutsOperator name.now ceiling) (λ db. IsShort name.now × HasRowids 1 (db.trees 0)) (λ _ _. ⊤) }
{
    let count = execute_counted(tx, RowChange::SetCeiling { name, ceiling })?;
    let is_set = count > 0;
    if is_set {
        return Ok(());
    }
    insert_operator(tx, name, ceiling)?;
    Ok(())
}

/// Sets the ceiling of the operator `name`, or adds the operator with it if it has no row, in one
/// transaction. If it fails, nothing changes.
///
/// # Errors
///
/// Those of SQLite if memory runs out, the disk fails or the connection's step limit is met, if no rowid is
/// left, or if `name` has over 100 million bytes.
pub fn put_operator<S: Alter>(
    connection: &mut Connection<S>,
    name: &str,
    ceiling: u32,
) -> Result<(), Error>
    requires ready { IsReady S.Store connection.old IsDesk }
    ensures committed { IsCommitted S.Store connection.old connection.new result
        (PutsOperator name.now ceiling) (λ db. IsShort name.now × HasRowids 1 (db.trees 0)) }
{
    // A law, which changes nothing: what the connection shows is committed and sound.
    committed_and_sound(connection);
    let mut tx = connection.transaction();
    set_or_add_operator(&mut tx, name, ceiling)?;
    tx.commit()
}

/// Closes the operator's plan `id`, if it is stored, in one transaction: its row gets the usage Closed (2),
/// this priority and this state of the aircraft (as in `PlanRecord`), and its spans are removed. Its volumes
/// stay. If it fails, nothing changes.
///
/// # Errors
///
/// Those of SQLite if memory runs out, the disk fails or the connection's step limit is met.
pub fn close_plan<S: Alter>(
    connection: &mut Connection<S>,
    operator: &str,
    id: &str,
    priority: u32,
    aircraft: u32,
) -> Result<(), Error>
    requires ready { IsReady S.Store connection.old IsDesk }
    ensures committed { IsCommitted S.Store connection.old connection.new result
        (ClosesPlan operator.now id.now priority aircraft)
        (λ db. IsShort operator.now × IsShort id.now × AreLow (db.trees 2)) }
{
    // A law, which changes nothing: what the connection shows is committed and sound.
    committed_and_sound(connection);
    let mut tx = connection.transaction();
    let closed = RowChange::SetClosed {
        operator,
        id,
        priority,
        aircraft,
    };
    execute(&mut tx, closed)?;
    execute(&mut tx, RowChange::RemoveSpans { operator, id })?;
    tx.commit()
}
