//! Statements that empty `volume` and `span`, which have the volumes and spans in version 1 of the schema. A
//! migration from version 1 writes the rows of version 2 (`volume2`, `span2`) and then empties these.

ghost use Rattle.std.specs.Prelude.{◌≡◌, ⊤};
ghost use Rattle.desk_sql.specs.{Rows.RemovesOldVolumes, Rows.RemovesOldSpans, Rows.IsDesk, Queries.IsChanged, Effects.Holds};
ghost use Rattle.desk_changes.specs.RowChanges.{TakesRoom};

use crate::change::RowChange;
use crate::execute::execute;
use sqlite::{Alter, Error, Transaction};

/// Removes all rows of `volume`, within a transaction. The table stays. If it fails, nothing is committed.
pub fn empty_old_volumes<S: Alter>(tx: &mut Transaction<'_, S>) -> Result<(), Error>
    requires desk { Holds S.Store tx.old.conn.now IsDesk }
    ensures same_reference { tx.new.conn.ghost_name ≡ tx.old.conn.ghost_name }
    ensures changed { IsChanged S.Store tx.old.conn.now tx.new.conn.now result
        RemovesOldVolumes (λ _. ⊤) (TakesRoom 0 0 0) }
{
    execute(tx, RowChange::EmptyOldVolumes)
}

/// Removes all rows of `span`, within a transaction. The table stays. If it fails, nothing is committed.
pub fn empty_old_spans<S: Alter>(tx: &mut Transaction<'_, S>) -> Result<(), Error>
    requires desk { Holds S.Store tx.old.conn.now IsDesk }
    ensures same_reference { tx.new.conn.ghost_name ≡ tx.old.conn.ghost_name }
    ensures changed { IsChanged S.Store tx.old.conn.now tx.new.conn.now result
        RemovesOldSpans (λ _. ⊤) (TakesRoom 0 0 0) }
{
    execute(tx, RowChange::EmptyOldSpans)
}
