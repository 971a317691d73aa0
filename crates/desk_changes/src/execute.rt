//! A change of the tables, made within a transaction. If the database is as the change needs it (*fits*),
//! only memory, the disk or the connection's step limit makes it fail.

ghost use Rattle.std.specs.Prelude.{◌≡◌, IfOk};
ghost use Rattle.sqlite.specs.{State.HasCleanDisk, Held.state};
ghost use Rattle.desk_sql.specs.{Queries.IsChanged, Effects.Holds, Rows.IsDesk, Rows.tables_of};
ghost use Rattle.desk_changes.specs.RowChanges.{changes, counts, fits, takes};

use crate::change::RowChange;
use desk_sql::run;
use sqlite::{Alter, Error, Transaction};

/// Runs the statement of `change` within a transaction, and returns how many rows it changed. The contract
/// says how many for `SetCeiling` alone, since no caller needs the others. If it fails, nothing is committed.
pub(crate) fn execute_counted<S: Alter>(
    tx: &mut Transaction<'_, S>,
    change: RowChange<'_>,
) -> Result<usize, Error>
    requires desk { Holds S.Store tx.old.conn.now IsDesk }
    ensures same_reference { tx.new.conn.ghost_name ≡ tx.old.conn.ghost_name }
    ensures changed { IsChanged S.Store tx.old.conn.now tx.new.conn.now result
        (changes change.entry) (fits change.entry) (takes change.entry) }
    ensures counted { HasCleanDisk (state S.Store tx.new.conn.now) → IfOk result (λ count.
        counts change.entry count (tables_of (state S.Store tx.old.conn.now).now.trees)) }
{
    let count = run(tx, change.text(), change.params().as_slice())?;
    Ok(count)
}

/// Runs the statement of `change` within a transaction. If it fails, nothing is committed.
pub(crate) fn execute<S: Alter>(
    tx: &mut Transaction<'_, S>,
    change: RowChange<'_>,
) -> Result<(), Error>
    requires desk { Holds S.Store tx.old.conn.now IsDesk }
    ensures same_reference { tx.new.conn.ghost_name ≡ tx.old.conn.ghost_name }
    ensures changed { IsChanged S.Store tx.old.conn.now tx.new.conn.now result
        (changes change.entry) (fits change.entry) (takes change.entry) }
{
    execute_counted(tx, change)?;
    Ok(())
}
