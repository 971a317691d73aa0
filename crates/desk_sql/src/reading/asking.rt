//! All rows of a query without parameters, as a list. No transaction may be open. What is said of rows holds
//! if the disk returned what was written.

ghost use Rattle.std.specs.Prelude.{[], OnOk};
ghost use Rattle.sqlite.specs.{State.Shown, Held.state};
ghost use Rattle.desk_sql.specs.{Effects.StaysOpen, Effects.IsReady, Statements.IsSure, Queries.WasOpen, Queries.Answers};

use crate::laws::committed_and_sound;
use sqlite::{Alter, Connection, Error, Row};

/// Runs the SQL query `query`, which has no parameters, and returns all its rows. The query has to be valid
/// under the database's schema (*IsSure*). It changes no row, even if it fails.
///
/// # Errors
///
/// Those of SQLite if memory runs out, the disk fails or the connection's step limit is met.
pub(crate) fn select_all<S: Alter>(
    connection: &mut Connection<S>,
    query: &str,
) -> Result<Vec<Row>, Error>
    requires ready { IsReady S.Store connection.old (λ db. IsSure db.schema query.now) }
    ensures answers { Answers S.Store connection.old connection.new result
        (λ _ rows. Shown query.now [] (state S.Store connection.old) (state S.Store connection.new)
        rows.items) }
    ensures open { WasOpen S.Store connection.old connection.new result }
    ensures live { OnOk result (StaysOpen S.Store connection.old connection.new) }
{
    // A law, which changes nothing: what the connection shows is committed and sound.
    committed_and_sound(connection);
    // It succeeds only on an open connection: an earlier failure of the disk may have closed it.
    let statement = connection.prepare(query)?;
    statement.query_all(connection, &[])
}
