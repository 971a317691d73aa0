//! All rows of a query with parameters, as a list. No transaction may be open. What is said of rows holds if
//! the disk returned what was written.

ghost use Rattle.desk_sql.specs.{Rows.tables_of, Rows.Lists, Rows.IsDesk, Effects.IsReady, Queries.WasOpen, Queries.Answers, Queries.order_of, Queries.rows_of};

use crate::laws::committed_and_sound;
use crate::reading::query::Query;
use sqlite::{Alter, Connection, Error, Row};

/// Runs `query` and returns all its rows, in the order that it asks for. It changes no row, even if it fails.
///
/// # Errors
///
/// Those of SQLite if memory runs out, the disk fails or the connection's step limit is met.
pub(crate) fn query_rows<S: Alter>(
    connection: &mut Connection<S>,
    query: Query<'_>,
) -> Result<Vec<Row>, Error>
    requires ready { IsReady S.Store connection.old IsDesk }
    ensures answers { Answers S.Store connection.old connection.new result
        (λ db rows. Lists (order_of query.entry) (rows_of query.entry (tables_of db)) rows.items) }
    ensures open { WasOpen S.Store connection.old connection.new result }
{
    // A law, which changes nothing: what the connection shows is committed and sound.
    committed_and_sound(connection);
    // It succeeds only on an open connection: an earlier failure of the disk may have closed it.
    let statement = connection.prepare(query.text())?;
    statement.query_all(connection, query.params().as_slice())
}
