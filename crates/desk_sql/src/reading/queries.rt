//! The queries of an open store for plans. Columns are counted from 0. No transaction may be open. What is
//! said of rows holds if the disk returned what was written.

ghost use Rattle.std.specs.Prelude.{[], ◌∷◌, filter};
ghost use Rattle.desk_sql.specs.Rows.{is_row_by, is_of, tables_of, with_volumes, Lists, IsDesk};
ghost use Rattle.desk_sql.specs.{Effects.IsReady, Queries.WasOpen, Queries.Answers, Queries.HandsOut};

use crate::reading::answer::query_rows;
use crate::reading::query::Query;
use crate::reading::taking::{RowVisitor, for_each_row};
use sqlite::{Alter, Connection, Error, Row};

/// The row of the operator's plan `id`, in a list that is empty if the plan isn't stored. Its columns are
/// `operator`, `id`, `priority`, `usage` and `aircraft`.
///
/// # Errors
///
/// Those of SQLite if memory runs out, the disk fails or the connection's step limit is met.
pub fn plan_of<S: Alter>(
    connection: &mut Connection<S>,
    operator: &str,
    id: &str,
) -> Result<Vec<Row>, Error>
    requires ready { IsReady S.Store connection.old IsDesk }
    ensures answers { Answers S.Store connection.old connection.new result
        (λ db rows. Lists [] (filter (is_of operator.now id.now) (tables_of db).plans) rows.items) }
    ensures open { WasOpen S.Store connection.old connection.new result }
{
    query_rows(connection, Query::PlanOf { operator, id })
}

/// The rows of the volumes of the operator's plan `id`, ordered by place (column 2); none if the plan isn't
/// stored. Their columns are `operator`, `id`, `place`, `lower`, `upper`, `start`, `stop` and `asked`.
///
/// # Errors
///
/// Those of SQLite if memory runs out, the disk fails or the connection's step limit is met.
pub fn volumes_of<S: Alter>(
    connection: &mut Connection<S>,
    operator: &str,
    id: &str,
) -> Result<Vec<Row>, Error>
    requires ready { IsReady S.Store connection.old IsDesk }
    ensures answers { Answers S.Store connection.old connection.new result
        (λ db rows. Lists (2 ∷ []) (filter (is_of operator.now id.now) (tables_of db).volumes)
        rows.items) }
    ensures open { WasOpen S.Store connection.old connection.new result }
{
    query_rows(connection, Query::VolumesOf { operator, id })
}

/// Passes to `visitor` one row for each volume of each plan of `operator`, ordered by the plan's id (column
/// 1) and the volume's place (column 5): the columns of `plan`, and then those of `volume2` from `place` to
/// `asked`. A plan without volumes has no row. `visitor` must not have taken a row before.
///
/// # Errors
///
/// Those of SQLite if memory runs out, the disk fails or the connection's step limit is met; those of
/// `visitor`; and `TooBig` from 2^64 - 1 rows on. `visitor` may have taken some of the rows then.
pub fn own_plans<S: Alter, T: RowVisitor>(
    connection: &mut Connection<S>,
    operator: &str,
    visitor: &mut T,
) -> Result<(), Error>
    requires ready { IsReady S.Store connection.old IsDesk }
    requires fresh { T.has_taken visitor.old [] }
    ensures answers { HandsOut S.Store connection.old connection.new result
        (λ db. Lists (1 ∷ 5 ∷ []) (with_volumes (is_row_by operator.now) (tables_of db)))
        (T.has_taken visitor.new) T.refuses }
    ensures open { WasOpen S.Store connection.old connection.new result }
{
    for_each_row(connection, Query::OwnPlans { operator }, visitor)
}
