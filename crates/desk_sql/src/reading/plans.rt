//! The spans of one plan. A span is a run of leaf positions that follow each other on the S2 curve. Its row
//! in `span2` also has the altitudes, the times and the priority of the plan's volume to which it belongs. No
//! transaction may be open. What is said of rows holds if the disk returned what was written.

ghost use Rattle.std.specs.Prelude.{[], filter, map, IsPermutation};
ghost use Rattle.desk_sql.specs.{Rows.columns_from_first, Rows.tables_of, Rows.IsDesk, Rows.is_plan_span, Effects.IsReady, Queries.WasOpen, Queries.HandsOut};

use crate::reading::query::Query;
use crate::reading::rivals::SpanFilter;
use crate::reading::taking::{RowVisitor, for_each_row};
use sqlite::{Alter, Connection, Error};

/// Passes to `visitor` the spans of the operator's plan `id` that `span_filter` selects. `visitor` gets the
/// columns from `first` to `priority` of each row of `span2`, the rows in no given order. `visitor` must not
/// have taken a row before. SQLite finds them by key and reads no row of another plan; the contract doesn't
/// say this.
///
/// # Errors
///
/// Those of SQLite if memory runs out, the disk fails or the connection's step limit is met; those of
/// `visitor`; and `TooBig` from 2^64 - 1 rows on. `visitor` may have taken some of the rows then.
pub fn plan_spans<S: Alter, T: RowVisitor>(
    connection: &mut Connection<S>,
    operator: &str,
    id: &str,
    span_filter: SpanFilter,
    visitor: &mut T,
) -> Result<(), Error>
    requires ready { IsReady S.Store connection.old IsDesk }
    requires fresh { T.has_taken visitor.old [] }
    ensures answers { HandsOut S.Store connection.old connection.new result
        (λ db. IsPermutation (map columns_from_first (filter (is_plan_span operator.now id.now span_filter)
        (tables_of db).spans))) (T.has_taken visitor.new) T.refuses }
    ensures open { WasOpen S.Store connection.old connection.new result }
{
    for_each_row(
        connection,
        Query::SpansOf {
            operator,
            id,
            span_filter,
        },
        visitor,
    )
}
