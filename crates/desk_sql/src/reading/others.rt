//! The spans of other operators. A span is a run of leaf positions that follow each other on the S2 curve.
//! Its row in `span2` also has the altitudes, the times and the priority of the plan's volume to which it
//! belongs. No transaction may be open. What is said of rows holds if the disk returned what was written.

ghost use Rattle.std.specs.Prelude.{[], filter, map, IsPermutation};
ghost use Rattle.desk_sql.specs.{Rows.columns_from_first, Rows.tables_of, Rows.IsDesk, Rows.is_others_from, Effects.IsReady, Queries.WasOpen, Queries.HandsOut};

use crate::reading::query::Query;
use crate::reading::rivals::SpanFilter;
use crate::reading::taking::{RowVisitor, for_each_row};
use sqlite::{Alter, Connection, Error};

/// Passes to `visitor` the spans of operators other than `operator` that `span_filter` selects and that begin
/// at the leaf position `low` or later (the filter's `first` bounds where they end). `visitor` gets the
/// columns from `first` to `priority` of each row of `span2`, the rows in no given order. `visitor` must not
/// have taken a row before. SQLite reads no row that begins before `low` or after `span_filter.last`; the
/// contract doesn't say this.
///
/// # Errors
///
/// Those of SQLite if memory runs out, the disk fails or the connection's step limit is met; those of
/// `visitor`; and `TooBig` from 2^64 - 1 rows on. `visitor` may have taken some of the rows then.
pub fn other_spans<S: Alter, T: RowVisitor>(
    connection: &mut Connection<S>,
    operator: &str,
    span_filter: SpanFilter,
    low: i64,
    visitor: &mut T,
) -> Result<(), Error>
    requires ready { IsReady S.Store connection.old IsDesk }
    requires fresh { T.has_taken visitor.old [] }
    ensures answers { HandsOut S.Store connection.old connection.new result
        (λ db. IsPermutation (map columns_from_first (filter (is_others_from operator.now span_filter low)
        (tables_of db).spans))) (T.has_taken visitor.new) T.refuses }
    ensures open { WasOpen S.Store connection.old connection.new result }
{
    for_each_row(
        connection,
        Query::OtherSpans {
            operator,
            span_filter,
            low,
        },
        visitor,
    )
}
