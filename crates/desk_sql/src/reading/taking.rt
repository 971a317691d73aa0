//! The rows of a query, passed on one at a time to a visitor. What is said of the query's rows holds if the
//! disk returned what was written.
//!
//! A call fails with an SQLite error if memory runs out, the disk fails or has failed, or the connection's
//! step limit is met. It also fails with an error of the visitor for the row that it gets.

ghost use Rattle.std.specs.Prelude.{◌≡◌, List, [], OnOk, IsTrue};
ghost use Rattle.sqlite.specs.{Order.Row as Values, Values.bound, State.HasCleanDisk, State.IsUnchanged, State.Shown, Held.state};
ghost use Rattle.desk_sql.specs.{Rows.tables_of, Rows.Lists, Rows.IsDesk, Effects.IsReady, Effects.IsOpenIfClean, Statements.IsSureGiven};
ghost use Rattle.desk_sql.specs.Queries.{WasOpen, HandsOut, order_of, rows_of, KeepsOn, FailsNext, FailsToHandAll, HandsOver, HandsAll, IsHanded, TakesOn};

use crate::laws::committed_and_sound;
use crate::reading::query::Query;
use sqlite::{Alter, Connection, Error, ErrorCode, Row, Rows};
use sqlite_value::value::ValueRef;

/// A visitor takes the rows of a query, one at a time. The ghosts say in contracts what it has taken and what
/// it refuses.
pub trait RowVisitor {
    ghost use Rattle.std.specs.Prelude.{List, [], ◌∷◌, ◌++◌, IfErr};
    ghost use Rattle.sqlite.specs.Order.{Row};
    ghost use Rattle.sqlite.specs.declared.error.Error.{Error};
    ghost use Rattle.desk_sql.specs.Queries.{KeepsOn};

    /// Whether the visitor may have taken just these rows, in this order.
    ghost has_taken: { Self → List Row → Type 0 };

    /// Whether, after these rows, this one may be refused with this error.
    ghost refuses: { List Row → Row → Error → Type 0 };

    /// Whether the visitor as it is now (the second argument) still has what it had at the start (the first),
    /// as far as taking rows doesn't change it.
    ghost keeps: { Self → Self → Type 0 };

    /// Takes the next row.
    ///
    /// # Errors
    ///
    /// `OutOfMemory` if memory runs out, and another error if the row isn't one that the visitor accepts
    /// (`refuses`). Nothing is known of the visitor then.
    fn take(&mut self, row: &Row) -> Result<(), Error>
        ensures taken { OnOk result ((rows : List Row) → has_taken self.old rows
            → has_taken self.new (rows ++ row.now ∷ [])) }
        ensures kept { OnOk result (KeepsOn keeps self.old self.new) }
        ensures refused { IfErr result (λ e. (rows : List Row) → has_taken self.old rows
            → refuses rows row.now e) };
}

// Passes the next row to `visitor` and returns true; returns false if all rows were passed. An error is one
// of the query or one of `visitor` for this row.
// Long: what is passed, and what holds whatever bytes the disk returned.
fn visit_next<S: Alter, T: RowVisitor>(
    rows: &mut Rows<'_, S>,
    visitor: &mut T,
) -> Result<bool, Error>
    ensures same_reference { rows.new.conn.ghost_name ≡ rows.old.conn.ghost_name }
    ensures handed { IsHanded S.Store rows.old.conn.now rows.new.conn.now result
        (HandsOver S.Store rows.old.conn.now rows.new.conn.now (T.has_taken visitor.old)
        (T.has_taken visitor.new))
        (FailsNext S.Store rows.old.conn.now rows.new.conn.now
        (λ row e. (taken : List Values) → T.has_taken visitor.old taken → T.refuses taken row e)) }
    ensures taken { OnOk result (TakesOn (T.has_taken visitor.old) (T.has_taken visitor.new)) }
    ensures kept { OnOk result (KeepsOn T.keeps visitor.old visitor.new) }
    ensures same { HasCleanDisk (state S.Store rows.new.conn.now)
        → OnOk result (IsUnchanged (state S.Store rows.old.conn.now)
        (state S.Store rows.new.conn.now)) }
{
    rows.advance()?;
    match rows.get() {
        Some(row) => {
            visitor.take(row)?;
            Ok(true)
        }
        None => Ok(false),
    }
}

// Passes each row that is left to `visitor`. An error is one of the query, one of `visitor` for a row, or
// `TooBig` if there are 2^64 - 1 rows or more: counting them makes sure that the loop ends. If the disk
// returned what was written so far, the connection has to be open.
// Long: what is passed, and what holds whatever bytes the disk returned.
fn visit_all<S: Alter, T: RowVisitor>(rows: &mut Rows<'_, S>, visitor: &mut T) -> Result<(), Error>
    requires { HasCleanDisk (state S.Store rows.old.conn.now)
        → IsTrue (state S.Store rows.old.conn.now).is_open }
    ensures same_reference { rows.new.conn.ghost_name ≡ rows.old.conn.ghost_name }
    ensures handed { IsHanded S.Store rows.old.conn.now rows.new.conn.now result
        (λ _. HandsAll S.Store rows.old.conn.now rows.new.conn.now (T.has_taken visitor.old)
        (T.has_taken visitor.new))
        (FailsToHandAll S.Store rows.old.conn.now rows.new.conn.now (T.has_taken visitor.old)
        T.refuses) }
    ensures taken { OnOk result (TakesOn (T.has_taken visitor.old) (T.has_taken visitor.new)) }
    ensures kept { OnOk result (KeepsOn T.keeps visitor.old visitor.new) }
{
    for _ in 0..u64::MAX {
        if !visit_next(rows, visitor)? {
            return Ok(());
        }
    }
    Err(Error::SqliteFailure(ErrorCode::TooBig))
}

/// Runs the SQL query `sql` with the parameters `params`, and passes each row to `visitor`, which must not
/// have taken a row before. The query has to be valid under the database's schema, with these parameters
/// (*IsSureGiven*), and no transaction may be open. It changes no row, even if it fails.
///
/// # Errors
///
/// Those of SQLite if memory runs out, the disk fails or the connection's step limit is met; those of
/// `visitor`; and `TooBig` from 2^64 - 1 rows on. `visitor` may have taken some of the rows then.
// Long: what is passed, that the connection is open, and what holds whatever bytes the disk returned.
pub(crate) fn visit_rows<S: Alter, T: RowVisitor>(
    connection: &mut Connection<S>,
    sql: &str,
    params: &[ValueRef<'_>],
    visitor: &mut T,
) -> Result<(), Error>
    requires ready { IsReady S.Store connection.old
        (λ db. IsSureGiven db.schema sql.now (bound params.now)) }
    requires fresh { T.has_taken visitor.old [] }
    ensures answers { HandsOut S.Store connection.old connection.new result
        (λ _. Shown sql.now (bound params.now) (state S.Store connection.old)
        (state S.Store connection.new)) (T.has_taken visitor.new) T.refuses }
    ensures open { WasOpen S.Store connection.old connection.new result }
    ensures live { OnOk result (IsOpenIfClean S.Store connection.new) }
    ensures taken { OnOk result ((rows : List Values) × T.has_taken visitor.new rows) }
    ensures kept { OnOk result (KeepsOn T.keeps visitor.old visitor.new) }
{
    // A law, which changes nothing: what the connection shows is committed and sound.
    committed_and_sound(connection);
    // It succeeds only on an open connection: an earlier failure of the disk may have closed it.
    let statement = connection.prepare(sql)?;
    let mut rows = connection.query_prepared(&statement, params)?;
    visit_all(&mut rows, visitor)
}

/// Runs `query` and passes each row to `visitor`, in the order that the query asks for. `visitor` must not
/// have taken a row before, and no transaction may be open. It changes no row, even if it fails.
///
/// # Errors
///
/// Those of SQLite if memory runs out, the disk fails or the connection's step limit is met; those of
/// `visitor`; and `TooBig` from 2^64 - 1 rows on. `visitor` may have taken some of the rows then.
// Long: what is passed, that the connection is open, and what holds whatever bytes the disk returned.
pub(crate) fn for_each_row<S: Alter, T: RowVisitor>(
    connection: &mut Connection<S>,
    query: Query<'_>,
    visitor: &mut T,
) -> Result<(), Error>
    requires ready { IsReady S.Store connection.old IsDesk }
    requires fresh { T.has_taken visitor.old [] }
    ensures answers { HandsOut S.Store connection.old connection.new result
        (λ db. Lists (order_of query.entry) (rows_of query.entry (tables_of db)))
        (T.has_taken visitor.new) T.refuses }
    ensures open { WasOpen S.Store connection.old connection.new result }
    ensures live { OnOk result (IsOpenIfClean S.Store connection.new) }
    ensures taken { OnOk result ((rows : List Values) × T.has_taken visitor.new rows) }
    ensures kept { OnOk result (KeepsOn T.keeps visitor.old visitor.new) }
{
    visit_rows(connection, query.text(), query.params().as_slice(), visitor)
}
