//! A statement that writes, run within a transaction.

ghost use Rattle.std.specs.Prelude.{◌≡◌, true, IfOk, IfErr, IsTrue, Ok, Err};
ghost use Rattle.sqlite.specs.{Values.bound, State.HasCleanDisk, State.Executes, State.ExecutesInside, State.Shows, Held.state};
ghost use Rattle.desk_sql.specs.{Queries.IsUndone, Effects.Remembers};

use sqlite::{Alter, Error, Transaction};
use sqlite_value::value::ValueRef;

/// Runs `statement`, which writes, within the transaction `tx`, and returns how many rows it changed.
/// `params` are the values of its parameters `?1`, `?2` and so on. If it fails, nothing is committed, and the
/// transaction may have been rolled back. The contract says that the statement ran (*Executes*); what that
/// does to the tables follows from its text.
// Long: what ran, what is shown, what is undone, and where it stopped have a clause each.
pub fn run<S: Alter>(
    tx: &mut Transaction<'_, S>,
    statement: &str,
    params: &[ValueRef<'_>],
) -> Result<usize, Error>
    ensures same_reference { tx.new.conn.ghost_name ≡ tx.old.conn.ghost_name }
    ensures ran { HasCleanDisk (state S.Store tx.new.conn.now)
        → IfOk result (λ count. Executes statement.now (bound params.now)
        (state S.Store tx.old.conn.now) (state S.Store tx.new.conn.now) (Ok count)) }
    ensures shown { HasCleanDisk (state S.Store tx.new.conn.now)
        → IfOk result (λ _. Shows (state S.Store tx.old.conn.now) (state S.Store tx.new.conn.now)
        (state S.Store tx.new.conn.now).now (state S.Store tx.old.conn.now).committed true) }
    ensures undone { IsUndone S.Store tx.old.conn.now tx.new.conn.now result }
    ensures stopped { HasCleanDisk (state S.Store tx.new.conn.now)
        → IsTrue tx.old.conn.now.in_transaction
        → IfErr result (λ e. ExecutesInside 0 statement.now (bound params.now)
        (state S.Store tx.old.conn.now) (state S.Store tx.new.conn.now) (Err e)) }
    ensures remembered { Remembers S.Store tx.old.conn.now tx.new.conn.now }
{
    tx.execute(statement, params)
}
