//! How the tables and indexes of the schema that a database lacks are made, in canonical order. A packed
//! file, which lists all tables before the indexes, lacks none.

ghost use Rattle.std.specs.Prelude.{◌≡◌, ◌≢◌, suc, IfSome, IfNone, IfErr, IsTrue, OnOk, OnErr};
ghost use Rattle.sqlite.specs.{Effect.IsDatabase, State.HasCleanDisk, Held.state};
ghost use Rattle.desk_sql.specs.Changing.{left_to_make, Finishes, Completes, MayComplete, HasSmallSpans, IsStep};
ghost use Rattle.desk_sql.specs.{Rows.IsMadeTo, Rows.tables_at, Effects.Holds, Effects.StaysShown, Effects.IsReady, Effects.IsOver, Queries.IsRunWithin, Statements.IsRefusal};

use crate::laws::committed_and_sound;
use crate::opening::finding::TablesPresent;
use crate::opening::objects::{
    LEAVES, OLD_LEAVES, OLD_SPAN_TABLE, OLD_VOLUME_TABLE, OPERATOR_TABLE, PLAN_TABLE, SPAN_TABLE,
    VOLUME_TABLE,
};
use crate::running::run;
use sqlite::{Alter, Connection, Error, Transaction};

// The next step if `made` is there now: what is there after it, and the statement that makes this. `None` if
// nothing is missing. `made` is not `Packed`.
fn next_step(made: TablesPresent) -> Option<(TablesPresent, &'static str)>
    requires { made ≢ TablesPresent.Packed }
    ensures step { IfSome result (λ step. IsStep step.1.now made step.0) }
    ensures one_fewer { IfSome result (λ step. left_to_make made ≡ suc (left_to_make step.0)) }
    ensures ordered { IfSome result (λ step. step.0 ≢ TablesPresent.Packed) }
    ensures none { IfNone result (made ≡ TablesPresent.All) }
{
    match made {
        TablesPresent::Nothing => Some((TablesPresent::Operators, OPERATOR_TABLE.sql)),
        TablesPresent::Operators => Some((TablesPresent::Plans, PLAN_TABLE.sql)),
        TablesPresent::Plans => Some((TablesPresent::OldVolumes, OLD_VOLUME_TABLE.sql)),
        TablesPresent::OldVolumes => Some((TablesPresent::OldSpans, OLD_SPAN_TABLE.sql)),
        TablesPresent::OldSpans => Some((TablesPresent::OldIndex, OLD_LEAVES.sql)),
        TablesPresent::OldIndex => Some((TablesPresent::Volumes, VOLUME_TABLE.sql)),
        TablesPresent::Volumes => Some((TablesPresent::Spans, SPAN_TABLE.sql)),
        TablesPresent::Spans => Some((TablesPresent::All, LEAVES.sql)),
        TablesPresent::All | TablesPresent::Packed => None,
    }
}

/// Makes the tables and indexes that are missing beside `made`, one statement after the other, within a
/// transaction. The rows of the others stay. `made` is what the database has now, and neither `All` nor
/// `Packed`. If it fails, nothing is committed. Only memory, the disk, the connection's step limit, or a row
/// of spans that is too long for its index (*HasSmallSpans*) makes it fail.
pub(crate) fn make_rest<S: Alter>(
    tx: &mut Transaction<'_, S>,
    made: TablesPresent,
) -> Result<(), Error>
    requires missing { made ≢ TablesPresent.All }
    requires ordered { made ≢ TablesPresent.Packed }
    requires at { Holds S.Store tx.old.conn.now (IsMadeTo made) }
    requires begun { HasCleanDisk (state S.Store tx.old.conn.now)
        → IsTrue (state S.Store tx.old.conn.now).is_open → IsTrue tx.old.conn.now.in_transaction }
    requires sound { Holds S.Store tx.old.conn.now IsDatabase }
    ensures same_reference { tx.new.conn.ghost_name ≡ tx.old.conn.ghost_name }
    ensures ran { IsRunWithin S.Store tx.old.conn.now tx.new.conn.now result
        (Finishes S.Store made tx.old.conn.now tx.new.conn.now)
        (HasSmallSpans (tables_at made (state S.Store tx.old.conn.now).now.trees)) }
{
    let mut at = made;
    'steps: while let Some((next, text)) = next_step(at) {
        run(tx, text, &[])?;
        at = next;
    }
    Ok(())
}

/// Makes the tables and indexes of the schema that are missing beside `made`, in one transaction: all of them
/// or none, even if the program crashes. The rows of the others stay. `made` is what the database has now,
/// and neither `All` nor `Packed`.
///
/// # Errors
///
/// Those of SQLite if memory runs out, the disk fails, the connection's step limit is met, or a row of spans
/// is too long for its index.
// Long: success, failure and its cause, the end of the transaction and a crash have a clause each.
pub fn complete_tables<S: Alter>(
    connection: &mut Connection<S>,
    made: TablesPresent,
) -> Result<(), Error>
    requires missing { made ≢ TablesPresent.All }
    requires ordered { made ≢ TablesPresent.Packed }
    requires ready { IsReady S.Store connection.old (IsMadeTo made) }
    ensures done { HasCleanDisk (state S.Store connection.new)
        → OnOk result (Completes S.Store made connection.old connection.new) }
    ensures kept { OnErr result (StaysShown S.Store connection.old connection.new) }
    ensures cause { HasSmallSpans (tables_at made (state S.Store connection.old).now.trees)
        → HasCleanDisk (state S.Store connection.new) → IsTrue (state S.Store connection.new).is_open
        → IfErr result (IsRefusal S.Store connection.old connection.new) }
    ensures over { IsOver S.Store connection.old connection.new }
    ensures crash { MayComplete S.Store made connection.old connection.new }
{
    // A law, which changes nothing: what the connection shows is committed and sound.
    committed_and_sound(connection);
    let mut tx = connection.transaction();
    make_rest(&mut tx, made)?;
    tx.commit()
}
