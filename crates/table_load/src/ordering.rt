//! How a packed file is rebuilt in canonical order. A packed file has all its tables before the indexes, as
//! after a VACUUM; in canonical order, the one in which a desk makes them, the indexes over leaves follow
//! their tables.

ghost use Rattle.std.specs.Prelude.{◌≡◌, ◌≢◌, IfOk, IfErr, OnOk, OnErr, None};
ghost use Rattle.sqlite.specs.{State.HasCleanDisk, Held.state};
ghost use Rattle.desk_sql.specs.{Effects.Commits, Effects.MayMake, Effects.StaysShown, Effects.Holds, Effects.IsOver, Changing.RemakesTables};
ghost use Rattle.table_load.specs.OpeningSteps.{IsCompletedAs, MayBecome, BeginsOrdered, HadNone, IsSetUp, ShowsPart};
ghost use Rattle.row_codec.specs.SpanBounds.{Knows};
ghost use Rattle.table_load.specs.{Moving.OrdersRows, Opening.BlamesReading, Opening.HasNewRows, Opening.HasSpansToIndex, Opening.IsToOrder};

use crate::fault::OpenFault;
use crate::finding::load_content;
use crate::moving::write_plans;
use desk_sql::laws::committed_and_sound;
use desk_sql::{TablesPresent, rebuild_tables};
use row_codec::exact::FiledPlan;
use row_codec::kept::GhostState;
use row_codec::known::MemoryIndex;
use sqlite::Connection;
use sqlite_trees::store::Alter;
use std::alloc::Global;
use volume4d::laws::covers_are_few;

/// Loads the state of a packed file without rows of schema 1, and rebuilds its tables in canonical order. It
/// returns the state, the indexes in memory, and whether there is an operator (no contract says this).
/// `NotADesk` if the rows aren't those of a valid state; `OutOfMemory` or `Store` as in `load_world`. If it
/// fails, the file stays packed. A crash leaves it packed, or in canonical order with the same state.
pub(crate) fn load_and_reorder<S: Alter>(
    alloc: Global,
    connection: &mut Connection<S>,
) -> Result<(GhostState, MemoryIndex, bool), OpenFault>
    requires part { ShowsPart S.Store connection.old TablesPresent.Packed }
    requires new { Holds S.Store connection.old (HasNewRows TablesPresent.Packed) }
    requires unlimited { connection.old.step_limit ≡ None }
    ensures set_up { IsSetUp S.Store connection.old connection.new result (λ found. found.0.world)
        (λ found. BeginsOrdered S.Store connection.old connection.new found.0.world)
        (HadNone S.Store connection.old connection.new TablesPresent.Packed)
        (StaysShown S.Store connection.old connection.new) }
    ensures known { IfOk result (λ found. Knows found.1 found.0.world) }
    ensures crash { MayBecome S.Store connection.old connection.new IsCompletedAs }
{
    let (content, known) = load_content(alloc, connection, TablesPresent::Packed)?;
    reorder_tables(alloc, connection, &content.plans)?;
    let is_enrolled = !content.operators.is_empty();
    Ok((GhostState::of(&content), known, is_enrolled))
}

// Rebuilds the tables in canonical order, in one transaction: `volume2` and `span2` are made anew, with the
// rows of `plans`, which are all plans of the file (only clause `cause` needs this: *IsToOrder*). If it
// fails, the tables stay as they were. A crash leaves the old tables or the new ones.
fn reorder_tables<S: Alter>(
    alloc: Global,
    connection: &mut Connection<S>,
    plans: &[FiledPlan],
) -> Result<(), OpenFault>
    requires part { ShowsPart S.Store connection.old TablesPresent.Packed }
    ensures done { HasCleanDisk (state S.Store connection.new)
        → OnOk result (Commits S.Store connection.old connection.new (OrdersRows plans.now)) }
    ensures kept { OnErr result (StaysShown S.Store connection.old connection.new) }
    ensures cause { Holds S.Store connection.old (IsToOrder plans.now)
        → IfErr result (BlamesReading S.Store connection.old connection.new) }
    ensures fault { IfErr result (λ e. (e ≢ OpenFault.NotADesk) × (e ≢ OpenFault.OldSchema)) }
    ensures over { IsOver S.Store connection.old connection.new }
    ensures crash { MayMake S.Store connection.old connection.new (OrdersRows plans.now) }
{
    // Laws, which change nothing: a cover has at most 1,024 cells; the connection shows what was committed.
    covers_are_few();
    committed_and_sound(connection);
    let mut tx = connection.transaction();
    rebuild_tables(&mut tx)?;
    write_plans(alloc, &mut tx, plans)?;
    tx.commit()?;
    Ok(())
}

/// Rebuilds the tables of a packed file in canonical order, in one transaction. The rows of `volume2` and
/// `span2` are lost: a migration calls it while there are none. If it fails, the tables stay as they were. A
/// crash leaves the old tables or the new ones. Clause `cause` needs spans that fit the indexes.
pub(crate) fn rebuild_alone<S: Alter>(connection: &mut Connection<S>) -> Result<(), OpenFault>
    requires part { ShowsPart S.Store connection.old TablesPresent.Packed }
    ensures done { HasCleanDisk (state S.Store connection.new)
        → OnOk result (Commits S.Store connection.old connection.new RemakesTables) }
    ensures kept { OnErr result (StaysShown S.Store connection.old connection.new) }
    ensures cause { Holds S.Store connection.old (HasSpansToIndex TablesPresent.Packed)
        → IfErr result (BlamesReading S.Store connection.old connection.new) }
    ensures fault { IfErr result (λ e. (e ≢ OpenFault.NotADesk) × (e ≢ OpenFault.OldSchema)) }
    ensures over { IsOver S.Store connection.old connection.new }
    ensures crash { MayMake S.Store connection.old connection.new RemakesTables }
{
    // A law, which changes nothing: what the connection shows is committed and sound.
    committed_and_sound(connection);
    let mut tx = connection.transaction();
    rebuild_tables(&mut tx)?;
    tx.commit()?;
    Ok(())
}
