//! Writes a state (operators with their ceilings, and their plans) into a new database. A head is the row of
//! a plan in `plan`, without volumes and spans. The clauses `cause` say, under a premise, that `Store` means
//! a disk that failed or a step limit, if the disk returned what was written and the connection is open.
//! Labels such as `'plans:` only name loops, for proofs.

ghost use Rattle.std.specs.Prelude.{◌≡◌, List, ◌∷◌, false, IfOk, IfErr, OnOk, None};
ghost use Rattle.sqlite.specs.{State.HasCleanDisk, Held.state};
ghost use Rattle.desk_sql.specs.Effects.{IsReady, IsOpenIfClean, Makes, Commits, IsUnderWay, Holds, IsOver, OnlyReads, Remembers};
ghost use Rattle.desk_sql.specs.{Rows.IsDesk, Rows.AddsOperator, Rows.AddsPlan, Rows.IsMadeTo, Schema.blank_schema};
ghost use Rattle.desk_store.specs.World.{IsContent, Filed, Listed};
ghost use Rattle.table_load.specs.{Files.IsUnread, Opening.BlamesReading, Opening.AreNewHeads, Opening.AreNewOperators, Opening.CanBeFilled, Opening.HaveFewRows, OpeningSteps.IsAdopted, OpeningSteps.IsAtRest, OpeningSteps.IsMadeAnew};
ghost use Rattle.row_codec.specs.{SpanBounds.Knows, Tables.row_of_operator, Tables.row_of_plan};
ghost use Rattle.desk_tables.specs.Copying.{AddsHeadRows, AddsOperatorRows, AddsWorldRows, BlamesNew, IsUnmade};

use crate::opening::open::AdoptFault;
use crate::store::SqliteStore;
use desk_changes::{insert_operator, insert_plan};
use desk_sql::laws::committed_and_sound;
use desk_sql::{TablesPresent, find_tables};
use desk_store::StoreFault;
use operator_index::ListedOperator;
use row_codec::content::Content;
use row_codec::exact::FiledPlan;
use row_codec::kept::GhostState;
use row_codec::known::MemoryIndex;
use row_codec::records::{aircraft_number, usage_number};
use sqlite::{Connection, Transaction};
use sqlite_trees::store::Alter;
use std::alloc::Global;
use table_load::fault::OpenFault;
use table_load::finding::create_tables;
use table_load::moving::write_plans;
use volume4d::laws::covers_are_few;

/// Makes a store with the state `content` over a connection to a database without tables. `known` are the
/// indexes in memory of this state. The tables are made in one transaction, all rows in another.
///
/// # Errors
///
/// The connection, and `OutOfMemory` if memory runs out; `Store` if there is a table, or if SQLite fails for
/// another cause. No contract says what the database has then; it may have tables.
// Long: the facts on the state, the file and the store have clauses of their own.
pub(crate) fn store_of<S: Alter + Drop>(
    alloc: Global,
    mut connection: Connection<S>,
    content: &Content,
    known: MemoryIndex,
) -> Result<SqliteStore<S>, AdoptFault<S>>
    requires settled { connection.in_transaction ≡ false }
    requires unlimited { connection.step_limit ≡ None }
    requires content { IsContent content.now }
    requires few { HaveFewRows content.now.plans }
    requires known { Knows known content.now }
    ensures value { IfOk result (λ store. store.world ≡ content.now) }
    ensures blank { IfOk result (λ store. HasCleanDisk (state S.Store store.held)
        → (state S.Store connection).now.schema ≡ blank_schema) }
    ensures adopted { IfOk result (λ store. IsAdopted S.Store connection store.held store.world) }
    ensures unmade { IfErr result (λ refused.
        IsUnmade S.Store connection refused.connection refused.fault) }
{
    match make_world(alloc, &mut connection, content) {
        Ok(kept) => Ok(SqliteStore::with(alloc, connection, kept, known, StoreFault::Store, true)),
        Err(fault) => Err(AdoptFault { fault, connection }),
    }
}

// Makes the tables in a database that has none, and adds all rows of `content`; returns this state. It fails
// as `store_of` does.
fn make_world<S: Alter>(
    alloc: Global,
    connection: &mut Connection<S>,
    content: &Content,
) -> Result<GhostState, OpenFault>
    requires rest { IsAtRest connection.old }
    requires content { IsContent content.now }
    requires few { HaveFewRows content.now.plans }
    ensures value { IfOk result (λ kept. kept.world ≡ content.now) }
    ensures blank { OnOk result (HasCleanDisk (state S.Store connection.new)
        → (state S.Store connection.old).now.schema ≡ blank_schema) }
    ensures made { IsMadeAnew S.Store connection.old connection.new result content.now }
    ensures fault { IfErr result IsUnread }
    ensures cause { IfErr result (BlamesNew S.Store connection.old connection.new) }
{
    require_blank(connection)?;
    create_tables(connection)?;
    fill(alloc, connection, &content.operators, &content.plans)?;
    Ok(GhostState::of(content))
}

// Checks that the database has no table, and changes nothing. `Store` if it has one, or if SQLite fails;
// `OutOfMemory` if memory runs out.
fn require_blank<S: Alter>(connection: &mut Connection<S>) -> Result<(), OpenFault>
    requires rest { IsAtRest connection.old }
    ensures blank { OnOk result (Holds S.Store connection.new (IsMadeTo TablesPresent.Nothing)) }
    ensures fault { IfErr result IsUnread }
    ensures cause { IfErr result (BlamesNew S.Store connection.old connection.new) }
    ensures reads { OnlyReads S.Store connection.old connection.new }
{
    let Some(made) = find_tables(connection)? else {
        return Err(OpenFault::Store);
    };
    if made != TablesPresent::Nothing {
        return Err(OpenFault::Store);
    }
    Ok(())
}

// Adds all rows of `operators` and `plans` to a desk's tables, in one transaction. The premise of clause
// `cause`: the tables have no row yet, and the state is valid (*CanBeFilled*).
// Long: success, failure and its cause, and the end of the transaction have a clause each.
fn fill<S: Alter>(
    alloc: Global,
    connection: &mut Connection<S>,
    operators: &[ListedOperator],
    plans: &[FiledPlan],
) -> Result<(), OpenFault>
    requires ready { IsReady S.Store connection.old IsDesk }
    requires live { IsOpenIfClean S.Store connection.old }
    ensures done { HasCleanDisk (state S.Store connection.new)
        → OnOk result (Commits S.Store connection.old connection.new (AddsWorldRows
        (record { operators = operators.now; plans = plans.now }))) }
    ensures fault { IfErr result IsUnread }
    ensures cause { Holds S.Store connection.old (CanBeFilled
        (record { operators = operators.now; plans = plans.now }))
        → IfErr result (BlamesReading S.Store connection.old connection.new) }
    ensures over { IsOver S.Store connection.old connection.new }
{
    // A law, which changes nothing: what the connection shows is committed and sound.
    committed_and_sound(connection);
    let mut tx = connection.transaction();
    write_world(alloc, &mut tx, operators, plans)?;
    tx.commit()?;
    Ok(())
}

// Adds all rows of `operators` and `plans`, within a transaction. Clause `cause` has `fill`'s premise.
fn write_world<S: Alter>(
    alloc: Global,
    tx: &mut Transaction<'_, S>,
    operators: &[ListedOperator],
    plans: &[FiledPlan],
) -> Result<(), OpenFault>
    requires under_way { IsUnderWay S.Store tx.old.conn.now }
    ensures same_reference { tx.new.conn.ghost_name ≡ tx.old.conn.ghost_name }
    ensures done { HasCleanDisk (state S.Store tx.new.conn.now) → OnOk result
        (Makes S.Store tx.old.conn.now tx.new.conn.now (AddsWorldRows
        (record { operators = operators.now; plans = plans.now }))) }
    ensures fault { IfErr result IsUnread }
    ensures cause { (HasCleanDisk (state S.Store tx.old.conn.now) → CanBeFilled
        (record { operators = operators.now; plans = plans.now }) (state S.Store tx.old.conn.now).now)
        → IfErr result (BlamesReading S.Store tx.old.conn.now tx.new.conn.now) }
    ensures remembered { Remembers S.Store tx.old.conn.now tx.new.conn.now }
{
    // A law, which changes nothing: a cover has at most 1,024 cells.
    covers_are_few();
    write_operators(tx, operators)?;
    write_heads(tx, plans)?;
    write_plans(alloc, tx, plans)
}

// Adds the rows of `operators` to the table `operator`, within a transaction. The premise of clause `cause`:
// no row has their names yet, and rowids are left.
fn write_operators<S: Alter>(
    tx: &mut Transaction<'_, S>,
    operators: &[ListedOperator],
) -> Result<(), OpenFault>
    requires under_way { IsUnderWay S.Store tx.old.conn.now }
    ensures same_reference { tx.new.conn.ghost_name ≡ tx.old.conn.ghost_name }
    ensures done { HasCleanDisk (state S.Store tx.new.conn.now) → OnOk result
        (Makes S.Store tx.old.conn.now tx.new.conn.now (AddsOperatorRows operators.now)) }
    ensures fault { IfErr result IsUnread }
    ensures cause { AreNewOperators operators.now (state S.Store tx.old.conn.now).now
        → IfErr result (BlamesReading S.Store tx.old.conn.now tx.new.conn.now) }
    ensures remembered { Remembers S.Store tx.old.conn.now tx.new.conn.now }
{
    'operators: for listed in operators {
        write_operator(tx, listed)?;
    }
    Ok(())
}

// Adds the row of `listed` to `operator`, within a transaction. The clauses `cause` and `left` have the
// premise of `write_operators`, for `listed` and any `later` ones.
// Long: what it adds, and that there is room for the rows that the next calls add.
fn write_operator<S: Alter>(
    tx: &mut Transaction<'_, S>,
    listed: &ListedOperator,
) -> Result<(), OpenFault>
    requires under_way { IsUnderWay S.Store tx.old.conn.now }
    ensures same_reference { tx.new.conn.ghost_name ≡ tx.old.conn.ghost_name }
    ensures done { HasCleanDisk (state S.Store tx.new.conn.now) → OnOk result
        (Makes S.Store tx.old.conn.now tx.new.conn.now (AddsOperator (row_of_operator listed.now))) }
    ensures fault { IfErr result IsUnread }
    ensures cause { (later : List Listed)
        → AreNewOperators (listed.now ∷ later) (state S.Store tx.old.conn.now).now
        → IfErr result (BlamesReading S.Store tx.old.conn.now tx.new.conn.now) }
    ensures left { (later : List Listed)
        → AreNewOperators (listed.now ∷ later) (state S.Store tx.old.conn.now).now
        → HasCleanDisk (state S.Store tx.new.conn.now)
        → OnOk result (AreNewOperators later (state S.Store tx.new.conn.now).now) }
    ensures remembered { Remembers S.Store tx.old.conn.now tx.new.conn.now }
{
    insert_operator(tx, listed.operator.as_str(), listed.ceiling)?;
    Ok(())
}

// Adds the heads of `plans`, within a transaction; their volumes and spans are added later. An error is that
// memory ran out, or, on the premise of clause `cause`, that the disk failed or a step limit was met. The
// premise: no row of `plan` has their keys yet, their operators are there, and rowids are left.
fn write_heads<S: Alter>(tx: &mut Transaction<'_, S>, plans: &[FiledPlan]) -> Result<(), OpenFault>
    requires under_way { IsUnderWay S.Store tx.old.conn.now }
    ensures same_reference { tx.new.conn.ghost_name ≡ tx.old.conn.ghost_name }
    ensures done { HasCleanDisk (state S.Store tx.new.conn.now) → OnOk result
        (Makes S.Store tx.old.conn.now tx.new.conn.now (AddsHeadRows plans.now)) }
    ensures fault { IfErr result IsUnread }
    ensures cause { AreNewHeads plans.now (state S.Store tx.old.conn.now).now
        → IfErr result (BlamesReading S.Store tx.old.conn.now tx.new.conn.now) }
    ensures remembered { Remembers S.Store tx.old.conn.now tx.new.conn.now }
{
    'plans: for plan in plans {
        write_head(tx, plan)?;
    }
    Ok(())
}

// Adds the head of `plan`, within a transaction; its volumes and spans are added later. The clauses `cause`
// and `left` have the premise of `write_heads`, for `plan` and any `later` ones.
// Long: what it adds, and that there is room for the rows that the next calls add.
fn write_head<S: Alter>(tx: &mut Transaction<'_, S>, plan: &FiledPlan) -> Result<(), OpenFault>
    requires under_way { IsUnderWay S.Store tx.old.conn.now }
    ensures same_reference { tx.new.conn.ghost_name ≡ tx.old.conn.ghost_name }
    ensures done { HasCleanDisk (state S.Store tx.new.conn.now) → OnOk result
        (Makes S.Store tx.old.conn.now tx.new.conn.now (AddsPlan (row_of_plan plan.now))) }
    ensures fault { IfErr result IsUnread }
    ensures cause { (later : List Filed) → AreNewHeads (plan.now ∷ later) (state S.Store tx.old.conn.now).now
        → IfErr result (BlamesReading S.Store tx.old.conn.now tx.new.conn.now) }
    ensures left { (later : List Filed) → AreNewHeads (plan.now ∷ later) (state S.Store tx.old.conn.now).now
        → HasCleanDisk (state S.Store tx.new.conn.now)
        → OnOk result (AreNewHeads later (state S.Store tx.new.conn.now).now) }
    ensures remembered { Remembers S.Store tx.old.conn.now tx.new.conn.now }
{
    let mut buffer = [0u8; 36];
    insert_plan(
        tx,
        plan.operator.as_str(),
        plan.row.id.encode(&mut buffer),
        plan.row.priority,
        usage_number(plan.row.usage),
        aircraft_number(plan.row.aircraft),
    )?;
    Ok(())
}
