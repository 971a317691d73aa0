//! The migration of a database from schema 1 to schema 2. Schema 1 has the rows of volumes and spans in
//! `volume` and `span`; schema 2 has them in `volume2`, with covers, and `span2`. Operators and plans have
//! the same rows in both. A packed file has all tables before the indexes, as after a VACUUM, and is rebuilt
//! in canonical order: the one in which a desk makes them. The parameter `made` says which tables a database
//! has. What contracts say of rows holds while the disk returned what was written and no error has shut the
//! connection. Labels such as `'plans:` only name loops, for proofs.

ghost use Rattle.std.specs.Prelude.{◌≡◌, ◌≢◌, ◌↔◌, ◌<◌, ◌-◌, ◌^◌, List, ◌∷◌, true, false, IfOk, IfErr, OnOk, OnErr, IsTrue, length, None};
ghost use Rattle.std.specs.List.{AllByRecursion};
ghost use Rattle.sqlite.specs.{State.HasCleanDisk, State.KeepsCommit, Held.state};
ghost use Rattle.sqlite_value.specs.Order.{Row as Values};
ghost use Rattle.desk_sql.specs.{Rows.IsDesk, Rows.tables_at, Rows.tables_of, Queries.WasOpen, Changing.MayComplete, Statements.IsRefusal};
ghost use Rattle.desk_sql.specs.Effects.{IsReady, StaysShown, IsOpenIfClean, Makes, Commits, MayMake, IsUnderWay, IsOver, OnlyReads, Remembers, Holds};
ghost use Rattle.desk_store.specs.World.{Filed, World, IsContent};
ghost use Rattle.table_load.specs.OpeningSteps.{IsMovedAs, IsMovedOn, MayBecome, BeginsAllMoved, HadNoOld, IsAdded, IsOpening, IsRead, IsSetUp, IsAtRest, ShowsOperators, ShowsPart, MakesWhole};
ghost use Rattle.row_codec.specs.SpanBounds.{Knows};
ghost use Rattle.row_codec.specs.Tables as tables;
ghost use Rattle.table_load.specs.Opening.{AreRows, BlamesReading, HasRowsOld, AreAwaited, AreWritable, HasSpansToIndex, HaveFewRows};
ghost use Rattle.table_load.specs.Moving.{AddsPlanRows, AddsPlansRows, MovesRows, RemovesOldRows, AreNoOldContent, BeginsMoved, KeepsRows, IsOldArea, IsOldContent, HasNoNewRows, AreOldParts, AreSortedOld, IsOldContentOf, IsOldShape, ShowsNoContent};

use crate::fault::OpenFault;
use crate::finding::{find_desk_tables, finish_content, load_or_create, parse_heads};
use crate::ordering::rebuild_alone;
use crate::spans::{SpanCheck, take_spans};
use desk_changes::{empty_old_spans, empty_old_volumes, insert_spans, insert_volumes};
use desk_sql::laws::committed_and_sound;
use desk_sql::{TablesPresent, WholeTable, all_rows, complete_tables, has_new_rows};
use operator_index::ListedOperator;
use row_codec::canon::canons_of;
use row_codec::content::{Content, TableRows};
use row_codec::exact::FiledPlan;
use row_codec::kept::GhostState;
use row_codec::known::MemoryIndex;
use row_codec::records::{asked_of, span_rows, volume_rows};
use s2_cover::laws::{canonical_list_is, one_canonical_list, one_list_of_ranges};
use sqlite::{Connection, Error, Transaction};
use sqlite_trees::store::Alter;
use std::alloc::{AllocError, Global};
use volume4d::laws::{covers_are_few, one_shape};
use volume4d::{Footprint, Volume};

// The most volumes of a plan in schema 1.
const OLD_MAX_VOLUMES: usize = 8;

// The most cells of the canonical cover of a rectangle in schema 1.
const OLD_MAX_COVER: usize = 256;

/// Loads the state of a database, which it migrates if its rows are those of schema 1. It returns the state,
/// the indexes in memory, and how many plans were migrated: at most 2^32 - 1 are reported, and 0 for a
/// database of schema 2, which is loaded as by `load_world`. A crash leaves the database as it was, or with
/// its state in all tables of one schema.
///
/// # Errors
///
/// `OutOfMemory` if memory runs out. `Store` if SQLite fails for another cause. `NotADesk` if the tables
/// aren't a desk's, or if the rows aren't those of a valid state in either schema. The rows stay in each
/// case.
pub fn load_or_migrate<S: Alter>(
    alloc: Global,
    connection: &mut Connection<S>,
) -> Result<(GhostState, MemoryIndex, u32), OpenFault>
    requires rest { IsAtRest connection.old }
    ensures opened { IsOpening S.Store connection.old connection.new result (λ moved. moved.0.world)
        (λ moved. BeginsMoved S.Store connection.old connection.new moved.0.world moved.2)
        (ShowsNoContent S.Store connection.old connection.new) ⊥
        (KeepsRows S.Store connection.old connection.new) }
    ensures known { IfOk result (λ moved. Knows moved.1 moved.0.world) }
    ensures crash { MayBecome S.Store connection.old connection.new IsMovedOn }
{
    let (made, old) = find_desk_tables(connection)?;
    if old {
        return migrate_tables(alloc, connection, made);
    }
    let (kept, known, _) = load_or_create(alloc, connection, made)?;
    Ok((kept, known, 0))
}

// Loads the state of a database of schema 1, which has the tables `made`, and migrates its rows. It returns
// and fails as `load_or_migrate` does.
#[tactic(auto, using(crate::proofs::lemmas::Opening::some_operators))]
fn migrate_tables<S: Alter>(
    alloc: Global,
    connection: &mut Connection<S>,
    made: TablesPresent,
) -> Result<(GhostState, MemoryIndex, u32), OpenFault>
    requires part { ShowsPart S.Store connection.old made }
    requires rows { Holds S.Store connection.old (HasRowsOld made true) }
    requires has_table { made ≢ TablesPresent.Nothing }
    requires unlimited { connection.old.step_limit ≡ None }
    ensures set_up { IsSetUp S.Store connection.old connection.new result (λ moved. moved.0.world)
        (λ moved. BeginsAllMoved S.Store connection.old connection.new moved.0.world moved.2)
        (HadNoOld S.Store connection.old connection.new made)
        (KeepsRows S.Store connection.old connection.new) }
    ensures known { IfOk result (λ moved. Knows moved.1 moved.0.world) }
    ensures crash { MayBecome S.Store connection.old connection.new IsMovedAs }
{
    let (content, known) = load_old_tables(alloc, connection, made)?;
    complete_or_rebuild(connection, made)?;
    migrate_rows(alloc, connection, &content.plans)?;
    let count = u32::try_from(content.plans.len()).unwrap_or(u32::MAX);
    Ok((GhostState::of(&content), known, count))
}

// Makes the tables that aren't among `made`, or rebuilds those of a packed file in canonical order. If `made`
// is all, it does nothing. There are no rows of schema 2; all others stay. If it fails, the tables stay too.
// Clause `cause` needs spans that the indexes over leaves can hold.
fn complete_or_rebuild<S: Alter>(
    connection: &mut Connection<S>,
    made: TablesPresent,
) -> Result<(), OpenFault>
    requires part { ShowsPart S.Store connection.old made }
    requires empty { Holds S.Store connection.old (λ db. HasNoNewRows (tables_at made db.trees)) }
    ensures done { MakesWhole S.Store connection.old connection.new result made }
    ensures kept { OnErr result (StaysShown S.Store connection.old connection.new) }
    ensures cause { Holds S.Store connection.old (HasSpansToIndex made)
        → IfErr result (BlamesReading S.Store connection.old connection.new) }
    ensures fault { IfErr result (λ e. (e ≢ OpenFault.NotADesk) × (e ≢ OpenFault.OldSchema)) }
    ensures over { IsOver S.Store connection.old connection.new }
    ensures crash { MayComplete S.Store made connection.old connection.new }
{
    if made == TablesPresent::All {
        return Ok(());
    }
    if made == TablesPresent::Packed {
        return rebuild_alone(connection);
    }
    complete_tables(connection, made)?;
    Ok(())
}

// Replaces the rows of schema 1 by those of `plans` in schema 2, in one transaction. `plans` are all plans of
// the database (only clause `cause` needs this: *AreAwaited*). If it fails, the rows stay. A crash leaves the
// old rows or the new ones.
fn migrate_rows<S: Alter>(
    alloc: Global,
    connection: &mut Connection<S>,
    plans: &[FiledPlan],
) -> Result<(), OpenFault>
    requires ready { IsReady S.Store connection.old IsDesk }
    ensures done { HasCleanDisk (state S.Store connection.new)
        → OnOk result (Commits S.Store connection.old connection.new (MovesRows plans.now)) }
    ensures kept { OnErr result (StaysShown S.Store connection.old connection.new) }
    ensures cause { Holds S.Store connection.old (λ db. AreAwaited plans.now (tables_of db.trees))
        → IfErr result (BlamesReading S.Store connection.old connection.new) }
    ensures fault { IfErr result (λ e. (e ≢ OpenFault.NotADesk) × (e ≢ OpenFault.OldSchema)) }
    ensures over { IsOver S.Store connection.old connection.new }
    ensures crash { MayMake S.Store connection.old connection.new (MovesRows plans.now) }
{
    // Laws, which change nothing: a cover has at most 1,024 cells; the connection shows what was committed.
    covers_are_few();
    committed_and_sound(connection);
    let mut tx = connection.transaction();
    empty_old_tables(&mut tx)?;
    write_plans(alloc, &mut tx, plans)?;
    tx.commit()?;
    Ok(())
}

// Removes all rows of `volume` and `span`, the tables of schema 1, within a transaction. After an error, what
// was committed stays.
fn empty_old_tables<S: Alter>(tx: &mut Transaction<'_, S>) -> Result<(), Error>
    requires desk { Holds S.Store tx.old.conn.now IsDesk }
    ensures same_reference { tx.new.conn.ghost_name ≡ tx.old.conn.ghost_name }
    ensures done { HasCleanDisk (state S.Store tx.new.conn.now)
        → OnOk result (Makes S.Store tx.old.conn.now tx.new.conn.now RemovesOldRows) }
    ensures undone { HasCleanDisk (state S.Store tx.new.conn.now)
        → OnErr result (KeepsCommit (state S.Store tx.old.conn.now)
        (state S.Store tx.new.conn.now)) }
    ensures cause { IsUnderWay S.Store tx.old.conn.now → HasCleanDisk (state S.Store tx.new.conn.now)
        → IfErr result (IsRefusal S.Store tx.old.conn.now tx.new.conn.now) }
    ensures remembered { Remembers S.Store tx.old.conn.now tx.new.conn.now }
{
    empty_old_volumes(tx)?;
    empty_old_spans(tx)
}

/// Adds the rows of `plans` in `volume2` and `span2`, within a transaction. The premise of clause `cause`: no
/// such row has their keys yet, their rows in `plan` are there, and rowids are left (*AreWritable*).
///
/// # Errors
///
/// `OutOfMemory` if memory runs out. `Store` if SQLite fails for another cause. What was committed stays
/// then.
pub fn write_plans<S: Alter>(
    alloc: Global,
    tx: &mut Transaction<'_, S>,
    plans: &[FiledPlan],
) -> Result<(), OpenFault>
    requires under_way { IsUnderWay S.Store tx.old.conn.now }
    ensures same_reference { tx.new.conn.ghost_name ≡ tx.old.conn.ghost_name }
    ensures added { IsAdded S.Store tx.old.conn.now tx.new.conn.now result (AddsPlansRows plans.now) }
    ensures cause { AreWritable plans.now (state S.Store tx.old.conn.now).now
        → IfErr result (BlamesReading S.Store tx.old.conn.now tx.new.conn.now) }
{
    'plans: for plan in plans {
        write_plan(alloc, tx, plan)?;
    }
    Ok(())
}

// Adds the rows of `plan` in `volume2` and `span2`, within a transaction. It fails as `write_plans` does. The
// clauses `cause` and `left` have the premise there, for `plan` and any `later` ones.
fn write_plan<S: Alter>(
    alloc: Global,
    tx: &mut Transaction<'_, S>,
    plan: &FiledPlan,
) -> Result<(), OpenFault>
    requires under_way { IsUnderWay S.Store tx.old.conn.now }
    ensures same_reference { tx.new.conn.ghost_name ≡ tx.old.conn.ghost_name }
    ensures added { IsAdded S.Store tx.old.conn.now tx.new.conn.now result (AddsPlanRows plan.now) }
    ensures cause { (later : List Filed) → AreWritable (plan.now ∷ later) (state S.Store tx.old.conn.now).now
        → IfErr result (BlamesReading S.Store tx.old.conn.now tx.new.conn.now) }
    ensures left { (later : List Filed) → AreWritable (plan.now ∷ later) (state S.Store tx.old.conn.now).now
        → HasCleanDisk (state S.Store tx.new.conn.now)
        → OnOk result (AreWritable later (state S.Store tx.new.conn.now).now) }
{
    // A law, which changes nothing: a set of leaves has only one list of ranges.
    one_list_of_ranges();
    let mut buffer = [0u8; 36];
    let id = plan.row.id.encode(&mut buffer);
    let operator = plan.operator.as_str();
    let asked = asked_of(alloc, plan.row.area.volumes())?;
    let canon = canons_of(alloc, plan.row.area.volumes())?;
    let volumes = volume_rows(alloc, operator, id, &plan.row, &asked, &canon)?;
    let spans = span_rows(alloc, operator, id, &plan.row)?;
    insert_volumes(tx, &volumes)?;
    insert_spans(tx, &spans)?;
    Ok(())
}

/// Loads the state from the tables of schema 1, so far as they are among `made`, and changes nothing; returns
/// it with the indexes in memory. `NotADesk` if the rows aren't those of a valid state of schema 1, or if
/// there are rows of schema 2; `OutOfMemory` if memory runs out; `Store` if SQLite fails for another cause.
pub(crate) fn load_old_tables<S: Alter>(
    alloc: Global,
    connection: &mut Connection<S>,
    made: TablesPresent,
) -> Result<(Content, MemoryIndex), OpenFault>
    requires part { ShowsOperators S.Store connection.old made }
    ensures read { IsRead S.Store connection.old connection.new result made
        (λ tables found. IsOldContentOf tables found.0) AreNoOldContent }
    ensures content { IfOk result (λ found. IsContent found.0) }
    ensures few { IfOk result (λ found. HaveFewRows found.0.plans) }
    ensures known { IfOk result (λ found. Knows found.1 found.0) }
{
    // A law, which changes nothing: footprints with the same bytes are the same.
    one_shape();
    let heads = read_old_heads_alone(alloc, connection, made)?;
    let (operators, plans) = parse_old_heads(alloc, &heads)?;
    let mut check = SpanCheck::new(alloc, plans);
    take_spans(connection, WholeTable::OldSpans, made, &mut check)?;
    finish_content(alloc, operators, check)
}

// As `read_old_heads`, but `NotADesk` if `volume2` or `span2`, which only schema 2 has, has a row.
// Long: the value, and when each fault is reported, have a clause each.
fn read_old_heads_alone<S: Alter>(
    alloc: Global,
    connection: &mut Connection<S>,
    made: TablesPresent,
) -> Result<TableRows, OpenFault>
    requires part { ShowsOperators S.Store connection.old made }
    ensures value { HasCleanDisk (state S.Store connection.new) → IfOk result (λ heads.
        HasNoNewRows (tables_at made (state S.Store connection.old).now.trees)
        × AreSortedOld (tables_at made (state S.Store connection.old).now.trees) heads) }
    ensures open { WasOpen S.Store connection.old connection.new result }
    ensures live { OnOk result (IsOpenIfClean S.Store connection.new) }
    ensures refused { IfErr result (λ e. e ≡ OpenFault.NotADesk → HasCleanDisk (state S.Store connection.new)
        → ¬ HasNoNewRows (tables_at made (state S.Store connection.old).now.trees)) }
    ensures no_old_schema { IfErr result (λ e. e ≢ OpenFault.OldSchema) }
    ensures cause { IfErr result (BlamesReading S.Store connection.old connection.new) }
    ensures reads { OnlyReads S.Store connection.old connection.new }
{
    if !are_new_tables_empty(connection, made)? {
        return Err(OpenFault::NotADesk);
    }
    read_old_heads(alloc, connection, made)
}

/// Whether `volume2` and `span2`, which only schema 2 has, are without rows. One that isn't among `made` has
/// none. It fails with `OutOfMemory` if memory runs out, and with `Store` for another cause.
#[tactic(auto, using(crate::proofs::lemmas::Frame::reads_then))]
pub(crate) fn are_new_tables_empty<S: Alter>(
    connection: &mut Connection<S>,
    made: TablesPresent,
) -> Result<bool, OpenFault>
    requires part { ShowsPart S.Store connection.old made }
    ensures value { HasCleanDisk (state S.Store connection.new) → IfOk result (λ empty.
        IsTrue empty ↔ HasNoNewRows (tables_at made (state S.Store connection.old).now.trees)) }
    ensures fault { IfErr result (λ e. (e ≢ OpenFault.NotADesk)
        × (e ≢ OpenFault.OldSchema)) }
    ensures cause { IfErr result (BlamesReading S.Store connection.old connection.new) }
    ensures reads { OnlyReads S.Store connection.old connection.new }
{
    let has_rows = has_new_rows(connection, made)?;
    Ok(!has_rows)
}

/// The rows of `operator`, `plan` and `volume`, each ordered by key; `spans` is empty. A table that isn't
/// among `made` has no rows. It fails with `OutOfMemory` if memory runs out, and with `Store` for another
/// cause.
#[tactic(auto, using(crate::proofs::lemmas::Frame::reads_then, crate::proofs::lemmas::Opening::part_on))]
pub(crate) fn read_old_heads<S: Alter>(
    alloc: Global,
    connection: &mut Connection<S>,
    made: TablesPresent,
) -> Result<TableRows, OpenFault>
    requires part { ShowsOperators S.Store connection.old made }
    ensures value { HasCleanDisk (state S.Store connection.new) → IfOk result
        (AreSortedOld (tables_at made (state S.Store connection.old).now.trees)) }
    ensures open { WasOpen S.Store connection.old connection.new result }
    ensures live { OnOk result (IsOpenIfClean S.Store connection.new) }
    ensures fault { IfErr result (λ e. (e ≢ OpenFault.NotADesk) × (e ≢ OpenFault.OldSchema)) }
    ensures cause { IfErr result (BlamesReading S.Store connection.old connection.new) }
    ensures reads { OnlyReads S.Store connection.old connection.new }
{
    let operators = all_rows(alloc, connection, WholeTable::Operators, made)?;
    let plans = all_rows(alloc, connection, WholeTable::Plans, made)?;
    let volumes = all_rows(alloc, connection, WholeTable::OldVolumes, made)?;
    let spans = Vec::new(alloc);
    Ok(TableRows {
        operators,
        plans,
        volumes,
        spans,
    })
}

// The operators and plans whose rows of operators, plans and volumes are `heads`. `NotADesk` if these aren't
// the rows of a valid state within the limits of schema 1; `OutOfMemory` if memory runs out. Spans aren't
// checked.
fn parse_old_heads(
    alloc: Global,
    heads: &TableRows,
) -> Result<(Vec<ListedOperator>, Vec<FiledPlan>), OpenFault>
    ensures value { IfOk result (λ found. AreOldParts heads.now found.0.items found.1.items) }
    ensures few { IfOk result (λ found. length (tables.volume_rows found.1.items) < 2 ^ 63) }
    ensures refused { IfErr result (λ e. e ≡ OpenFault.NotADesk → (w : World) (spans : List Values)
        → IsOldContent w → ¬ AreRows (record heads.now { spans = spans }) w) }
    ensures fault { IfErr result (λ e. (e ≢ OpenFault.Store) × (e ≢ OpenFault.OldSchema)) }
{
    // A law, which changes nothing: footprints with the same bytes are the same.
    one_shape();
    let (operators, plans) = parse_heads(alloc, heads)?;
    if !are_within_old_limits(&plans)? {
        return Err(OpenFault::NotADesk);
    }
    Ok((operators, plans))
}

/// Whether each plan is within the limits of schema 1: 8 volumes, and 256 cells of the canonical cover of
/// each of its rectangles. `AllocError` if memory runs out.
pub(crate) fn are_within_old_limits(plans: &[FiledPlan]) -> Result<bool, AllocError>
    ensures { IfOk result (λ are. IsTrue are ↔ AllByRecursion (λ p. IsOldArea p.row.area) plans.now) }
{
    let mut left = plans;
    'plan: while let Some((plan, later)) = left.split_first() {
        if !is_area_within_old_limits(plan.row.area.volumes())? {
            return Ok(false);
        }
        left = later;
    }
    Ok(true)
}

// Whether `volumes`, those of one plan, are within the limits of schema 1. `AllocError` if memory runs out.
fn is_area_within_old_limits(volumes: &[Volume]) -> Result<bool, AllocError>
    ensures { IfOk result (λ is. IsTrue is ↔ IsOldArea volumes.now) }
{
    if volumes.len() > OLD_MAX_VOLUMES {
        return Ok(false);
    }
    let mut left = volumes;
    'volume: while let Some((volume, later)) = left.split_first() {
        if !is_volume_within_old_limits(volume)? {
            return Ok(false);
        }
        left = later;
    }
    Ok(true)
}

// Whether the canonical cover of `volume` is within the limit of schema 1: 256 cells for a rectangle. Cell
// lists have the same limits in both schemas. `AllocError` if memory runs out.
fn is_volume_within_old_limits(volume: &Volume) -> Result<bool, AllocError>
    ensures { IfOk result (λ is. IsTrue is ↔ IsOldShape volume.now.footprint) }
{
    if let Footprint::Cells(_) = volume.footprint() {
        return Ok(true);
    }
    // Laws, which change nothing: the cells of a cover are the canonical list of its leaves.
    one_canonical_list();
    canonical_list_is();
    let cover = volume.cover()?;
    Ok(cover.cells().len() <= OLD_MAX_COVER)
}
