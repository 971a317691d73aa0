//! Loads the state of a database in schema 2 when a store is opened over it: the operators with their
//! ceilings, and all plans. What contracts say of rows holds while the disk returned what was written and no
//! error has shut the connection. A state is valid if it keeps the desk's limits. Schema 2 has its rows in
//! `operator`, `plan`, `volume2` and `span2`; rows in `volume` or `span` are of schema 1. A desk makes tables
//! and indexes in one order, the canonical one; a packed file has all tables before the indexes, as after a
//! VACUUM. The parameter `made` says which of them a database has.

ghost use Rattle.std.specs.Prelude.{◌≡◌, ◌≢◌, ◌↔◌, ◌<◌, ◌^◌, List, [], length, true, false, IfOk, IfErr, OnOk, IsTrue, None, ◌≤◌};
ghost use Rattle.sqlite_value.specs.Order.{Row as Values};
ghost use Rattle.sqlite.specs.{State.HasCleanDisk, Held.state};
ghost use Rattle.desk_sql.specs.{Queries.WasOpen, Rows.IsMadeTo, Rows.tables_at, Effects.IsOpenIfClean, Effects.StaysShown, Effects.OnlyReads, Effects.Holds};
ghost use Rattle.desk_store.specs.World.{World, IsContent};
ghost use Rattle.table_load.specs.OpeningSteps.{IsCompletedAs, MayBecome, WereCompared, BeginsCompleted, HadNone, IsOpening, IsRead, IsSetUp, IsAtRest, ShowsOperators, ShowsPart};
ghost use Rattle.row_codec.specs.{SpanBounds.Knows, SpanBounds.IsKnownRow, SpanBounds.Keeps, Tables.AreSpanRows, Tables.volume_rows};
ghost use Rattle.table_load.specs.Opening.{HaveFewRows, IsContentOf, AreNoContent, AreListedInOrder, AreParts, AreRows, AreSortedHeads, BeginsWith, HasRowsOld, HasNewRows, ShowsNoDesk, ShowsOldRows, BlamesReading, BlamesDatabase};

use crate::covers::{CoverCheck, take_volumes};
use crate::fault::OpenFault;
use crate::ordering::load_and_reorder;
use crate::spans::{SpanCheck, take_spans};
use desk_sql::{TablesPresent, WholeTable, all_rows, complete_tables, find_tables, has_old_rows};
use operator_index::ListedOperator;
use row_codec::content::{
    Content, TableRows, are_keys_ascending, are_names_ascending, have_operators_and_room,
    operators_in, plans_in,
};
use row_codec::exact::FiledPlan;
use row_codec::kept::GhostState;
use row_codec::known::{MemoryIndex, live_index_of, operator_index_of};
use row_codec::span_bounds::SpanBounds;
use s2_cover::laws::one_list_of_ranges;
use sqlite::{Connection, Row};
use sqlite_trees::store::Alter;
use sqlite_value::value::ValueRef;
use std::alloc::Global;
use volume4d::laws::one_shape;

/// Loads the state of a database; returns it with the indexes in memory, and whether it has an operator (no
/// contract says this). Missing tables are made: of an empty database all, else those after the ones that are
/// there, if the rows are those of a valid state. A packed file is rebuilt in canonical order. A crash leaves
/// the database as it was, or with all tables and its state.
///
/// # Errors
///
/// `OutOfMemory` if memory runs out. `Store` if SQLite fails for another cause. `OldSchema` if there are rows
/// of schema 1. `NotADesk` if the tables aren't a desk's, or if the rows aren't those of a valid state. The
/// tables and rows stay in each case.
pub fn load_world<S: Alter>(
    alloc: Global,
    connection: &mut Connection<S>,
) -> Result<(GhostState, MemoryIndex, bool), OpenFault>
    requires rest { IsAtRest connection.old }
    ensures opened { IsOpening S.Store connection.old connection.new result (λ found. found.0.world)
        (λ found. BeginsWith S.Store connection.old connection.new found.0.world)
        (ShowsNoDesk S.Store connection.old connection.new)
        (ShowsOldRows S.Store connection.old connection.new)
        (StaysShown S.Store connection.old connection.new) }
    ensures known { IfOk result (λ found. Knows found.1 found.0.world) }
    ensures crash { MayBecome S.Store connection.old connection.new IsCompletedAs }
{
    let (made, old) = find_desk_tables(connection)?;
    if old {
        return Err(OpenFault::OldSchema);
    }
    load_or_create(alloc, connection, made)
}

/// Which of the schema's tables there are, and whether they have rows of schema 1. `NotADesk` if there are
/// others than a desk's; `OutOfMemory` if memory runs out; `Store` if SQLite fails for another cause. It
/// changes nothing.
pub(crate) fn find_desk_tables<S: Alter>(
    connection: &mut Connection<S>,
) -> Result<(TablesPresent, bool), OpenFault>
    requires settled { connection.old.in_transaction ≡ false }
    ensures part { IfOk result (λ found. Holds S.Store connection.new (IsMadeTo found.0)) }
    ensures rows { IfOk result (λ found.
        Holds S.Store connection.new (HasRowsOld found.0 found.1)) }
    ensures has_table { IfOk result (λ found. found.1 ≡ true → found.0 ≢ TablesPresent.Nothing) }
    ensures refused { IfErr result (λ e. e ≡ OpenFault.NotADesk →
        ShowsNoDesk S.Store connection.old connection.new) }
    ensures no_old_schema { IfErr result (λ e. e ≢ OpenFault.OldSchema) }
    ensures cause { IfErr result (BlamesDatabase S.Store connection.old connection.new) }
    ensures reads { OnlyReads S.Store connection.old connection.new }
{
    let Some(made) = find_tables(connection)? else {
        return Err(OpenFault::NotADesk);
    };
    if made == TablesPresent::Nothing {
        return Ok((made, false));
    }
    let old = has_old_rows(connection, made)?;
    Ok((made, old))
}

/// Loads the state of a database without rows of schema 1, whose tables are `made`: it makes or reorders
/// tables, returns and fails as `load_world` does.
pub(crate) fn load_or_create<S: Alter>(
    alloc: Global,
    connection: &mut Connection<S>,
    made: TablesPresent,
) -> Result<(GhostState, MemoryIndex, bool), OpenFault>
    requires part { ShowsPart S.Store connection.old made }
    requires new { Holds S.Store connection.old (HasNewRows made) }
    requires unlimited { connection.old.step_limit ≡ None }
    ensures set_up { IsSetUp S.Store connection.old connection.new result (λ found. found.0.world)
        (λ found. BeginsWith S.Store connection.old connection.new found.0.world)
        (ShowsNoDesk S.Store connection.old connection.new)
        (StaysShown S.Store connection.old connection.new) }
    ensures known { IfOk result (λ found. Knows found.1 found.0.world) }
    ensures crash { MayBecome S.Store connection.old connection.new IsCompletedAs }
{
    match made {
        TablesPresent::All => load_tables(alloc, connection, TablesPresent::All),
        TablesPresent::Nothing => Ok((create_tables(connection)?, MemoryIndex::new(alloc), false)),
        TablesPresent::Packed => load_and_reorder(alloc, connection),
        made => load_and_complete(alloc, connection, made),
    }
}

/// Makes all tables in a database that has none, in one transaction; returns the empty state.
///
/// # Errors
///
/// `OutOfMemory` if memory runs out. `Store` if SQLite fails for another cause. No table is made then.
pub fn create_tables<S: Alter>(connection: &mut Connection<S>) -> Result<GhostState, OpenFault>
    requires blank { ShowsPart S.Store connection.old TablesPresent.Nothing }
    requires unlimited { connection.old.step_limit ≡ None }
    ensures set_up { IsSetUp S.Store connection.old connection.new result (λ kept. kept.world)
        (λ kept. kept.world ≡ record { operators = []; plans = [] }) ⊥
        (StaysShown S.Store connection.old connection.new) }
    ensures faults { (state S.Store connection.old).faults ≤ (state S.Store connection.new).faults }
    ensures crash { MayBecome S.Store connection.old connection.new IsCompletedAs }
{
    complete_tables(connection, TablesPresent::Nothing)?;
    Ok(GhostState::new())
}

// Loads the state from the tables `made`, which are some of the schema's but not all, and then makes the
// missing ones in one transaction. Returns the state, its indexes in memory, and whether it has an operator
// (no contract says this). `NotADesk` if the rows aren't those of a valid state; `OutOfMemory` or `Store` as
// in `load_world`. If it fails, no table is made.
// Long: five facts say which tables there are; one record says how it may end.
#[tactic(auto, using(crate::proofs::lemmas::Opening::some_operators))]
fn load_and_complete<S: Alter>(
    alloc: Global,
    connection: &mut Connection<S>,
    made: TablesPresent,
) -> Result<(GhostState, MemoryIndex, bool), OpenFault>
    requires part { ShowsPart S.Store connection.old made }
    requires new { Holds S.Store connection.old (HasNewRows made) }
    requires missing { made ≢ TablesPresent.All }
    requires ordered { made ≢ TablesPresent.Packed }
    requires has_table { made ≢ TablesPresent.Nothing }
    requires unlimited { connection.old.step_limit ≡ None }
    ensures set_up { IsSetUp S.Store connection.old connection.new result (λ found. found.0.world)
        (λ found. BeginsCompleted S.Store connection.old connection.new found.0.world)
        (HadNone S.Store connection.old connection.new made)
        (StaysShown S.Store connection.old connection.new) }
    ensures known { IfOk result (λ found. Knows found.1 found.0.world) }
    ensures crash { MayBecome S.Store connection.old connection.new IsCompletedAs }
{
    let found = load_tables(alloc, connection, made)?;
    complete_tables(connection, made)?;
    Ok(found)
}

// Loads the state from the tables `made`, and changes nothing. Returns the state, its indexes in memory, and
// whether it has an operator (no contract says this). It fails as `load_content` does.
fn load_tables<S: Alter>(
    alloc: Global,
    connection: &mut Connection<S>,
    made: TablesPresent,
) -> Result<(GhostState, MemoryIndex, bool), OpenFault>
    requires part { ShowsOperators S.Store connection.old made }
    requires new { Holds S.Store connection.old (HasNewRows made) }
    ensures read { IsRead S.Store connection.old connection.new result made
        (λ tables found. IsContentOf tables found.0.world) AreNoContent }
    ensures known { IfOk result (λ found. Knows found.1 found.0.world) }
    ensures live { OnOk result (IsOpenIfClean S.Store connection.new) }
{
    let (content, known) = load_content(alloc, connection, made)?;
    let is_enrolled = !content.operators.is_empty();
    Ok((GhostState::of(&content), known, is_enrolled))
}

/// Loads the state from the tables `made`, and changes nothing; returns it with the indexes in memory.
/// `NotADesk` if the rows aren't those of a valid state, `OutOfMemory` if memory runs out, and `Store` if
/// SQLite fails for another cause.
pub(crate) fn load_content<S: Alter>(
    alloc: Global,
    connection: &mut Connection<S>,
    made: TablesPresent,
) -> Result<(Content, MemoryIndex), OpenFault>
    requires part { ShowsOperators S.Store connection.old made }
    requires new { Holds S.Store connection.old (HasNewRows made) }
    ensures read { IsRead S.Store connection.old connection.new result made
        (λ tables found. IsContentOf tables found.0) AreNoContent }
    ensures content { IfOk result (λ found. IsContent found.0) }
    ensures few { IfOk result (λ found. HaveFewRows found.0.plans) }
    ensures known { IfOk result (λ found. Knows found.1 found.0) }
    ensures live { OnOk result (IsOpenIfClean S.Store connection.new) }
{
    // A law, which changes nothing: footprints with the same bytes are the same.
    one_shape();
    let (heads, covered) = read_heads(alloc, connection, made)?;
    let (operators, plans) = parse_covered_heads(alloc, &heads, covered)?;
    let mut check = SpanCheck::new(alloc, plans);
    take_spans(connection, WholeTable::Spans, made, &mut check)?;
    finish_content(alloc, operators, check)
}

/// The operators and plans whose rows of operators, plans and volumes are `heads`. `NotADesk` if these aren't
/// the rows of a valid state; `OutOfMemory` if memory runs out. Spans and covers aren't checked.
pub(crate) fn parse_heads(
    alloc: Global,
    heads: &TableRows,
) -> Result<(Vec<ListedOperator>, Vec<FiledPlan>), OpenFault>
    ensures value { IfOk result (λ found. AreParts heads.now found.0.items found.1.items) }
    ensures few { IfOk result (λ found. length (volume_rows found.1.items) < 2 ^ 63) }
    ensures refused { IfErr result (λ e. e ≡ OpenFault.NotADesk → (w : World) (spans : List Values)
        → IsContent w → ¬ AreRows (record heads.now { spans = spans }) w) }
    ensures fault { IfErr result (λ e. (e ≢ OpenFault.Store) × (e ≢ OpenFault.OldSchema)) }
{
    // A law, which changes nothing: footprints with the same bytes are the same.
    one_shape();
    let operators = operators_in(alloc, &heads.operators)?;
    let plans = plans_in(alloc, &heads.plans, &heads.volumes)?;
    if !are_in_order(&operators, &plans) {
        return Err(OpenFault::NotADesk);
    }
    Ok((operators, plans))
}

// As `parse_heads`, but also `NotADesk` if `covered` is false: it says whether the cover in each row of a
// volume was that of the volume.
fn parse_covered_heads(
    alloc: Global,
    heads: &TableRows,
    covered: bool,
) -> Result<(Vec<ListedOperator>, Vec<FiledPlan>), OpenFault>
    ensures value { IfOk result (λ found. AreParts heads.now found.0.items found.1.items) }
    ensures agree { OnOk result (IsTrue covered) }
    ensures few { IfOk result (λ found. length (volume_rows found.1.items) < 2 ^ 63) }
    ensures refused { IfErr result (λ e. e ≡ OpenFault.NotADesk → (w : World) (spans : List Values)
        → IsContent w → AreRows (record heads.now { spans = spans }) w → ¬ IsTrue covered) }
    ensures fault { IfErr result (λ e. (e ≢ OpenFault.Store) × (e ≢ OpenFault.OldSchema)) }
{
    let (operators, plans) = parse_heads(alloc, heads)?;
    if !covered {
        return Err(OpenFault::NotADesk);
    }
    Ok((operators, plans))
}

// Whether operators and plans are ordered by their keys, none twice, each plan's operator is among
// `operators`, and no operator has more than `MAX_PLANS` plans.
fn are_in_order(operators: &[ListedOperator], plans: &[FiledPlan]) -> bool
    ensures { IsTrue result ↔ AreListedInOrder operators.now plans.now }
{
    if !are_names_ascending(operators) {
        return false;
    }
    if !are_keys_ascending(plans) {
        return false;
    }
    have_operators_and_room(operators, plans)
}

/// The state of `operators` and of the plans in `check`, with the indexes in memory. `check` has compared all
/// rows of spans with these plans: `NotADesk` if they aren't the rows of the plans. `OutOfMemory` if memory
/// runs out.
pub(crate) fn finish_content(
    alloc: Global,
    operators: Vec<ListedOperator>,
    check: SpanCheck,
) -> Result<(Content, MemoryIndex), OpenFault>
    requires taken { (rows : List Values) × WereCompared check rows }
    ensures value { IfOk result (λ found. (found.0.operators ≡ operators.items)
        × (found.0.plans ≡ check.plans.items)) }
    ensures agree { (rows : List Values) → WereCompared check rows
        → OnOk result (AreSpanRows check.plans.items rows) }
    ensures known { AreListedInOrder operators.items check.plans.items
        → IfOk result (λ found. Knows found.1 found.0) }
    ensures refused { IfErr result (λ e. e ≡ OpenFault.NotADesk → (rows : List Values)
        → WereCompared check rows → ¬ AreSpanRows check.plans.items rows) }
    ensures fault { IfErr result (λ e. (e ≢ OpenFault.Store) × (e ≢ OpenFault.OldSchema)) }
{
    // A law, which changes nothing: a set of leaves has only one list of ranges.
    one_list_of_ranges();
    let mut check = check;
    if !check.agrees()? {
        return Err(OpenFault::NotADesk);
    }
    let known = MemoryIndex {
        span_bounds: check.span_bounds,
        live: live_index_of(alloc, &check.plans)?,
        roll: operator_index_of(alloc, &operators, &check.plans)?,
    };
    let content = Content {
        operators,
        spans: check.count,
        plans: check.plans,
    };
    Ok((content, known))
}

/// The rows of `operator`, `plan` and `volume2`, each ordered by key, and whether each cover is that of its
/// volume. The rows of `volume2` come without their covers, and `spans` is empty. A table that isn't among
/// `made` has no rows. It fails with `OutOfMemory` if memory runs out, and with `Store` for another cause.
#[tactic(auto, using(crate::proofs::lemmas::Frame::reads_then, crate::proofs::lemmas::Opening::part_on))]
pub(crate) fn read_heads<S: Alter>(
    alloc: Global,
    connection: &mut Connection<S>,
    made: TablesPresent,
) -> Result<(TableRows, bool), OpenFault>
    requires part { ShowsOperators S.Store connection.old made }
    ensures value { HasCleanDisk (state S.Store connection.new) → IfOk result (λ found.
        AreSortedHeads (tables_at made (state S.Store connection.old).now.trees) found.0 found.1) }
    ensures open { WasOpen S.Store connection.old connection.new result }
    ensures live { OnOk result (IsOpenIfClean S.Store connection.new) }
    ensures fault { IfErr result (λ e. (e ≢ OpenFault.NotADesk) × (e ≢ OpenFault.OldSchema)) }
    ensures cause { IfErr result (BlamesReading S.Store connection.old connection.new) }
    ensures reads { OnlyReads S.Store connection.old connection.new }
{
    let operators = all_rows(alloc, connection, WholeTable::Operators, made)?;
    let plans = all_rows(alloc, connection, WholeTable::Plans, made)?;
    let mut check = CoverCheck::new(alloc);
    take_volumes(connection, made, &mut check)?;
    let spans = Vec::new(alloc);
    let heads = TableRows {
        operators,
        plans,
        volumes: check.volumes,
        spans,
    };
    Ok((heads, check.agree))
}

/// Bounds that hold for each span for which `span_bounds` hold, and for the span of `row`, a row of spans:
/// from `first` to `last` (columns 3 and 4, counted from 0). They are the same if these two aren't integers.
pub(crate) fn with_span_row(span_bounds: &SpanBounds, row: &Row) -> SpanBounds
    ensures kept { Keeps span_bounds.now result }
    ensures known { IsKnownRow result row.now }
{
    match (row.get_ref(3), row.get_ref(4)) {
        (Ok(ValueRef::Int(first)), Ok(ValueRef::Int(last))) => span_bounds.with(first, last),
        _ => *span_bounds,
    }
}
