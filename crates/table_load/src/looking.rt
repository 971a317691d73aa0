//! Statistics of a database in either schema, which is only read. In schema 1, the older one, volumes and
//! spans have their rows in `volume` and `span`; in schema 2 in `volume2` and `span2`. A state, that is, the
//! operators with their ceilings and all plans, is valid if it keeps the desk's limits.

ghost use Rattle.std.specs.Prelude.{◌≡◌, ◌≢◌, false, IfOk, IfErr};
ghost use Rattle.desk_rules.specs.Outcome.{is_live};
ghost use Rattle.desk_sql.specs.Effects.{OnlyReads, Holds};
ghost use Rattle.desk_store.specs.World.{World, IsContent};
ghost use Rattle.row_codec.specs.SpanBounds.{Knows};
ghost use Rattle.sqlite.specs.{Held.state};
ghost use Rattle.table_load.specs.{Opening.BlamesDatabase, Opening.HasRowsOld, Opening.HaveFewRows, OpeningSteps.IsRead, OpeningSteps.ShowsPart, Moving.AreStatsOf, Moving.AreNoContentIn, Moving.IsContentIn, Moving.ShowsContent, Moving.ShowsNone};
ghost use Rattle.table_load.specs.Moving as spec;

use crate::fault::OpenFault;
use crate::finding::{find_desk_tables, load_content};
use crate::moving::load_old_tables;
use desk_rules::words::Usage;
use desk_sql::TablesPresent;
use row_codec::content::Content;
use row_codec::counting::{Counted, most_of};
use row_codec::exact::FiledPlan;
use row_codec::known::MemoryIndex;
use sqlite::Connection;
use sqlite_trees::store::Alter;
use std::alloc::Global;

/// Statistics of a database.
#[derive(Clone, Copy, Debug, PartialEq, Eq)]
pub struct DbStats {
    /// Whether the rows are those of schema 1.
    pub is_old: bool,
    /// How many operators there are.
    pub operators: usize,
    /// How many plans there are, closed ones too.
    pub plans: usize,
    /// How many of them are not closed.
    pub live: usize,
    /// How many rows of spans there are.
    pub spans: usize,
    /// How many rows of spans the operator with the most of them has.
    pub most_spans: usize,
    /// How many cells the plans of the operator with the most cells have, closed plans too.
    pub most_cells: usize,
}

/// The statistics of a database in either schema: those of its state, if the disk returned what was written.
/// It changes nothing.
///
/// # Errors
///
/// `OutOfMemory` if memory runs out. `Store` if SQLite fails for another cause. `NotADesk` if there is no
/// table, if the tables aren't a desk's, or if the rows aren't those of a valid state in either schema.
pub fn read_stats<S: Alter>(
    alloc: Global,
    connection: &mut Connection<S>,
) -> Result<DbStats, OpenFault>
    requires settled { connection.old.in_transaction ≡ false }
    ensures value { IfOk result (λ stats. (w : World) × AreStatsOf stats w
        × ShowsContent S.Store connection.old connection.new stats.is_old w) }
    ensures refused { IfErr result (λ e. e ≡ OpenFault.NotADesk →
        ShowsNone S.Store connection.old connection.new) }
    ensures no_old_schema { IfErr result (λ e. e ≢ OpenFault.OldSchema) }
    ensures cause { IfErr result (BlamesDatabase S.Store connection.old connection.new) }
    ensures reads { OnlyReads S.Store connection.old connection.new }
{
    let (content, _, old) = read_content(alloc, connection)?;
    Ok(stats_of(&content, old))
}

/// Whether the database that `connection` shows has more tables than a desk's six, more indexes than its
/// eight (six of primary keys, two over leaves), or a view.
pub fn has_others<S: Alter>(connection: &Connection<S>) -> bool
    ensures { result ≡ spec.has_others (state S.Store connection.now).now.schema }
{
    let schema = connection.schema();
    schema.tables.len() > 6 || schema.indexes.len() > 8 || schema.views.len() > 0
}

/// The statistics of the state `content`. `is_old` says whether it was read from rows of schema 1.
pub fn stats_of(content: &Content, is_old: bool) -> DbStats
    requires { IsContent content.now }
    ensures counted { AreStatsOf result content.now }
    ensures schema { result.is_old ≡ is_old }
{
    DbStats {
        is_old,
        operators: content.operators.len(),
        plans: content.plans.len(),
        live: live_count(&content.plans),
        spans: content.spans,
        most_spans: most_of(Counted::Spans, &content.plans),
        most_cells: most_of(Counted::Cells, &content.plans),
    }
}

/// Loads the state of a database in either schema; returns it with the indexes in memory, and whether the
/// rows are those of schema 1. It changes nothing. The state is right if the disk returned what was written.
///
/// # Errors
///
/// Those of `read_stats`.
// Long: the value, the indexes, and when each fault is reported, have a clause each.
pub fn read_content<S: Alter>(
    alloc: Global,
    connection: &mut Connection<S>,
) -> Result<(Content, MemoryIndex, bool), OpenFault>
    requires settled { connection.old.in_transaction ≡ false }
    ensures value { IfOk result (λ found.
        ShowsContent S.Store connection.old connection.new found.2 found.0) }
    ensures content { IfOk result (λ found. IsContent found.0) }
    ensures few { IfOk result (λ found. HaveFewRows found.0.plans) }
    ensures known { IfOk result (λ found. Knows found.1 found.0) }
    ensures refused { IfErr result (λ e. e ≡ OpenFault.NotADesk →
        ShowsNone S.Store connection.old connection.new) }
    ensures no_old_schema { IfErr result (λ e. e ≢ OpenFault.OldSchema) }
    ensures cause { IfErr result (BlamesDatabase S.Store connection.old connection.new) }
    ensures reads { OnlyReads S.Store connection.old connection.new }
{
    let (made, old) = find_desk_tables(connection)?;
    if made == TablesPresent::Nothing {
        return Err(OpenFault::NotADesk);
    }
    let (content, known) = load_content_in_schema(alloc, connection, made, old)?;
    Ok((content, known, old))
}

// Loads the state from the tables of schema 1 if `old`, else from those of schema 2; returns it with the
// indexes in memory. `old` says whether there are rows of schema 1, and `made` which tables there are. It
// fails as `read_stats` does.
#[tactic(auto, using(crate::proofs::lemmas::Opening::some_operators))]
fn load_content_in_schema<S: Alter>(
    alloc: Global,
    connection: &mut Connection<S>,
    made: TablesPresent,
    old: bool,
) -> Result<(Content, MemoryIndex), OpenFault>
    requires part { ShowsPart S.Store connection.old made }
    requires rows { Holds S.Store connection.old (HasRowsOld made old) }
    requires has_table { made ≢ TablesPresent.Nothing }
    ensures read { IsRead S.Store connection.old connection.new result made
        (λ tables found. IsContentIn old tables found.0) (AreNoContentIn old) }
    ensures content { IfOk result (λ found. IsContent found.0) }
    ensures few { IfOk result (λ found. HaveFewRows found.0.plans) }
    ensures known { IfOk result (λ found. Knows found.1 found.0) }
{
    if old {
        load_old_tables(alloc, connection, made)
    } else {
        load_content(alloc, connection, made)
    }
}

// How many of `plans` are not closed.
fn live_count(plans: &[FiledPlan]) -> usize
    ensures { result ≡ spec.live_count plans.now }
{
    plans.iter().filter(|plan| is_live(plan)).count()
}

/// Whether `plan` is not closed.
pub(crate) fn is_live(plan: &FiledPlan) -> bool
    ensures { result ≡ is_live plan.now.row.usage }
{
    plan.row.usage != Usage::Closed
}
