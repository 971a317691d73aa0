//! What a store reads from its tables: what the state has, if the disk returned what was written
//! (*ReadsWorld*). Columns of rows are counted from 0. A slab is one range of leaves (S2 cells of level 30
//! along the curve), one of altitudes and one of times. An extent is a slab of which is asked what plans hold
//! in it. A head is the row of a plan in `plan`, without its volumes. A live plan isn't closed.

ghost use Rattle.std.specs.Prelude.{◌≡◌, ◌≢◌, ◌<◌, ◌^◌, List, IfErr, IfOk, IsOk, OnOk, map};
ghost use Rattle.std.specs.{List.AllByRecursion, List.AllZip, Result.IsErrAnd};
ghost use Rattle.desk_rules.specs.declared.plan.PlanRow.{PlanRow as Plan};
ghost use Rattle.desk_store.specs.World.{Filed, plans_of, stored_of, IsValidVolume, IsContent, IsId, IsPlan};
ghost use Rattle.row_codec.specs.{Tables.plan_rows, Tables.volume_rows, SpanBounds.Knows};
ghost use Rattle.row_codec.specs.RowsRead.{IsHead, IsVolumeAt, listing_rows, HasCollected, HasNoArea, AreWantedNear};
ghost use Rattle.desk_tables.specs.Store.{own_of, ReadsPlans, ReadsSpans};

use crate::reading::plans::max_rows_beside;
use crate::tables::DeskTables;
use desk_rules::operator::Operator;
use desk_rules::plan::PlanRow;
use desk_rules::plan_id::PlanId;
use desk_sql::{own_plans as own_listing, plan_of, volumes_of};
use desk_store::StoreFault;
use live_index::{Wanted, enclosing_slab};
use row_codec::known::MemoryIndex;
use row_codec::listing::PlanCollector;
use row_codec::rivals::SpanCollector;
use row_codec::values::{area_in, fault_reported, or_fault, plan_in};
use sqlite::{Error, ErrorCode, Row};
use sqlite_trees::store::Alter;
use std::alloc::Global;
use volume4d::{Held, Slab};

impl<S: Alter> DeskTables<S> {
    /// The head of the operator's plan `id`; no row if the plan isn't stored.
    ///
    /// # Errors
    ///
    /// `OutOfMemory` if memory runs out. `Store` if SQLite fails for another cause.
    pub(crate) fn head_rows(
        &mut self,
        operator: &Operator,
        id: &PlanId,
    ) -> Result<Vec<Row>, StoreFault>
        ensures { ReadsPlans S.Store self.old self.new result (λ rows. IsContent self.old.world
            × (rows.items ≡ plan_rows (own_of operator.now id.now self.old.world))) }
    {
        let mut buffer = [0u8; 36];
        let text = id.encode(&mut buffer);
        let answer = plan_of(&mut self.connection, operator.as_str(), text);
        or_fault(answer, self.reported)
    }

    // The rows of `volume2` for the operator's plan `id`, ordered by place (column 2); no row if the plan
    // isn't stored. It fails as `head_rows` does.
    fn volumes(&mut self, operator: &Operator, id: &PlanId) -> Result<Vec<Row>, StoreFault>
        ensures { ReadsPlans S.Store self.old self.new result (λ rows. IsContent self.old.world
            × (rows.items ≡ volume_rows (own_of operator.now id.now self.old.world))) }
    {
        let mut buffer = [0u8; 36];
        let text = id.encode(&mut buffer);
        let answer = volumes_of(&mut self.connection, operator.as_str(), text);
        or_fault(answer, self.reported)
    }

    /// The operator's plan `id`, or `None` if it isn't stored.
    ///
    /// # Errors
    ///
    /// `OutOfMemory` if memory runs out. `Store` if SQLite fails for another cause, or if the rows aren't
    /// those of a plan.
    #[tactic(auto, using(table_load::proofs::lemmas::Frame::reads_then))]
    pub(crate) fn plan(
        &mut self,
        operator: &Operator,
        id: &PlanId,
    ) -> Result<Option<PlanRow>, StoreFault>
        ensures { ReadsPlans S.Store self.old self.new result (λ row.
            row ≡ stored_of id.now (plans_of operator.now self.old.world)) }
    {
        let head_rows = self.head_rows(operator, id)?;
        let Some(head) = head_rows.first() else {
            return Ok(None);
        };
        let rows = self.volumes(operator, id)?;
        Ok(Some(plan_of_rows(self.allocator(), head, &rows)?))
    }

    /// The operator's plans, at most 200, ascending by id, none twice.
    ///
    /// # Errors
    ///
    /// `OutOfMemory` if memory runs out. `Store` if SQLite fails for another cause, or if the rows aren't
    /// those of plans.
    pub(crate) fn own_plans(&mut self, operator: &Operator) -> Result<Vec<PlanRow>, StoreFault>
        ensures { ReadsPlans S.Store self.old self.new result (λ rows.
            rows.items ≡ plans_of operator.now self.old.world) }
    {
        let mut collector = PlanCollector::new(self.alloc);
        let taken = own_listing(&mut self.connection, operator.as_str(), &mut collector);
        plans_if_read(taken, collector, self.reported)
    }

    /// Reads slabs that have, at each point of `extents`, the greatest priority of the live plans there that
    /// `wanted` selects. Outside `extents` the slabs mean nothing. The index `known.live` finds the plans
    /// with a volume near `extents`: if reading them costs few rows (`max_rows_beside`), only their rows are
    /// read; else all rows near the one slab around all `extents`.
    ///
    /// # Errors
    ///
    /// `OutOfMemory` if memory runs out. `Store` if SQLite fails for another cause, or if a row isn't that of
    /// a slab.
    #[tactic(auto, using(table_load::proofs::lemmas::Frame::reads_itself))]
    pub(crate) fn rivals_near(
        &mut self,
        wanted: &Wanted,
        extents: &[Slab],
        known: &MemoryIndex,
    ) -> Result<Vec<Held>, StoreFault>
        requires { Knows known.now self.old.world }
        ensures { ReadsSpans S.Store self.old self.new result (λ helds.
            AreWantedNear self.old.world wanted.now extents.now helds.items) }
    {
        let Some((first, others)) = extents.split_first() else {
            return Ok(Vec::new(self.allocator()));
        };
        let whole = enclosing_slab(first, others);
        let queries = known.span_bounds.queries(self.allocator(), &whole)?;
        let max_rows = max_rows_beside(&queries);
        if let Some(keys) = known
            .live
            .wanted_plans(self.allocator(), wanted, extents, max_rows)?
        {
            return self.held_by_plans(&keys, wanted.least, &whole);
        }
        self.wanted_in_tables(wanted, &whole, &known.span_bounds)
    }
}

// The plan whose row of `plan` is `head`, and whose rows of `volume2` are `rows`, in which a volume begins at
// column 3 (`lower`). `Store` if they aren't those of a valid plan; `OutOfMemory` if memory runs out. The
// contract doesn't say that all other rows are refused: it says that those of a plan give this plan.
fn plan_of_rows(alloc: Global, head: &Row, rows: &[Row]) -> Result<PlanRow, StoreFault>
    ensures value { IfOk result (λ plan. (p : Plan) → IsId p.id → IsHead head.now p
        → AllByRecursion IsValidVolume p.area → AllZip (λ row v. IsVolumeAt row 3 v) rows.now p.area
        → plan ≡ p) }
    ensures refused { IfErr result (λ e. e ≡ StoreFault.Store → (p : Plan) → IsPlan p
        → p.priority < 2 ^ 32 → IsHead head.now p
        → ¬ AllZip (λ row v. IsVolumeAt row 3 v) rows.now p.area) }
{
    let area = area_in(alloc, rows, 3)?;
    plan_in(head, area)
}

// The plans that `collector` has, if the query passed all rows to it: `taken` is what the query returned. If
// it failed, the fault for its error, with an I/O error as `reported`. `Store` also if the last plan has no
// volumes, or more than 32.
fn plans_if_read(
    taken: Result<(), Error>,
    collector: PlanCollector,
    reported: StoreFault,
) -> Result<Vec<PlanRow>, StoreFault>
    ensures whole { OnOk result (IsOk taken) }
    ensures value { IfOk result (λ plans. (ps : List Filed)
        → AllByRecursion (λ p. IsPlan p.row) ps
        → HasCollected collector.plans.items collector.head collector.volumes.items (listing_rows ps)
        → plans.items ≡ map (λ p. p.row) ps) }
    ensures refused { IfErr result (λ e. e ≡ StoreFault.Store →
        IfErr taken (λ error. error ≢ Error.SqliteFailure ErrorCode.OutOfMemory)
        × OnOk taken (HasNoArea collector.head collector.volumes.items)) }
{
    match taken {
        Ok(()) => collector.finish(),
        Err(e) => Err(fault_reported(e, reported)),
    }
}

/// The slabs that `rivals` has, if the query passed all rows to it: `queried` is what the query returned. If
/// it failed, the fault for its error, with an I/O error as `reported`.
pub(crate) fn slabs_if_read(
    queried: Result<(), Error>,
    rivals: SpanCollector,
    reported: StoreFault,
) -> Result<Vec<Held>, StoreFault>
    ensures whole { OnOk result (IsOk queried) }
    ensures value { IfOk result (λ helds. helds.items ≡ rivals.helds.items) }
    ensures refused { IfErr result (λ e. e ≡ StoreFault.Store →
        IsErrAnd queried (λ error. error ≢ Error.SqliteFailure ErrorCode.OutOfMemory)) }
{
    match queried {
        Ok(()) => Ok(rivals.finish()),
        Err(e) => Err(fault_reported(e, reported)),
    }
}
