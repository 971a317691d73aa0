//! Changes of a store's tables. Columns of rows are counted from 0. A parameter `next` is the state of the
//! database after a change, which only contracts read. The disk is intact if it returned what was written.

ghost use Rattle.std.specs.Prelude.{◌≡◌, ◌<◌, ◌^◌, pos, IfOk, IfErr};
ghost use Rattle.sqlite_value.specs.declared.value.Value.TheVariants.{Int};
ghost use Rattle.sqlite_value.specs.Order.{column};
ghost use Rattle.sqlite.specs.{State.HasCleanDisk, Held.state};
ghost use Rattle.desk_store.specs.Changes.{filed_by, IsFitting, changed_by};
ghost use Rattle.desk_store.specs.declared.change.Change.TheVariants as change;
ghost use Rattle.desk_sql.specs.Changing.{AreLow, HasRowids};
ghost use Rattle.desk_rules.specs.declared.plan.PlanRow.{PlanRow as Plan};
ghost use Rattle.row_codec.specs.{RowsRead.IsHead, SpanBounds.IsKnownPlan, SpanBounds.BringsKnown, SpanBounds.Keeps};
ghost use Rattle.desk_tables.specs.Store.{BlamesChange, BlamesStore, HasRoomForPlan, HasFollowed, IsMade, IsNext};

use crate::tables::DeskTables;
use desk_changes::{PlanRecord, clear_plans, close_plan, put_operator, put_plan};
use desk_rules::operator::Operator;
use desk_rules::plan::PlanRow;
use desk_rules::plan_id::PlanId;
use desk_store::{Change, StoreFault};
use row_codec::canon::canons_of;
use row_codec::kept::GhostState;
use row_codec::records::{
    aircraft_number, asked_of, bounds_with_rows, span_rows, texts_of, usage_number, volume_rows,
};
use row_codec::span_bounds::SpanBounds;
use row_codec::values::{count_at, fault_reported};
use s2_cover::laws::one_list_of_ranges;
use sqlite::{Error, Row};
use sqlite_trees::store::Alter;
use volume4d::laws::covers_are_few;

impl<S: Alter> DeskTables<S> {
    /// Applies `change` in one transaction; it has to fit the state, if the disk is intact. `span_bounds`
    /// hold for the spans of the live plans before the change; the returned ones also for those that it adds.
    ///
    /// # Errors
    ///
    /// `OutOfMemory` if memory runs out. `Store` if SQLite fails for another cause, or if a plan to be closed
    /// has no row or an invalid one. The state stays then, but a crash may leave the changed one. If the disk
    /// is intact, the connection open and rowids are left, `Store` means that the disk failed.
    pub(crate) fn make(
        &mut self,
        span_bounds: &SpanBounds,
        change: &Change,
    ) -> Result<SpanBounds, StoreFault>
        requires { HasCleanDisk (state S.Store self.old.held) → IsFitting change.now self.old.world }
        ensures made { IsMade S.Store self.old self.new result change.now }
        ensures known { IfOk result (λ after. Keeps span_bounds.now after × BringsKnown after change.now) }
        ensures cause { IfErr result (BlamesChange S.Store self.old.held self.new.held change.now) }
    {
        let before = *span_bounds;
        let next = self.state_after(change);
        match change {
            Change::Enrol { operator, ceiling } => self.enrol(operator, *ceiling, next)?,
            Change::Put { operator, row } => return self.put(span_bounds, operator, row, next),
            Change::Close { operator, id } => self.close(operator, id, next)?,
            Change::Clear { operator, ids } => self.clear(operator, ids, next)?,
        }
        Ok(before)
    }

    // The state after `change`, for contracts alone.
    fn state_after(&self, change: &Change) -> GhostState
        ensures { result.world ≡ changed_by change.now self.now.world }
    {
        GhostState::after(&self.kept, change)
    }

    // Adds `operator` with `ceiling`, or replaces its ceiling if it is there. It fails as `make` does. Clause
    // `cause` needs a rowid that is left.
    fn enrol(
        &mut self,
        operator: &Operator,
        ceiling: u32,
        next: GhostState,
    ) -> Result<(), StoreFault>
        requires { IsNext S.Store self.old next.world (change.Enrol operator.now ceiling) }
        ensures made { IsMade S.Store self.old self.new result (change.Enrol operator.now ceiling) }
        ensures cause { HasRowids 1 ((state S.Store self.old.held).now.trees 0)
            → IfErr result (BlamesStore S.Store self.old.held self.new.held) }
    {
        let committed = put_operator(&mut self.connection, operator.as_str(), ceiling);
        advance_if_committed(&mut self.kept, committed, next, (), self.reported)
    }

    // Stores the plan `row` with its volumes and, if it is live, their spans, in place of the operator's plan
    // of the same id, if there is one. Returns span bounds that hold for the spans for which `span_bounds`
    // hold, and for those of `row`. It fails as `make` does. Clause `cause` needs rowids that are left.
    fn put(
        &mut self,
        span_bounds: &SpanBounds,
        operator: &Operator,
        row: &PlanRow,
        next: GhostState,
    ) -> Result<SpanBounds, StoreFault>
        requires { IsNext S.Store self.old next.world (change.Put operator.now row.now) }
        ensures made { IsMade S.Store self.old self.new result (change.Put operator.now row.now) }
        ensures known { IfOk result (λ after. Keeps span_bounds.now after × IsKnownPlan after row.now) }
        ensures cause { HasRoomForPlan (filed_by operator.now row.now) (state S.Store self.old.held).now
            → IfErr result (BlamesStore S.Store self.old.held self.new.held) }
    {
        let mut buffer = [0u8; 36];
        let id = row.id.encode(&mut buffer);
        let asked = asked_of(self.alloc, row.area.volumes())?;
        let canon = canons_of(self.alloc, row.area.volumes())?;
        let volumes = volume_rows(self.alloc, operator.as_str(), id, row, &asked, &canon)?;
        let spans = span_rows(self.alloc, operator.as_str(), id, row)?;
        let head = PlanRecord {
            operator: operator.as_str(),
            id,
            priority: row.priority,
            usage: usage_number(row.usage),
            aircraft: aircraft_number(row.aircraft),
        };
        // Laws, which change nothing: a set of leaves has only one list of ranges; a cover has at most 1,024
        // cells.
        one_list_of_ranges();
        covers_are_few();
        let committed = put_plan(&mut self.connection, head, &volumes, &spans);
        let after = bounds_with_rows(span_bounds, &spans);
        advance_if_committed(&mut self.kept, committed, next, after, self.reported)
    }

    // Closes the operator's plan `id`: its usage becomes Closed, its spans are removed, all else stays. Its
    // row is written whole, so its priority and aircraft state are read first. It fails as `make` does.
    fn close(
        &mut self,
        operator: &Operator,
        id: &PlanId,
        next: GhostState,
    ) -> Result<(), StoreFault>
        requires { IsNext S.Store self.old next.world (change.Close operator.now id.now) }
        ensures made { IsMade S.Store self.old self.new result (change.Close operator.now id.now) }
        ensures cause { AreLow ((state S.Store self.old.held).now.trees 2)
            → IfErr result (BlamesStore S.Store self.old.held self.new.held) }
    {
        let head_rows = self.head_rows(operator, id)?;
        let Some(head) = head_rows.first() else {
            return Err(StoreFault::Store);
        };
        let (priority, aircraft) = numbers_in(head)?;
        let mut buffer = [0u8; 36];
        let text = id.encode(&mut buffer);
        let committed = close_plan(
            &mut self.connection,
            operator.as_str(),
            text,
            priority,
            aircraft,
        );
        advance_if_committed(&mut self.kept, committed, next, (), self.reported)
    }

    // Removes the operator's plans `ids` with all their rows. It fails as `make` does.
    fn clear(
        &mut self,
        operator: &Operator,
        ids: &Vec<PlanId>,
        next: GhostState,
    ) -> Result<(), StoreFault>
        requires { IsNext S.Store self.old next.world (change.Clear operator.now ids.now) }
        ensures made { IsMade S.Store self.old self.new result (change.Clear operator.now ids.now) }
        ensures cause { IfErr result (BlamesStore S.Store self.old.held self.new.held) }
    {
        let texts = texts_of(self.alloc, ids)?;
        let committed = clear_plans(&mut self.connection, operator.as_str(), &texts);
        advance_if_committed(&mut self.kept, committed, next, (), self.reported)
    }
}

// The priority (column 2) and the number for the state of the aircraft (column 4) in `head`, a row of `plan`.
// `Store` if one isn't an unsigned number of 32 bits; the contract: then `head` is no plan's row.
fn numbers_in(head: &Row) -> Result<(u32, u32), StoreFault>
    ensures priority { IfOk result (λ found. column head.now 2 ≡ Int (pos found.0)) }
    ensures aircraft { IfOk result (λ found. column head.now 4 ≡ Int (pos found.1)) }
    ensures refused { IfErr result (λ e. e ≡ StoreFault.Store → (p : Plan) → p.priority < 2 ^ 32
        → ¬ IsHead head.now p) }
{
    let priority = count_at(head, 2)?;
    let aircraft = count_at(head, 4)?;
    Ok((priority, aircraft))
}

// If SQLite committed a change, as `committed` says, `kept` becomes `next`, and `answer` is returned. Else
// `kept` stays, and the fault for SQLite's error is returned, with an I/O error as `reported`; in the
// contract: not `Store` if memory ran out.
fn advance_if_committed<T: Copy>(
    kept: &mut GhostState,
    committed: Result<(), Error>,
    next: GhostState,
    answer: T,
    reported: StoreFault,
) -> Result<T, StoreFault>
    ensures { HasFollowed committed answer result kept.old.world kept.new.world next.world }
{
    match committed {
        Ok(()) => {
            *kept = next;
            Ok(answer)
        }
        Err(e) => Err(fault_reported(e, reported)),
    }
}
