//! Plans with their volumes, read one row at a time from a join of `plan` and `volume2`. A row has the
//! columns `operator`, `id`, `priority`, `usage`, `aircraft`, `place`, `lower`, `upper`, `start`, `stop`,
//! `asked`, counted from 0. `place` is the number of the volume in its plan, counted from 0, and `asked` its
//! footprint.

ghost use Rattle.std.specs.Prelude.{◌≡◌, ◌↔◌, ◌⊎◌, [], ◌∷◌, List, IfErr, IfOk, IsSomeAnd, OnOk, map};
ghost use Rattle.std.specs.List.{AllByRecursion};
ghost use Rattle.sqlite_value.specs.Order.{Row as Values};
ghost use Rattle.desk_rules.specs.declared.plan.PlanRow.{PlanRow as Plan};
ghost use Rattle.desk_store.specs.World.{Filed, IsId, IsPlan};
ghost use Rattle.row_codec.specs.RowsRead as spec;
ghost use Rattle.row_codec.specs.RowsRead.{IsHead, listing_rows, Leads, HasCollected, HasNoArea, IsNoHead, IsRefusedRow, closed_plans, plan_with};

use crate::values::{PlanHead, head_in, volume_in};
use desk_rules::plan::PlanRow;
use desk_sql::RowVisitor;
use desk_store::StoreFault;
use sqlite::{Error, ErrorCode, Row};
use sqlite_value::value::ValueRef;
use std::alloc::Global;
use std::mem;
use volume4d::{Area, Volume};

/// A visitor of the rows of plans with their volumes that collects the plans. The rows of a plan follow each
/// other, one for each volume, ordered by place. A plan is finished when the next one begins or no row is
/// left: all its rows have been read. Contracts call finished plans *closed_plans*, whatever their usage.
#[derive(Drop)]
pub struct PlanCollector {
    alloc: Global,
    plans: Vec<PlanRow>,
    // the plan of the last row, whose volumes so far are `volumes`; None before the first row
    head: Option<PlanHead>,
    volumes: Vec<Volume>,
}

impl PlanCollector {
    /// A collector before the first row.
    pub fn new(alloc: Global) -> PlanCollector
        ensures { HasCollected result.plans.items result.head result.volumes.items [] }
    {
        PlanCollector {
            alloc,
            plans: Vec::new(alloc),
            head: None,
            volumes: Vec::new(alloc),
        }
    }

    // Adds the plan of the last row, if there was a row, to `plans`: its volumes are complete. No volumes are
    // left in `volumes`, also after an error. `Store` if the plan has none, or more than 32; `OutOfMemory` if
    // memory runs out.
    fn finish_plan(&mut self) -> Result<(), StoreFault>
        ensures plans { OnOk result (self.new.plans.items
            ≡ closed_plans self.old.plans.items self.old.head self.old.volumes.items) }
        ensures volumes { self.new.volumes.items ≡ [] }
        ensures refused { IfErr result (λ e. e ≡ StoreFault.Store →
            HasNoArea self.old.head self.old.volumes.items) }
    {
        let volumes = mem::replace(&mut self.volumes, Vec::new(self.alloc));
        let Some(head) = self.head.take() else {
            return Ok(());
        };
        let area = Area::try_new(volumes).ok_or(StoreFault::Store)?;
        Ok(self.plans.push(head.with(area))?)
    }

    // Finishes the plan of the row before, if there was one: *closed_plans* are the finished plans, not those
    // of the usage Closed. Then begins to collect the plan whose first row is `row`: for every plan whose
    // columns these are, `head` with that plan's area is that plan. `volumes` is empty, since the volume in
    // `row` isn't added yet. `Store` as by `finish_plan`, or if `row` isn't that of a plan; `OutOfMemory` if
    // memory runs out.
    fn begin_plan(&mut self, row: &Row) -> Result<(), StoreFault>
        ensures plans { OnOk result (self.new.plans.items
            ≡ closed_plans self.old.plans.items self.old.head self.old.volumes.items) }
        ensures head { OnOk result (IsSomeAnd self.new.head (λ head.
            (p : Plan) → IsId p.id → IsHead row.now p → plan_with head p.area ≡ p)) }
        ensures volumes { OnOk result (self.new.volumes.items ≡ []) }
        ensures refused { IfErr result (λ e. e ≡ StoreFault.Store →
            HasNoArea self.old.head self.old.volumes.items ⊎ IsNoHead row.now) }
    {
        self.finish_plan()?;
        self.head = Some(head_in(row)?);
        Ok(())
    }

    // Adds the volume in `row`, from column 6 (`lower`) on, to its plan. A row whose place isn't above 0
    // begins a plan. If the rows before, `row` and some more are those of a list of plans, what is collected
    // leads to these plans (*Leads*). `Store` if the row has no valid volume, if it continues a plan but none
    // was begun, or as by `begin_plan`; `OutOfMemory` if memory runs out.
    fn add(&mut self, row: &Row) -> Result<(), StoreFault>
        ensures leads { OnOk result ((ps : List Filed) (left : List Values)
            → AllByRecursion (λ p. IsPlan p.row) ps
            → Leads self.old.plans.items self.old.head self.old.volumes.items (row.now ∷ left) ps
            → Leads self.new.plans.items self.new.head self.new.volumes.items left ps) }
        ensures refused { IfErr result (λ e. e ≡ StoreFault.Store →
            IsRefusedRow self.old.head self.old.volumes.items row.now) }
    {
        if !is_later(row) {
            self.begin_plan(row)?;
        } else if self.head.is_none() {
            return Err(StoreFault::Store);
        }
        self.volumes.push(volume_in(self.alloc, row, 6)?)?;
        Ok(())
    }

    /// The plans of all rows, in the same order, once the last row was passed. The contract says so if the
    /// rows were those of some list of valid plans.
    ///
    /// # Errors
    ///
    /// `OutOfMemory` if memory runs out. `Store` if the last plan has no volumes, or more than 32.
    pub fn finish(mut self) -> Result<Vec<PlanRow>, StoreFault>
        ensures value { IfOk result (λ plans. (ps : List Filed)
            → AllByRecursion (λ p. IsPlan p.row) ps
            → HasCollected self.plans.items self.head self.volumes.items (listing_rows ps)
            → plans.items ≡ map (λ p. p.row) ps) }
        ensures refused { IfErr result (λ e. e ≡ StoreFault.Store →
            HasNoArea self.head self.volumes.items) }
    {
        self.finish_plan()?;
        Ok(self.plans)
    }
}

impl RowVisitor for PlanCollector {
    ghost use Rattle.std.specs.Prelude.{◌≡◌, ◌⊎◌, ⊤};
    ghost use Rattle.sqlite.specs.declared.error.{Error.TheVariants.SqliteFailure, ErrorCode.TheVariants.OutOfMemory};
    ghost use Rattle.row_codec.specs.RowsRead.{HasCollected, BeginNoListing};

    ghost has_taken = { λ g rows. HasCollected g.plans.items g.head g.volumes.items rows };

    ghost keeps = { λ _ _. ⊤ };

    ghost refuses = { λ taken row e. (e ≡ SqliteFailure OutOfMemory) ⊎ BeginNoListing taken row };

    // Adds the row to its plan. It fails with `OutOfMemory` if memory runs out, and with `DatabaseCorrupt` if
    // no list of plans has such a row after those before.
    fn take(&mut self, row: &Row) -> Result<(), Error> {
        match self.add(row) {
            Ok(()) => Ok(()),
            Err(e) => Err(error_of(e)),
        }
    }
}

/// The error that a visitor returns for `fault`: `OutOfMemory` if memory ran out, else `DatabaseCorrupt`,
/// which the reader that gets it reports as `Store` again.
pub(crate) fn error_of(fault: StoreFault) -> Error
    ensures { (result ≡ Error.SqliteFailure ErrorCode.OutOfMemory) ↔ (fault ≡ StoreFault.OutOfMemory) }
{
    match fault {
        StoreFault::OutOfMemory => Error::SqliteFailure(ErrorCode::OutOfMemory),
        StoreFault::Store => Error::SqliteFailure(ErrorCode::DatabaseCorrupt),
    }
}

// Whether `row` is of a later volume than its plan's first: its `place` (column 5) is an integer above 0.
fn is_later(row: &Row) -> bool
    ensures { result ≡ spec.is_later row.now }
{
    matches!(row.get_ref(5), Ok(ValueRef::Int(place)) if place > 0)
}
