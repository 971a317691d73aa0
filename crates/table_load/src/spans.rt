//! The rows of a table of spans, `span2` or `span` of schema 1, read one at a time in the order of their key,
//! and compared with the plans. A row stands for a slab: one range of leaves (S2 cells of level 30, by their
//! positions along the curve) of one volume of a plan, with the volume's altitudes and times. A volume's
//! place is its number in its plan, counted from 0. A live plan is one that isn't closed; a closed one has no
//! rows. `AllocError` means that memory ran out.

ghost use Rattle.std.specs.Prelude.{◌≡◌, ◌≢◌, ◌↔◌, ◌<◌, ◌+◌, ◌-◌, ◌^◌, true, false, IsTrue, IfOk, IfErr, OnOk, List, [], ◌∷◌, ◌++◌, drop};
ghost use Rattle.sqlite_value.specs.Order.{Row as Columns};
ghost use Rattle.desk_rules.specs.Outcome as plan_spec;
ghost use Rattle.desk_store.specs.World.{Filed};
ghost use Rattle.sqlite.specs.State.{HasCleanDisk};
ghost use Rattle.sqlite.specs.Held.{state};
ghost use Rattle.desk_sql.specs.Rows.{Lists, tables_at};
ghost use Rattle.desk_sql.specs.Queries.{key_cells, rows_read, table_read};
ghost use Rattle.desk_sql.specs.Effects.{StaysOpen, OnlyReads};
ghost use Rattle.table_load.specs.Opening.{BlamesReading};
ghost use Rattle.row_codec.specs.Tables.{AreSpanRows};
ghost use Rattle.table_load.specs.SpanChecks.{
  AreAwaited,
  AwaitsAlike,
  IsEntered,
  IsFound,
  IsNextRow,
  IsSlabFound,
  after_plan,
};
ghost use Rattle.table_load.specs.OpeningSteps.{WereCompared, ShowsPart};

use crate::fault::OpenFault;
use crate::finding::with_span_row;
use crate::looking::is_live;
use desk_sql::{RowVisitor, TablesPresent, WholeTable, each_row};
use row_codec::exact::{FiledPlan, is_slab_row};
use row_codec::span_bounds::SpanBounds;
use s2_cover::laws::one_list_of_ranges;
use sqlite::{Connection, Error, ErrorCode, Row};
use sqlite_trees::store::Alter;
use std::alloc::{AllocError, Global};
use std::marker::Model;
use volume4d::Slab;

// From how many rows on they aren't counted: no valid database has so many.
const TOO_MANY: usize = (1 << 63) - 1;

/// The place of the next expected row of spans: which slab of which volume of which plan it stands for.
#[derive(Drop)]
pub struct Cursor {
    // the index of the current plan among the plans, and the place of the next of its volumes
    plan: usize,
    place: usize,
    // the slabs of the current volume, its place, and the index of the next slab
    slabs: Vec<Slab>,
    shown: usize,
    next: usize,
}

impl Model for Cursor {
    ghost use Rattle.table_load.specs.SpanChecks.{Place};

    ghost Value = { Place };

    ghost view = { λ c. record {
      plan = c.plan;
      place = c.place;
      slabs = c.slabs.items;
      shown = c.shown;
      next = c.next;
    } };
}

impl Cursor {
    // A cursor before the first row.
    fn new(alloc: Global) -> Cursor
        ensures { result ≡ record { plan = 0; place = 0; slabs = []; shown = 0; next = 0 } }
    {
        Cursor {
            plan: 0,
            place: 0,
            slabs: Vec::new(alloc),
            shown: 0,
            next: 0,
        }
    }

    // Moves to the next slab of `plan`, which is the current plan and live: that of the current volume, or
    // else of a later volume. False if none is left. A slab that `take_if_next` didn't take is still the
    // next.
    fn find_slab_in(&mut self, plan: &FiledPlan) -> Result<bool, AllocError>
        requires live { plan_spec.is_live plan.now.row.usage ≡ true }
        ensures same { OnOk result ((later : List Filed) (rows : List Columns)
            → AreAwaited (plan.now ∷ later) (drop self.old.next self.old.slabs) self.old.shown
            self.old.place rows
            ↔ AreAwaited (plan.now ∷ later) (drop self.new.next self.new.slabs) self.new.shown
            self.new.place rows) }
        ensures found { IfOk result (IsSlabFound plan.now self.new) }
        ensures plan { self.new.plan ≡ self.old.plan }
    {
        // A law, which changes nothing: a set of leaves has only one list of ranges.
        one_list_of_ranges();
        while self.next >= self.slabs.len() {
            let Some(volume) = plan.row.area.volumes().get(self.place) else {
                return Ok(false);
            };
            self.slabs = volume.slabs()?;
            self.next = 0;
            self.shown = self.place;
            self.place += 1;
        }
        Ok(true)
    }

    // Moves to the first volume of the next plan.
    fn skip_plan(&mut self)
        requires { self.old.plan < 2 ^ 64 - 1 }
        ensures { self.new ≡ after_plan self.old }
    {
        self.plan += 1;
        self.place = 0;
        self.slabs.clear();
        self.next = 0;
    }

    // Moves to the next slab of the current plan `plan`. If none is left, as in a closed plan, moves to the
    // next plan and returns false.
    fn find_slab_or_skip(&mut self, plan: &FiledPlan) -> Result<bool, AllocError>
        requires { self.old.plan < 2 ^ 64 - 1 }
        ensures same { OnOk result ((plans : List Filed)
            → drop self.old.plan plans ≡ plan.now ∷ drop (self.old.plan + 1) plans
            → AwaitsAlike plans self.old self.new) }
        ensures found { IfOk result (IsEntered plan.now self.old self.new) }
    {
        if !is_live(plan) {
            self.skip_plan();
            return Ok(false);
        }
        if self.find_slab_in(plan)? {
            return Ok(true);
        }
        self.skip_plan();
        Ok(false)
    }

    // Moves to the next slab of the current plan or of a later one; false if none is left.
    fn find_slab(&mut self, plans: &[FiledPlan]) -> Result<bool, AllocError>
        ensures same { OnOk result (AwaitsAlike plans.now self.old self.new) }
        ensures found { IfOk result (IsFound plans.now self.new) }
    {
        while let Some(plan) = plans.get(self.plan) {
            if self.find_slab_or_skip(plan)? {
                return Ok(true);
            }
        }
        Ok(false)
    }

    // Whether `row` is the next expected row: that of the next slab. If it is, moves past this slab. False
    // also if no row is expected any more. The contract says nothing of the cursor after false.
    fn take_if_next(&mut self, plans: &[FiledPlan], row: &Row) -> Result<bool, AllocError>
        ensures { IfOk result (IsNextRow plans.now self.old self.new row.now) }
    {
        if !self.find_slab(plans)? {
            return Ok(false);
        }
        // The plan and the slab are there, since `find_slab` returned true.
        let Some(plan) = plans.get(self.plan) else {
            return Ok(false);
        };
        let Some(slab) = self.slabs.get(self.next) else {
            return Ok(false);
        };
        let mut buffer = [0u8; 36];
        let id = plan.row.id.encode(&mut buffer);
        if !is_slab_row(plan, id, self.shown, slab, row) {
            return Ok(false);
        }
        self.next += 1;
        Ok(true)
    }
}

/// A visitor of the rows of spans, which compares them with `plans` and keeps none.
#[derive(Drop)]
pub struct SpanCheck {
    pub plans: Vec<FiledPlan>,
    cursor: Cursor,
    // whether the rows so far are the first rows of the plans
    agree: bool,
    // how many rows there were, and bounds that hold for their spans
    pub count: usize,
    pub span_bounds: SpanBounds,
}

impl SpanCheck {
    /// A check that will compare rows with `plans`, before the first row.
    pub fn new(alloc: Global, plans: Vec<FiledPlan>) -> SpanCheck
        ensures plans { result.plans.items ≡ plans.items }
        ensures fresh { WereCompared result [] }
    {
        SpanCheck {
            plans,
            cursor: Cursor::new(alloc),
            agree: true,
            count: 0,
            span_bounds: SpanBounds::new(),
        }
    }

    // Counts `row`, makes the span bounds hold for its span, and compares it with the next expected row
    // unless an earlier row already differed. `AllocError` also if there are 2^63 rows.
    fn add(&mut self, row: &Row) -> Result<(), AllocError>
        ensures taken { OnOk result ((rows : List Columns) → WereCompared self.old rows
            → WereCompared self.new (rows ++ row.now ∷ [])) }
        ensures plans { self.new.plans.items ≡ self.old.plans.items }
    {
        if self.count >= TOO_MANY {
            return Err(AllocError);
        }
        self.count += 1;
        self.span_bounds = with_span_row(&self.span_bounds, row);
        if self.agree {
            self.agree = self.cursor.take_if_next(&self.plans, row)?;
        }
        Ok(())
    }

    /// Whether the rows so far are exactly all rows that the plans have, none missing.
    ///
    /// # Errors
    ///
    /// `AllocError` if memory runs out.
    pub(crate) fn agrees(&mut self) -> Result<bool, AllocError>
        ensures agree { IfOk result (λ agree. (rows : List Columns) → WereCompared self.old rows
            → IsTrue agree ↔ AreSpanRows self.old.plans.items rows) }
        ensures plans { self.new.plans.items ≡ self.old.plans.items }
        ensures count { self.new.count ≡ self.old.count }
        ensures span_bounds { self.new.span_bounds ≡ self.old.span_bounds }
    {
        if !self.agree {
            return Ok(false);
        }
        Ok(!self.cursor.find_slab(&self.plans)?)
    }
}

impl RowVisitor for SpanCheck {
    ghost use Rattle.std.specs.Prelude.{◌≡◌};
    ghost use Rattle.sqlite.specs.declared.error.{Error.TheVariants.SqliteFailure, ErrorCode.TheVariants.OutOfMemory};
    ghost use Rattle.table_load.specs.OpeningSteps.{WereCompared};

    ghost has_taken = { WereCompared };

    ghost keeps = { λ first now. now.plans.items ≡ first.plans.items };

    ghost refuses = { λ taken row e. e ≡ SqliteFailure OutOfMemory };

    // Counts and compares the row. It fails with `OutOfMemory` alone.
    fn take(&mut self, row: &Row) -> Result<(), Error> {
        self.add(row)?;
        Ok(())
    }
}

/// Passes all rows of the table of spans `table` to `check`, ordered by key. `made` says which tables the
/// database has; if `table` isn't one of them, there are no rows.
///
/// # Errors
///
/// `OutOfMemory` if memory runs out, or if there are 2^63 rows. `Store` if SQLite fails for another cause.
// Long: the value, and what holds whatever bytes the disk returned.
pub(crate) fn take_spans<S: Alter>(
    connection: &mut Connection<S>,
    table: WholeTable,
    made: TablesPresent,
    check: &mut SpanCheck,
) -> Result<(), OpenFault>
    requires part { ShowsPart S.Store connection.old made }
    requires fresh { WereCompared check.old [] }
    ensures value { HasCleanDisk (state S.Store connection.new) → OnOk result ((rows : List Columns)
        × Lists (key_cells (table_read table))
        (rows_read table (tables_at made (state S.Store connection.old).now.trees)) rows
        × WereCompared check.new rows) }
    ensures taken { OnOk result ((rows : List Columns) × WereCompared check.new rows) }
    ensures plans { OnOk result (check.new.plans.items ≡ check.old.plans.items) }
    ensures live { OnOk result (StaysOpen S.Store connection.old connection.new) }
    ensures fault { IfErr result (λ e. (e ≢ OpenFault.NotADesk) × (e ≢ OpenFault.OldSchema)) }
    ensures cause { IfErr result (BlamesReading S.Store connection.old connection.new) }
    ensures reads { OnlyReads S.Store connection.old connection.new }
{
    match each_row(connection, table, made, check) {
        Ok(()) => Ok(()),
        Err(e) => Err(fault_of(e)),
    }
}

/// The fault for an error of a query that is read row by row: `OutOfMemory` for SQLite's errors `OutOfMemory`
/// and `TooBig`, else `Store`. The contract says less: these two errors don't become `Store`, and no error
/// becomes `NotADesk` or `OldSchema`. (`TooBig` also comes if there are too many rows to count.)
pub(crate) fn fault_of(error: Error) -> OpenFault
    ensures store { result ≡ OpenFault.Store → (error ≢ Error.SqliteFailure ErrorCode.OutOfMemory)
        × (error ≢ Error.SqliteFailure ErrorCode.TooBig) }
    ensures other { (result ≢ OpenFault.NotADesk) × (result ≢ OpenFault.OldSchema) }
{
    match error {
        Error::SqliteFailure(ErrorCode::OutOfMemory | ErrorCode::TooBig) => OpenFault::OutOfMemory,
        _ => OpenFault::Store,
    }
}
