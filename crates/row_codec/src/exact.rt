//! Operators and plans read from rows that have to be exactly those that the desk writes. Columns are counted
//! from 0.

ghost use Rattle.std.specs.Prelude.{◌≡◌, ◌≢◌, ◌≤◌, ◌↔◌, ℕ, List, pos, IsTrue, IfOk, IfErr, MatchOption};
ghost use Rattle.std.specs.List.{AllZip};
ghost use Rattle.sqlite_value.specs.declared.value.Value.TheVariants.{Int, Text};
ghost use Rattle.sqlite_value.specs.Order.{column};
ghost use Rattle.volume4d.specs.{Slab.slab_window, Volume.Block};
ghost use Rattle.desk_rules.specs.Limits.{is_operator_name};
ghost use Rattle.desk_store.specs.World.{Filed, Listed};
ghost use Rattle.row_codec.specs.Tables.{id_text, row_of_operator, row_of_volume, area_rows, IsOperator, IsFiled, AreRowsOf, AreNumbersOf, IsKeyed, IsWindowAt, slab_row};
ghost use Rattle.row_codec.specs.RowsRead.{IsVolumeAt};

use crate::values::{area_in, count_at, plan_in};
use desk_rules::decide::MAX_PRIORITY;
use desk_rules::operator::Operator;
use desk_rules::plan::PlanRow;
use desk_store::StoreFault;
use operator_index::ListedOperator;
use sqlite::Row;
use sqlite_value::value::ValueRef;
use std::alloc::Global;
use std::marker::Model;
use volume4d::Slab;

// How many columns a row of each table has; a row of `volume2` is without its cover.
const OPERATOR_WIDTH: usize = 2;

pub const PLAN_WIDTH: usize = 5;

const VOLUME_WIDTH: usize = 8;

const SPAN_WIDTH: usize = 10;

/// Why rows are not read.
#[derive(Clone, Copy, Debug, PartialEq, Eq)]
pub enum RowFault {
    /// Memory ran out.
    OutOfMemory,
    /// They aren't the rows of a valid database.
    InvalidRows,
}

impl From<StoreFault> for RowFault {
    ghost use Rattle.std.specs.Prelude.{◌≡◌};
    ghost use Rattle.row_codec.specs.Tables.{row_fault_of};

    ghost from_gives = { λ fault e. e ≡ row_fault_of fault };

    // A read failed because memory ran out, or because a row isn't one that a store writes.
    fn from(fault: StoreFault) -> RowFault {
        match fault {
            StoreFault::OutOfMemory => RowFault::OutOfMemory,
            StoreFault::Store => RowFault::InvalidRows,
        }
    }
}

/// A plan with its operator.
#[derive(Debug, Drop)]
pub struct FiledPlan {
    pub operator: Operator,
    pub row: PlanRow,
}

impl Model for FiledPlan {
    ghost use Rattle.desk_store.specs.World.{Filed};

    ghost Value = { Filed };

    ghost view = { λ p. record { operator = p.operator; row = p.row } };
}

/// The operator, with its ceiling, whose row in the table `operator` is `row`.
///
/// # Errors
///
/// `OutOfMemory` if memory runs out. `InvalidRows` if `row` isn't the row of an operator within the limits.
pub(crate) fn listed_in(row: &Row) -> Result<ListedOperator, RowFault>
    ensures ok { IfOk result (λ l. IsOperator l × (row.now ≡ row_of_operator l)) }
    ensures refused { IfErr result (λ e. e ≡ RowFault.InvalidRows →
        (l : Listed) → IsOperator l → row.now ≢ row_of_operator l) }
{
    let operator = operator_in(row).ok_or(RowFault::InvalidRows)?;
    let ceiling = count_at(row, 1)?;
    if ceiling > MAX_PRIORITY || row.column_count() != OPERATOR_WIDTH {
        return Err(RowFault::InvalidRows);
    }
    Ok(ListedOperator { operator, ceiling })
}

/// The plan whose row in the table `plan` is `head`, and whose rows in `volume2`, or in `volume` of schema 1,
/// are `volumes`, ordered by place: a volume begins at column 3 (`lower`). The ranges of leaves of a closed
/// plan are dropped to save memory, since it has no spans.
///
/// # Errors
///
/// `OutOfMemory` if memory runs out. `InvalidRows` if they aren't the rows of a plan within the limits.
pub(crate) fn filed_in(alloc: Global, head: &Row, volumes: &[Row]) -> Result<FiledPlan, RowFault>
    ensures ok { IfOk result (λ p. IsFiled p × AreRowsOf p head.now volumes.now) }
    ensures refused { IfErr result (λ e. e ≡ RowFault.InvalidRows →
        (p : Filed) → IsFiled p → ¬ AreRowsOf p head.now volumes.now) }
{
    let Some(operator) = operator_in(head) else {
        return Err(RowFault::InvalidRows);
    };
    let area = area_in(alloc, volumes, 3)?;
    let row = plan_in(head, area)?;
    if row.priority > MAX_PRIORITY {
        return Err(RowFault::InvalidRows);
    }
    let mut plan = FiledPlan { operator, row };
    if !are_rows_of(&plan, head, volumes) {
        return Err(RowFault::InvalidRows);
    }
    if !plan.row.usage.is_live() {
        plan.row.area.drop_ranges();
    }
    Ok(plan)
}

/// The operator whose name is in column 0 of `row`; `None` if that isn't a text, or isn't a valid name.
pub fn operator_in(row: &Row) -> Option<Operator>
    ensures { MatchOption result
        ((name : List ℕ) → IsTrue (is_operator_name name) → column row.now 0 ≢ Text name)
        (λ name. IsTrue (is_operator_name name) × (column row.now 0 ≡ Text name)) }
{
    match row.get_ref(0) {
        Ok(ValueRef::Text(name)) => Operator::try_new(name),
        _ => None,
    }
}

// Whether `head` and `volumes`, from which `plan` was read, are exactly the rows of `plan`. Only their keys
// and their numbers of columns are compared: `plan` was read from all other columns.
fn are_rows_of(plan: &FiledPlan, head: &Row, volumes: &[Row]) -> bool
    requires numbers { AreNumbersOf head.now plan.now.row }
    requires area { AllZip (λ row v. IsVolumeAt row 3 v) volumes.now plan.now.row.area }
    ensures { IsTrue result ↔ AreRowsOf plan.now head.now volumes.now }
{
    let mut buffer = [0u8; 36];
    let id = plan.row.id.encode(&mut buffer);
    if !is_keyed(head, plan.operator.as_str(), id, PLAN_WIDTH) {
        return false;
    }
    are_volume_rows(plan, id, volumes)
}

// Whether `rows`, from which the volumes of `plan` were read, are exactly the rows of these, at the places 0,
// 1 and so on; `id` is the plan's id as text.
fn are_volume_rows(plan: &FiledPlan, id: &str, rows: &[Row]) -> bool
    requires id { id.now ≡ id_text plan.now.row.id }
    requires area { AllZip (λ row v. IsVolumeAt row 3 v) rows.now plan.now.row.area }
    ensures { IsTrue result ↔ (rows.now ≡ area_rows plan.now) }
{
    for (place, row) in rows.iter().enumerate() {
        if !is_volume_row(plan, id, place, row) {
            return false;
        }
    }
    true
}

// Whether `row`, from which a volume was read, is exactly the row of that volume at `place` of `plan`; `id`
// is the plan's id as text. Columns 0 to 2 and the number of columns are compared: the volume was read from
// the rest.
fn is_volume_row(plan: &FiledPlan, id: &str, place: usize, row: &Row) -> bool
    requires id { id.now ≡ id_text plan.now.row.id }
    ensures { (v : Block) → IsVolumeAt row.now 3 v →
        IsTrue result ↔ (row.now ≡ row_of_volume plan.now place v) }
{
    if !is_keyed(row, plan.operator.as_str(), id, VOLUME_WIDTH) {
        return false;
    }
    is_count_at(row, 2, place as u64)
}

/// Whether `row` is exactly the row that `span2`, or `span` of schema 1, has for `slab` as a slab of the
/// volume at `place` of `plan`; whether it is one isn't checked. `id` is the plan's id as text. Columns: 0
/// operator, 1 id, 2 place, 3 and 4 leaves, 5 to 8 altitudes and times, 9 priority.
pub fn is_slab_row(plan: &FiledPlan, id: &str, place: usize, slab: &Slab, row: &Row) -> bool
    requires id { id.now ≡ id_text plan.now.row.id }
    ensures { IsTrue result ↔ (row.now ≡ slab_row plan.now place slab.now) }
{
    if !is_keyed(row, plan.operator.as_str(), id, SPAN_WIDTH) {
        return false;
    }
    if !is_count_at(row, 2, place as u64) {
        return false;
    }
    if !has_leaves_of(row, slab) {
        return false;
    }
    if !is_window_at(row, 5, slab) {
        return false;
    }
    is_count_at(row, 9, u64::from(plan.row.priority))
}

// Whether `first` and `last` (columns 3 and 4) of a row of spans are the leaf positions of `slab`.
fn has_leaves_of(row: &Row, slab: &Slab) -> bool
    ensures { IsTrue result ↔ ((column row.now 3 ≡ Int (pos slab.now.first))
        × (column row.now 4 ≡ Int (pos slab.now.last))) }
{
    is_count_at(row, 3, slab.first) && is_count_at(row, 4, slab.last)
}

/// Whether `row` has `width` columns, of which the first two are the texts `operator` (a name) and `id`.
pub fn is_keyed(row: &Row, operator: &str, id: &str, width: usize) -> bool
    ensures { IsTrue result ↔ IsKeyed operator.now id.now width row.now }
{
    row.column_count() == width && is_text_at(row, 0, operator) && is_text_at(row, 1, id)
}

// Whether the columns `lower`, `upper`, `start`, `stop`, from `at` on, are the altitudes and times of `slab`.
fn is_window_at(row: &Row, at: usize, slab: &Slab) -> bool
    requires { at ≤ 5 }
    ensures { IsTrue result ↔ IsWindowAt row.now at (slab_window slab.now) }
{
    if !is_number_at(row, at, i64::from(slab.lower)) {
        return false;
    }
    if !is_number_at(row, at + 1, i64::from(slab.upper)) {
        return false;
    }
    if !is_number_at(row, at + 2, slab.start) {
        return false;
    }
    is_number_at(row, at + 3, slab.end)
}

// Whether the column `at` is the text `text`.
fn is_text_at(row: &Row, at: usize, text: &str) -> bool
    ensures { IsTrue result ↔ (column row.now at ≡ Text text.now) }
{
    matches!(row.get_ref(at), Ok(ValueRef::Text(bytes)) if bytes == text.as_bytes())
}

// Whether the column `at` is the signed integer `number`.
fn is_number_at(row: &Row, at: usize, number: i64) -> bool
    ensures { IsTrue result ↔ (column row.now at ≡ Int number) }
{
    matches!(row.get_ref(at), Ok(ValueRef::Int(n)) if n == number)
}

/// Whether the column `at` is the unsigned integer `count`.
pub(crate) fn is_count_at(row: &Row, at: usize, count: u64) -> bool
    ensures { IsTrue result ↔ (column row.now at ≡ Int (pos count)) }
{
    matches!(row.get_ref(at), Ok(ValueRef::Int(n)) if u64::try_from(n) == Ok(count))
}
