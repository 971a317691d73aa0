//! The state of a database, from all rows of its tables: the operators with their ceilings, and all plans.
//! Columns of rows are counted from 0. The key of an operator is its name, that of a plan its operator and
//! id, and that of a volume these and its place (its number in the plan).

ghost use Rattle.std.specs.Prelude.{◌≡◌, ◌↔◌, ◌≤◌, List, IsTrue, IfOk, IfErr, length};
ghost use Rattle.std.specs.{List.prefix_len, List.Sorted.IsStrictlySortedBy};
ghost use Rattle.sqlite_value.specs.Order.{column};
ghost use Rattle.desk_rules.specs.Limits.{max_plans};
ghost use Rattle.desk_store.specs.World as world;
ghost use Rattle.desk_store.specs.World.{World, Listed, Filed, listed_cmp, filed_cmp};
ghost use Rattle.row_codec.specs.Tables.{id_text, row_of_plan, AreOperatorRows, ArePlanRows, HaveOperatorsAndRoom, is_below_first};
ghost use Rattle.row_codec.specs.Tables as spec;

use crate::exact::{FiledPlan, RowFault, filed_in, listed_in};
use desk_rules::decide::MAX_PLANS;
use desk_rules::operator::Operator;
use operator_index::ListedOperator;
use sqlite::Row;
use sqlite_value::value::ValueRef;
use std::alloc::{AllocError, AllocFailed, Global};
use std::marker::Model;

/// The rows of the tables, those of each table ordered by its key. `volumes` has those of `volume2` without
/// their covers, or those of `volume` in schema 1.
#[derive(Drop)]
pub struct TableRows {
    pub operators: Vec<Row>,
    pub plans: Vec<Row>,
    pub volumes: Vec<Row>,
    pub spans: Vec<Row>,
}

impl Model for TableRows {
    ghost use Rattle.std.specs.Prelude.{[]};
    ghost use Rattle.desk_sql.specs.Rows.{Tables};

    ghost Value = { Tables };

    ghost view = { λ t. record {
      operators = t.operators.items;
      plans = t.plans.items;
      old_volumes = [];
      old_spans = [];
      volumes = t.volumes.items;
      covers = [];
      spans = t.spans.items;
    } };
}

/// A database state: the operators ordered by name, and the plans ordered by operator and id.
#[derive(Drop)]
pub struct Content {
    pub operators: Vec<ListedOperator>,
    pub plans: Vec<FiledPlan>,
    // how many rows of `span2` the plans have
    pub spans: usize,
}

impl Model for Content {
    ghost use Rattle.desk_store.specs.World.{World};
    ghost use Rattle.row_codec.specs.SpanBounds.{HaveSpanRows};

    ghost Value = { World };

    ghost view = { λ c. record { operators = c.operators.items; plans = c.plans.items } };

    ghost invariant = { λ c. HaveSpanRows c.plans.items c.spans };
}

impl From<AllocError> for RowFault {
    ghost use Rattle.std.specs.Prelude.{◌≡◌};
    ghost use Rattle.row_codec.specs.declared.exact.RowFault.TheVariants.{OutOfMemory};

    ghost from_gives = { λ _ e. e ≡ OutOfMemory };

    // An allocation failed, so memory ran out.
    fn from(_e: AllocError) -> RowFault {
        RowFault::OutOfMemory
    }
}

impl<T: Drop> From<AllocFailed<T>> for RowFault {
    ghost use Rattle.std.specs.Prelude.{◌≡◌};
    ghost use Rattle.row_codec.specs.declared.exact.RowFault.TheVariants.{OutOfMemory};

    ghost from_gives = { λ _ e. e ≡ OutOfMemory };

    // A `Vec` couldn't grow, so memory ran out. The value that was to be added is dropped.
    fn from(_e: AllocFailed<T>) -> RowFault {
        RowFault::OutOfMemory
    }
}

/// The operators whose rows of `operator` are `rows`, in the same order. Whether they ascend by name isn't
/// checked.
///
/// # Errors
///
/// `OutOfMemory` if memory runs out. `InvalidRows` if one isn't the row of an operator within the limits.
pub fn operators_in(alloc: Global, rows: &[Row]) -> Result<Vec<ListedOperator>, RowFault>
    ensures ok { IfOk result (λ operators. AreOperatorRows operators.items rows.now) }
    ensures refused { IfErr result (λ e. e ≡ RowFault.InvalidRows →
        (ls : List Listed) → ¬ AreOperatorRows ls rows.now) }
{
    let mut operators = Vec::new(alloc);
    let mut left = rows;
    while let Some((row, later)) = left.split_first() {
        operators.push(listed_in(row)?)?;
        left = later;
    }
    Ok(operators)
}

/// The plans whose rows of `plan` are `head_rows`, and whose rows of volumes are `volumes`, both ordered by
/// key. Whether the plans ascend by key isn't checked.
///
/// # Errors
///
/// `OutOfMemory` if memory runs out. `InvalidRows` only if no plans within the limits, ascending by key, have
/// these rows.
pub fn plans_in(
    alloc: Global,
    head_rows: &[Row],
    volumes: &[Row],
) -> Result<Vec<FiledPlan>, RowFault>
    ensures ok { IfOk result (λ plans. ArePlanRows plans.items head_rows.now volumes.now) }
    ensures refused { IfErr result (λ e. e ≡ RowFault.InvalidRows → (ps : List Filed) →
        IsStrictlySortedBy filed_cmp ps → ¬ ArePlanRows ps head_rows.now volumes.now) }
{
    let mut plans = Vec::new(alloc);
    let mut left = head_rows;
    let mut rest = volumes;
    while let Some((head, later)) = left.split_first() {
        let (mine, more) = rest.split_at(count_own_volumes(head, rest));
        plans.push(filed_in(alloc, head, mine)?)?;
        left = later;
        rest = more;
    }
    if rest.is_empty() {
        Ok(plans)
    } else {
        Err(RowFault::InvalidRows)
    }
}

// How many rows at the beginning of `rows` are of volumes of the plan whose row of `plan` is `head`; 0 if the
// key of `head` (columns 0 and 1) isn't two texts. If `head` is no plan's row, the contract says only that
// they are no more than `rows`.
fn count_own_volumes(head: &Row, rows: &[Row]) -> usize
    ensures of { (p : Filed) → head.now ≡ row_of_plan p →
        result ≡ prefix_len (spec.is_row_of p.operator (id_text p.row.id)) rows.now }
    ensures within { result ≤ length rows.now }
{
    let (Ok(ValueRef::Text(operator)), Ok(ValueRef::Text(id))) = (head.get_ref(0), head.get_ref(1))
    else {
        return 0;
    };
    count_of(rows, operator, id)
}

// How many rows at the beginning of `rows` are of the operator's plan `id`. `operator` (a name) and `id` are
// the bytes of texts.
#[tactic(auto, using(crate::proofs::JoinLemmas::within))]
fn count_of(rows: &[Row], operator: &[u8], id: &[u8]) -> usize
    ensures value { result ≡ prefix_len (spec.is_row_of operator.now id.now) rows.now }
    ensures within { result ≤ length rows.now }
{
    rows.iter()
        .take_while(|row| is_of(row, operator, id))
        .count()
}

// Whether `row` is of the operator's plan `id`, by columns 0 and 1. `operator` (a name) and `id` are the
// bytes of texts.
fn is_of(row: &Row, operator: &[u8], id: &[u8]) -> bool
    ensures { result ≡ spec.is_row_of operator.now id.now row.now }
{
    is_text(row, 0, operator) && is_text(row, 1, id)
}

// Whether the column `at` is the text whose bytes are `text`.
fn is_text(row: &Row, at: usize, text: &[u8]) -> bool
    ensures { result ≡ spec.has_text (column row.now at) text.now }
{
    matches!(row.get_ref(at), Ok(ValueRef::Text(found)) if found.cmp(text).is_eq())
}

/// Whether the operators are in ascending order of their names, none twice.
pub fn are_names_ascending(operators: &[ListedOperator]) -> bool
    ensures { IsTrue result ↔ IsStrictlySortedBy listed_cmp operators.now }
{
    let mut left = operators;
    while let Some((first, later)) = left.split_first() {
        if !name_is_below(first, later) {
            return false;
        }
        left = later;
    }
    true
}

// Whether the name of `one` is less than that of the first of `others`; true if `others` is empty.
fn name_is_below(one: &ListedOperator, others: &[ListedOperator]) -> bool
    ensures { result ≡ is_below_first listed_cmp one.now others.now }
{
    match others.first() {
        Some(next) => one.operator.cmp(&next.operator).is_lt(),
        None => true,
    }
}

/// Whether the plans are in ascending order of operator and id, none twice.
pub fn are_keys_ascending(plans: &[FiledPlan]) -> bool
    ensures { IsTrue result ↔ IsStrictlySortedBy filed_cmp plans.now }
{
    let mut left = plans;
    while let Some((first, later)) = left.split_first() {
        if !key_is_below(first, later) {
            return false;
        }
        left = later;
    }
    true
}

// Whether `one` comes before the first of `others` by operator and id; true if `others` is empty.
fn key_is_below(one: &FiledPlan, others: &[FiledPlan]) -> bool
    ensures { result ≡ is_below_first filed_cmp one.now others.now }
{
    match others.first() {
        Some(next) => {
            let names = one.operator.cmp(&next.operator);
            names.then(one.row.id.cmp(&next.row.id)).is_lt()
        }
        None => true,
    }
}

/// Whether each plan's operator is among `operators`, and none of these has more than `MAX_PLANS` plans.
/// Operators and plans are ordered by their keys.
pub fn have_operators_and_room(operators: &[ListedOperator], plans: &[FiledPlan]) -> bool
    requires names { IsStrictlySortedBy listed_cmp operators.now }
    requires keys { IsStrictlySortedBy filed_cmp plans.now }
    ensures { IsTrue result ↔ HaveOperatorsAndRoom operators.now plans.now }
{
    let mut others = operators;
    let mut left = plans;
    while let Some((listed, later)) = others.split_first() {
        let count = count_own(&listed.operator, left);
        if !is_within_limit(count) {
            return false;
        }
        let (_mine, more) = left.split_at(count);
        others = later;
        left = more;
    }
    left.is_empty()
}

// Whether an operator may have `count` plans.
fn is_within_limit(count: usize) -> bool
    ensures { IsTrue result ↔ count ≤ max_plans }
{
    count <= MAX_PLANS as usize
}

/// How many plans at the beginning of `plans` are the operator's.
#[tactic(auto, using(crate::proofs::JoinLemmas::within))]
pub(crate) fn count_own(operator: &Operator, plans: &[FiledPlan]) -> usize
    ensures value { result ≡ prefix_len (world.is_by operator.now) plans.now }
    ensures within { result ≤ length plans.now }
{
    plans
        .iter()
        .take_while(|plan| is_by(operator, plan))
        .count()
}

// Whether `plan` is the operator's.
fn is_by(operator: &Operator, plan: &FiledPlan) -> bool
    ensures { result ≡ world.is_by operator.now plan.now }
{
    operator.cmp(&plan.operator).is_eq()
}
