//! Which part of a database is invalid: an administrator is shown it if files were refused. It is found
//! afterwards, by the checks that refuse a database, in their order. Nothing is changed. Contracts say that a
//! part which is named is invalid, if the disk returned what was written and no error has shut the
//! connection, but not that an invalid part is always named. Schema 1 is the older one, with its rows in
//! `volume` and `span`; schema 2 has them in `volume2` and `span2`.

ghost use Rattle.std.specs.Prelude.{◌≡◌, ◌≢◌, ◌⊎◌, List, true, false, IfErr, IfOk, IfSome, OnOk};
ghost use Rattle.sqlite_value.specs.Order.{Row as Values};
ghost use Rattle.sqlite_wal.specs.Files.{image_at};
ghost use Rattle.desk_sql.specs.{Effects.OnlyReads, Rows.tables_at};
ghost use Rattle.table_load.specs.Files.{IsUnreached};
ghost use Rattle.table_load.specs.OpeningSteps as spec;
ghost use Rattle.table_load.specs.OpeningSteps.{AreGoodHeads, ArePlanHeads, FailsHeads, FailsOldSpans, FailsSpans, FailsMoving, FailsNew, FailsOld, FailsPart, IsPlanHead, NamesIn, ShowsPartOf, WereCompared, ShowsOperators, ShowsPart};

use crate::connecting::connect_to_existing;
use crate::fault::OpenFault;
use crate::finding::{find_desk_tables, read_heads};
use crate::moving::{are_new_tables_empty, are_within_old_limits, read_old_heads};
use crate::path::NotOpened;
use crate::spans::{SpanCheck, take_spans};
use desk_rules::decide::MAX_PRIORITY;
use desk_sql::{TablesPresent, WholeTable};
use row_codec::content::{
    TableRows, are_keys_ascending, are_names_ascending, have_operators_and_room, operators_in,
    plans_in,
};
use row_codec::exact::{FiledPlan, PLAN_WIDTH, RowFault, is_keyed, operator_in};
use row_codec::values::{count_at, head_in, id_in};
use sqlite::{Connection, FileFrom, FileStore, Row, Start};
use sqlite_disk::Disk;
use sqlite_trees::store::Alter;
use std::alloc::Global;
use volume4d::laws::one_shape;

/// The part of a database that is invalid.
#[derive(Clone, Copy, Debug, PartialEq, Eq)]
pub enum InvalidPart {
    /// There is no table.
    NoTable,
    /// The tables, indexes and views aren't those of a desk: others may only stand behind all of these, and
    /// apart from them.
    OtherTables,
    /// There are rows of schema 1 and rows of schema 2.
    BothSchemas,
    /// A row of `operator`.
    Operator,
    /// A row of `plan`.
    Plan,
    /// An operator has more plans than it may have, or a plan's operator isn't there.
    Plans,
    /// The rows of `volume2`.
    Volume,
    /// The covers in `volume2`.
    Cover,
    /// The rows of `span2`.
    Span,
    /// The rows of `volume`, of schema 1.
    OldVolume,
    /// The rows of `span`, of schema 1.
    OldSpan,
    /// A plan of schema 1 that exceeds the limits of schema 1.
    OldPlan,
}

/// The invalid part of a database, and the connection that read it, which can only be dropped.
#[derive(Drop)]
pub struct Named<D: Disk> {
    part: Option<InvalidPart>,
    connection: Connection<FileStore<D>>,
}

impl<D: Disk> Named<D> {
    /// The first invalid part. `None` if there is none, or if the database can't be read or memory ran out.
    pub fn part(&self) -> Option<InvalidPart>
        ensures { result ≡ self.now.part }
    {
        self.part
    }
}

/// Finds the first invalid part of the database in the files at `path`. No table or row is changed; a WAL is
/// made if there is none. Only contracts read `start`: what the files held.
///
/// # Errors
///
/// `NotOpened` if there is no file at `path`, if it is empty, or if the files can't be opened for another
/// cause.
pub fn part_at<S: Start>(
    rt: &HostRuntime,
    path: &str,
    start: S,
) -> Result<Named<FileFrom<S>>, NotOpened<FileFrom<S>>>
    ensures named { IfOk result (λ it. NamesIn (image_at S.Start) it.part it.connection) }
    ensures unread { IfErr result (IsUnreached (image_at S.Start)) }
{
    let mut connection = connect_to_existing(rt, path, start)?;
    let part = find_invalid(rt.alloc(), &mut connection);
    Ok(Named { part, connection })
}

/// Finds the first invalid part of a database: its tables are tested first, then their rows. `None` if there
/// is none, or if the database can't be read or memory runs out.
#[tactic(auto, using(crate::proofs::lemmas::Opening::some_operators, crate::proofs::NamedLemmas::new_named, crate::proofs::NamedLemmas::old_named))]
pub fn find_invalid<S: Alter>(alloc: Global, connection: &mut Connection<S>) -> Option<InvalidPart>
    requires settled { connection.old.in_transaction ≡ false }
    ensures reads { OnlyReads S.Store connection.old connection.new }
    ensures shows { ShowsPartOf S.Store connection.old connection.new result FailsPart }
{
    let (made, old) = match find_desk_tables(connection) {
        Ok(found) => found,
        Err(OpenFault::NotADesk) => return Some(InvalidPart::OtherTables),
        Err(_) => return None,
    };
    if made == TablesPresent::Nothing {
        return Some(InvalidPart::NoTable);
    }
    if old {
        invalid_in_schema_1(alloc, connection, made)
    } else {
        invalid_in_schema_2(alloc, connection, made)
    }
}

// The first invalid part of a database without rows of schema 1, which has the tables `made`: the rows of
// operators, plans and volumes are tested first, then spans, then covers. `None` if all are valid, or if the
// database can't be read or memory runs out.
#[tactic(auto, using(crate::proofs::lemmas::Frame::reads_then, crate::proofs::lemmas::Opening::part_on))]
fn invalid_in_schema_2<S: Alter>(
    alloc: Global,
    connection: &mut Connection<S>,
    made: TablesPresent,
) -> Option<InvalidPart>
    requires part { ShowsOperators S.Store connection.old made }
    ensures reads { OnlyReads S.Store connection.old connection.new }
    ensures shows { ShowsPartOf S.Store connection.old connection.new result (λ db.
        FailsNew (tables_at made db.trees)) }
{
    let Ok((heads, covered)) = read_heads(alloc, connection, made) else {
        return None;
    };
    let plans = match plans_of(alloc, &heads, InvalidPart::Volume) {
        Ok(plans) => plans,
        Err(part) => return part,
    };
    let mut check = SpanCheck::new(alloc, plans);
    match take_spans(connection, WholeTable::Spans, made, &mut check) {
        Ok(()) => fault_of_spans(check, covered),
        Err(_) => None,
    }
}

// The first invalid part of a database with rows of schema 1, which has the tables `made`: `BothSchemas` if
// there are also rows of schema 2, else the first among the rows of schema 1. `None` as in
// `invalid_in_schema_2`.
#[tactic(auto, using(crate::proofs::lemmas::Opening::some_operators, crate::proofs::NamedLemmas::moving_named))]
fn invalid_in_schema_1<S: Alter>(
    alloc: Global,
    connection: &mut Connection<S>,
    made: TablesPresent,
) -> Option<InvalidPart>
    requires part { ShowsPart S.Store connection.old made }
    requires has_table { made ≢ TablesPresent.Nothing }
    ensures reads { OnlyReads S.Store connection.old connection.new }
    ensures shows { ShowsPartOf S.Store connection.old connection.new result (λ db.
        FailsMoving (tables_at made db.trees)) }
{
    if !are_new_tables_empty(connection, made).ok()? {
        return Some(InvalidPart::BothSchemas);
    }
    invalid_old_rows(alloc, connection, made)
}

// The first invalid part among the rows of schema 1, if there are none of schema 2. The database has the
// tables `made`. The rows of operators, plans and volumes are tested first, then spans, then the limits of
// schema 1. `None` as in `invalid_in_schema_2`.
#[tactic(auto, using(crate::proofs::lemmas::Frame::reads_then, crate::proofs::lemmas::Opening::part_on))]
fn invalid_old_rows<S: Alter>(
    alloc: Global,
    connection: &mut Connection<S>,
    made: TablesPresent,
) -> Option<InvalidPart>
    requires part { ShowsOperators S.Store connection.old made }
    ensures reads { OnlyReads S.Store connection.old connection.new }
    ensures shows { ShowsPartOf S.Store connection.old connection.new result (λ db.
        FailsOld (tables_at made db.trees)) }
{
    let Ok(heads) = read_old_heads(alloc, connection, made) else {
        return None;
    };
    let plans = match plans_of(alloc, &heads, InvalidPart::OldVolume) {
        Ok(plans) => plans,
        Err(part) => return part,
    };
    let mut check = SpanCheck::new(alloc, plans);
    match take_spans(connection, WholeTable::OldSpans, made, &mut check) {
        Ok(()) => fault_of_old_spans(check),
        Err(_) => None,
    }
}

// `check` has compared all rows of spans with the plans: `Span` if they aren't the rows of the plans. Else
// `Cover` if `covered` is false: some cover isn't that of its volume. `None` if all are right, or if memory
// runs out.
fn fault_of_spans(mut check: SpanCheck, covered: bool) -> Option<InvalidPart>
    ensures { (rows : List Values) → WereCompared check rows
        → IfSome result (FailsSpans check.plans.items rows covered) }
{
    if !check.agrees().ok()? {
        return Some(InvalidPart::Span);
    }
    (!covered).then_some(InvalidPart::Cover)
}

// `check` has compared all rows of spans with the plans: `OldSpan` if they aren't the rows of the plans. Else
// `OldPlan` if a plan exceeds the limits of schema 1. `None` if all are right, or if memory runs out.
fn fault_of_old_spans(mut check: SpanCheck) -> Option<InvalidPart>
    ensures { (rows : List Values) → WereCompared check rows
        → IfSome result (FailsOldSpans check.plans.items rows) }
{
    if !check.agrees().ok()? {
        return Some(InvalidPart::OldSpan);
    }
    let within = are_within_old_limits(&check.plans).ok()?;
    (!within).then_some(InvalidPart::OldPlan)
}

// The plans whose rows are `rows`. The error is the first invalid part, or `None` if memory runs out.
// `volume` is the part that is named if rows of volumes are invalid: `Volume`, or `OldVolume` in schema 1.
fn plans_of(
    alloc: Global,
    rows: &TableRows,
    volume: InvalidPart,
) -> Result<Vec<FiledPlan>, Option<InvalidPart>>
    ensures ok { IfOk result (λ plans. AreGoodHeads rows.now plans.items) }
    ensures fault { IfErr result (λ named. IfSome named (FailsHeads rows.now volume)) }
{
    // A law, which changes nothing: footprints with the same bytes are the same.
    one_shape();
    let operators = match operators_in(alloc, &rows.operators) {
        Ok(operators) => operators,
        Err(fault) => return Err(part_if_invalid(fault, InvalidPart::Operator)),
    };
    let plans = match plans_in(alloc, &rows.plans, &rows.volumes) {
        Ok(plans) => plans,
        Err(fault) => return Err(part_if_invalid(fault, plan_or_volume(volume, &rows.plans))),
    };
    if !are_names_ascending(&operators) {
        return Err(Some(InvalidPart::Operator));
    }
    if !are_keys_ascending(&plans) {
        return Err(Some(InvalidPart::Plan));
    }
    if !have_operators_and_room(&operators, &plans) {
        return Err(Some(InvalidPart::Plans));
    }
    Ok(plans)
}

// The part to be named if reading the rows of `part` failed with `fault`: `part` if they are invalid; `None`
// if memory ran out.
fn part_if_invalid(fault: RowFault, part: InvalidPart) -> Option<InvalidPart>
    ensures { result ≡ spec.part_if_invalid fault part }
{
    match fault {
        RowFault::InvalidRows => Some(part),
        RowFault::OutOfMemory => None,
    }
}

// Which part is named if `heads` and the rows of volumes aren't those of plans: `Plan` if one of `heads` by
// itself isn't the row of a plan; else `volume` (as in `plans_of`), also if memory runs out.
fn plan_or_volume(volume: InvalidPart, heads: &[Row]) -> InvalidPart
    ensures { (result ≡ volume) ⊎ ((result ≡ InvalidPart.Plan) × (¬ ArePlanHeads heads.now)) }
{
    match check_plan_rows(heads) {
        Err(RowFault::InvalidRows) => InvalidPart::Plan,
        _ => volume,
    }
}

// Checks that each of `heads` is a valid row of the table `plan`, whatever rows the plan's volumes have.
// `InvalidRows` if one isn't; `OutOfMemory` if memory runs out.
fn check_plan_rows(heads: &[Row]) -> Result<(), RowFault>
    ensures valid { OnOk result (ArePlanHeads heads.now) }
    ensures refused { IfErr result (λ e. e ≡ RowFault.InvalidRows → ¬ ArePlanHeads heads.now) }
{
    let mut left = heads;
    'head: while let Some((head, later)) = left.split_first() {
        check_plan_row(head)?;
        left = later;
    }
    Ok(())
}

// Checks that `head` is a valid row of the table `plan`, whatever rows the plan's volumes have: its columns
// are an operator's name, an id as the desk writes it, a priority of at most 1,000 (column 2, counted from
// 0), a usage and a state of the aircraft. `InvalidRows` if it isn't; `OutOfMemory` if memory runs out.
fn check_plan_row(head: &Row) -> Result<(), RowFault>
    ensures valid { OnOk result (IsPlanHead head.now) }
    ensures refused { IfErr result (λ e. e ≡ RowFault.InvalidRows → ¬ IsPlanHead head.now) }
{
    let Some(operator) = operator_in(head) else {
        return Err(RowFault::InvalidRows);
    };
    head_in(head)?;
    if count_at(head, 2)? > MAX_PRIORITY {
        return Err(RowFault::InvalidRows);
    }
    let id = id_in(head)?;
    let mut buffer = [0u8; 36];
    if is_keyed(head, operator.as_str(), id.encode(&mut buffer), PLAN_WIDTH) {
        Ok(())
    } else {
        Err(RowFault::InvalidRows)
    }
}
