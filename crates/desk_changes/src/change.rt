//! The statements that change rows, as SQL, and the values of their parameters. Version 1 of the schema has
//! volumes and spans in `volume` and `span`, version 2 in `volume2` and `span2`.

ghost use Rattle.std.specs.Prelude.{◌≡◌, ℕ, List};
ghost use Rattle.desk_changes.specs.declared.writing.{PlanRecord.PlanRecord as PlanRow, SpanRecord.SpanRecord as SpanRow, VolumeRecord.VolumeRecord as VolumeRow};
ghost use Rattle.desk_changes.specs.RowChanges.{IsTextOf, given_to, DoesAddOperator, DoesSetCeiling, DoesSetClosed, DoesRemovePlan, DoesRemoveSpans};

use crate::writing::{PlanRecord, SpanRecord, VolumeRecord};
use desk_sql::Parameters;
use sqlite::params;

/// A change of rows, with the values that its statement takes.
#[derive(Clone, Copy)]
pub(crate) enum RowChange<'a> {
    /// Adds a row to `operator`.
    AddOperator {
        name: &'a str,
        ceiling: u32,
    },
    /// Adds a row to `plan`.
    AddPlan(PlanRecord<'a>),
    /// Adds a row to `volume2`.
    AddVolume(VolumeRecord<'a>),
    /// Adds a row to `span2`.
    AddSpan(SpanRecord<'a>),
    /// Sets the ceiling of the operator `name`, if it has a row.
    SetCeiling {
        name: &'a str,
        ceiling: u32,
    },
    /// Gives the operator's plan `id`, if it is stored, the usage Closed, this priority and this state of the
    /// aircraft (as in `PlanRecord`).
    SetClosed {
        operator: &'a str,
        id: &'a str,
        priority: u32,
        aircraft: u32,
    },
    /// Removes the operator's plan `id`, if it is stored, with its volumes and spans.
    RemovePlan {
        operator: &'a str,
        id: &'a str,
    },
    /// Removes the rows of `span2` of the operator's plan `id`. The plan and its volumes stay.
    RemoveSpans {
        operator: &'a str,
        id: &'a str,
    },
    /// Removes all rows of `volume`.
    EmptyOldVolumes,
    /// Removes all rows of `span`.
    EmptyOldSpans,
}

impl<'a> RowChange<'a> {
    /// The statement as SQL. Its parameters `?1`, `?2` and so on are those that `params` returns.
    pub(crate) fn text(self) -> &'static str
        ensures { IsTextOf self.entry result.now }
    {
        match self {
            RowChange::AddOperator { .. } => add_operator_text(),
            RowChange::AddPlan(_) => add_plan_text(),
            RowChange::AddVolume(_) => add_volume_text(),
            RowChange::AddSpan(_) => add_span_text(),
            RowChange::SetCeiling { .. } => set_ceiling_text(),
            RowChange::SetClosed { .. } => set_closed_text(),
            RowChange::RemovePlan { .. } => remove_plan_text(),
            RowChange::RemoveSpans { .. } => remove_spans_text(),
            RowChange::EmptyOldVolumes => empty_old_volumes_text(),
            RowChange::EmptyOldSpans => empty_old_spans_text(),
        }
    }

    /// The values of the statement's parameters, in the order of their numbers.
    pub(crate) fn params(self) -> Parameters<'a>
        ensures { result ≡ given_to self.entry }
    {
        match self {
            RowChange::AddOperator { name, ceiling } => Parameters::of(params![name, ceiling]),
            RowChange::AddPlan(p) => {
                Parameters::of(params![p.operator, p.id, p.priority, p.usage, p.aircraft])
            }
            RowChange::AddVolume(v) => Parameters::of(params![
                v.operator, v.id, v.place, v.lower, v.upper, v.start, v.stop, v.asked, v.canon
            ]),
            RowChange::AddSpan(s) => Parameters::of(params![
                s.operator, s.id, s.place, s.first, s.last, s.lower, s.upper, s.start, s.stop,
                s.priority
            ]),
            RowChange::SetCeiling { name, ceiling } => Parameters::of(params![name, ceiling]),
            RowChange::SetClosed {
                operator,
                id,
                priority,
                aircraft,
            } => { Parameters::of(params![operator, id, priority, aircraft]) }
            RowChange::RemovePlan { operator, id } => Parameters::of(params![operator, id]),
            RowChange::RemoveSpans { operator, id } => Parameters::of(params![operator, id]),
            RowChange::EmptyOldVolumes | RowChange::EmptyOldSpans => Parameters::of(&[]),
        }
    }
}

// The statement that adds a row to `operator`: the name `?1` and the ceiling `?2`.
fn add_operator_text() -> &'static str
    ensures { (name : List ℕ) (ceiling : ℕ) → DoesAddOperator name ceiling result.now }
{
    "INSERT INTO operator (name, ceiling) VALUES (?1, ?2)"
}

// The statement that adds a row to `plan`. The values of its columns are `?1` to `?5`, in their order.
fn add_plan_text() -> &'static str
    ensures { (row : PlanRow) → IsTextOf (RowChange.AddPlan row) result.now }
{
    "INSERT INTO plan (operator, id, priority, usage, aircraft) VALUES (?1, ?2, ?3, ?4, ?5)"
}

// The statement that adds a row to `volume2`. The values of its columns are `?1` to `?9`, in their order.
fn add_volume_text() -> &'static str
    ensures { (row : VolumeRow) → IsTextOf (RowChange.AddVolume row) result.now }
{
    "INSERT INTO volume2 (operator, id, place, lower, upper, start, stop, asked, canon) \
     VALUES (?1, ?2, ?3, ?4, ?5, ?6, ?7, ?8, ?9)"
}

// The statement that adds a row to `span2`. The values of its columns are `?1` to `?10`, in their order.
fn add_span_text() -> &'static str
    ensures { (row : SpanRow) → IsTextOf (RowChange.AddSpan row) result.now }
{
    "INSERT INTO span2 (operator, id, place, first, last, lower, upper, start, stop, priority) \
     VALUES (?1, ?2, ?3, ?4, ?5, ?6, ?7, ?8, ?9, ?10)"
}

// The statement that sets the ceiling of the operator `?1` to `?2`. If there is no such row, it changes none.
fn set_ceiling_text() -> &'static str
    ensures { (name : List ℕ) (ceiling : ℕ) → DoesSetCeiling name ceiling result.now }
{
    "UPDATE operator SET ceiling = ?2 WHERE name = ?1"
}

// The statement that gives a plan (`?2`) of an operator (`?1`) the usage Closed (2), a priority (`?3`) and a
// state of the aircraft (`?4`). If the plan isn't stored, it changes no row.
fn set_closed_text() -> &'static str
    ensures { (operator id : List ℕ) (priority aircraft : ℕ) →
        DoesSetClosed operator id priority aircraft result.now }
{
    "UPDATE plan SET priority = ?3, usage = 2, aircraft = ?4 WHERE operator = ?1 AND id = ?2"
}

// The statement that removes a plan (`?2`) of an operator (`?1`), if it is stored. The rows of its volumes
// and spans go with it, by the foreign keys (ON DELETE CASCADE).
fn remove_plan_text() -> &'static str
    ensures { (operator id : List ℕ) → DoesRemovePlan operator id result.now }
{
    "DELETE FROM plan WHERE operator = ?1 AND id = ?2"
}

// The statement that removes the rows of `span2` of operator `?1`'s plan `?2`. Plan and volumes stay.
fn remove_spans_text() -> &'static str
    ensures { (operator id : List ℕ) → DoesRemoveSpans operator id result.now }
{
    "DELETE FROM span2 WHERE operator = ?1 AND id = ?2"
}

// The statement that removes all rows of `volume`, a table of version 1 of the schema. The table stays.
#[tactic(auto, using(crate::proofs::ChangeTexts::empty_old_volumes_does))]
fn empty_old_volumes_text() -> &'static str
    ensures { IsTextOf RowChange.EmptyOldVolumes result.now }
{
    "DELETE FROM volume"
}

// The statement that removes all rows of `span`, a table of version 1 of the schema. The table stays.
#[tactic(auto, using(crate::proofs::ChangeTexts::empty_old_spans_does))]
fn empty_old_spans_text() -> &'static str
    ensures { IsTextOf RowChange.EmptyOldSpans result.now }
{
    "DELETE FROM span"
}
