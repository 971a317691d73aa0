//! Rows as they are written, and the statements that add one operator or plan.
//!
//! Each row has a rowid, an integer: a new row gets the next one above the greatest in its table. The last is
//! 2^63 - 1, and then the table takes no more rows. So contracts count the rowids that a change uses.

ghost use Rattle.std.specs.Prelude.{◌≡◌, ⊤};
ghost use Rattle.desk_sql.specs.{Rows.operator_row, Rows.plan_row, Rows.AddsOperator, Rows.AddsPlan, Rows.IsDesk, Queries.IsChanged, Changing.FitsOperator, Changing.FitsPlan, Effects.Holds};
ghost use Rattle.desk_changes.specs.RowChanges.{TakesOperators, TakesRoom};

use crate::change::RowChange;
use crate::execute::execute;
use sqlite::{Alter, Error, Transaction};

/// A row of `plan`: the usage is 0 (planned), 1 (in use) or 2 (closed), the state of the aircraft is 0
/// (nominal), 1 (off nominal) or 2 (contingent).
#[derive(Clone, Copy, Debug)]
pub struct PlanRecord<'a> {
    pub operator: &'a str,
    pub id: &'a str,
    pub priority: u32,
    pub usage: u32,
    pub aircraft: u32,
}

/// A row of `volume2`: altitudes in `lower..upper` (decimetres above the WGS84 ellipsoid), times in
/// `start..stop` (Unix seconds). `place` is the volume's index in the plan, counted from 0. `asked` has the
/// footprint's cells or rectangle as the operator sent them, as bytes.
#[derive(Clone, Copy, Debug)]
pub struct VolumeRecord<'a> {
    pub operator: &'a str,
    pub id: &'a str,
    pub place: u32,
    pub lower: i64,
    pub upper: i64,
    pub start: i64,
    pub stop: i64,
    pub asked: &'a [u8],
    /// The volume's canonical cover: the fewest cells that have just the footprint's leaves. Their ids
    /// ascend, eight bytes each, the most significant first.
    pub canon: &'a [u8],
}

/// A row of `span2`: leaf positions in `first..=last`, altitudes in `lower..upper` (decimetres above the
/// WGS84 ellipsoid), times in `start..stop` (Unix seconds). `place` is the index of the span's volume in the
/// plan, counted from 0.
#[derive(Clone, Copy, Debug)]
pub struct SpanRecord<'a> {
    pub operator: &'a str,
    pub id: &'a str,
    pub place: u32,
    pub first: i64,
    pub last: i64,
    pub lower: i64,
    pub upper: i64,
    pub start: i64,
    pub stop: i64,
    pub priority: u32,
}

/// Adds a row for the operator `name` to `operator`, within a transaction; it uses one rowid. After any error
/// nothing is committed. If the operator has no row, a rowid is left and the name isn't over 100 million
/// bytes, only memory, the disk or the connection's step limit makes it fail.
pub fn insert_operator<S: Alter>(
    tx: &mut Transaction<'_, S>,
    name: &str,
    ceiling: u32,
) -> Result<(), Error>
    requires desk { Holds S.Store tx.old.conn.now IsDesk }
    ensures same_reference { tx.new.conn.ghost_name ≡ tx.old.conn.ghost_name }
    ensures changed { IsChanged S.Store tx.old.conn.now tx.new.conn.now result
        (AddsOperator (operator_row name.now ceiling))
        (FitsOperator name.now (operator_row name.now ceiling)) (TakesOperators 1) }
{
    execute(tx, RowChange::AddOperator { name, ceiling })
}

/// Adds a row to `plan`, within a transaction; `usage` and `aircraft` are as in `PlanRecord`. The row uses
/// one rowid. After any error nothing is committed. If the plan has no row, its operator has one and a rowid
/// is left (*FitsPlan*), only memory, the disk or the connection's step limit makes it fail.
pub fn insert_plan<S: Alter>(
    tx: &mut Transaction<'_, S>,
    operator: &str,
    id: &str,
    priority: u32,
    usage: u32,
    aircraft: u32,
) -> Result<(), Error>
    requires desk { Holds S.Store tx.old.conn.now IsDesk }
    ensures same_reference { tx.new.conn.ghost_name ≡ tx.old.conn.ghost_name }
    ensures changed { IsChanged S.Store tx.old.conn.now tx.new.conn.now result
        (AddsPlan (plan_row operator.now id.now priority usage aircraft))
        (FitsPlan operator.now id.now (plan_row operator.now id.now priority usage aircraft))
        (TakesRoom 1 0 0) }
{
    let plan = PlanRecord {
        operator,
        id,
        priority,
        usage,
        aircraft,
    };
    execute(tx, RowChange::AddPlan(plan))
}
