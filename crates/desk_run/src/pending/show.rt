//! Plans as they are shown to their operator, with their conflicts. A plan's conflict is its first point at
//! which another live plan blocks it. Where a comment names no error, a function fails only if memory runs
//! out or the store fails.
//!
//! In contracts, `IsHonest` says that the storage is intact, the clause `reads` that a call only reads, and
//! the clause `cause` that the store has counted an error that is returned as `Store`.

ghost use Rattle.std.specs.Prelude.{◌≡◌, ◌≤◌, map, IfOk, IfErr};
ghost use Rattle.desk_run.specs.{Calls.IsStoreFaultCounted, Calls.IsPreparedFor, Verdicts.conflict_shown_in, Verdicts.list_ruling, Verdicts.show_ruling, Verdicts.shown_in};
ghost use Rattle.desk_store.specs.{Changes.OnlyReads, Changes.IsHonest, Changes.IsCounted, World.held, World.plans_of, World.stored_of};

use super::Pending;
use super::conflict::conflict_of;
use super::listing::{all_shown, others_near, own_plans};
use super::own::OwnPlan;
use crate::fault::DeskFault;
use desk_rules::decide::status_of;
use desk_rules::operator::Operator;
use desk_rules::permission::Permitted;
use desk_rules::plan::PlanRow;
use desk_rules::plan_id::PlanId;
use desk_rules::reply::{Reply, Shown};
use desk_store::{PlanStore, StoreFault};
use std::alloc::Global;
use volume4d::Meeting;

// Prepares the reply that lists an enrolled operator's plans, closed ones too, each with its conflict. There
// is no change.
pub fn prepare_list<S: PlanStore>(
    alloc: Global,
    store: &mut S,
    permitted: &Permitted,
    operator: &Operator,
) -> Result<Pending, DeskFault>
    ensures value { IsHonest (S.doubt store.new) → IsPreparedFor (S.content store.old) operator.now
        (list_ruling permitted.now (plans_of operator.now (S.content store.old))
        (held (S.content store.old) operator.now)) result }
    ensures reads { OnlyReads S.content S.doubt S.faults S.may_leave S.is_shielded store.old store.new }
    ensures cause { IfErr result (IsStoreFaultCounted S.faults store.old store.new) }
{
    let plans = own_shown(alloc, store, permitted, operator)?;
    Ok(Pending {
        reply: Reply::Plans(plans),
        change: None,
    })
}

// The operator's plans as they are shown to it, each with its status and conflict, ascending by id.
fn own_shown<S: PlanStore>(
    alloc: Global,
    store: &mut S,
    permitted: &Permitted,
    operator: &Operator,
) -> Result<Vec<Shown>, StoreFault>
    ensures value { IsHonest (S.doubt store.new) → IfOk result (λ plans.
        plans.items ≡ map (shown_in permitted.now (S.content store.old) operator.now)
        (plans_of operator.now (S.content store.old))) }
    ensures reads { OnlyReads S.content S.doubt S.faults S.may_leave S.is_shielded store.old store.new }
    ensures cause { IfErr result (IsCounted S.faults store.old store.new) }
{
    let plans = own_listed(alloc, store, operator)?;
    let others = others_near(alloc, store, operator, &plans)?;
    Ok(all_shown(alloc, permitted, &plans, &others)?)
}

// The operator's plans, ascending by id, each with the slabs that it holds (a closed one holds none).
fn own_listed<S: PlanStore>(
    alloc: Global,
    store: &mut S,
    operator: &Operator,
) -> Result<Vec<OwnPlan>, StoreFault>
    ensures value { IsHonest (S.doubt store.new) → IfOk result (λ plans.
        plans.items ≡ plans_of operator.now (S.content store.old)) }
    ensures reads { OnlyReads S.content S.doubt S.faults S.may_leave S.is_shielded store.old store.new }
    ensures cause { IfErr result (IsCounted S.faults store.old store.new) }
{
    let rows = store.own_plans(operator)?;
    Ok(own_plans(alloc, &rows)?)
}

// Prepares the reply that shows an enrolled operator's plan, with its conflict. There is no change.
// `NoSuchPlan` if the operator has no plan with this id.
pub fn prepare_show<S: PlanStore>(
    alloc: Global,
    store: &mut S,
    permitted: &Permitted,
    operator: &Operator,
    id: &PlanId,
) -> Result<Pending, DeskFault>
    ensures value { IsHonest (S.doubt store.new) → IsPreparedFor (S.content store.old) operator.now
        (show_ruling permitted.now (plans_of operator.now (S.content store.old))
        (held (S.content store.old) operator.now)
        (stored_of id.now (plans_of operator.now (S.content store.old)))) result }
    ensures reads { OnlyReads S.content S.doubt S.faults S.may_leave S.is_shielded store.old store.new }
    ensures cause { IfErr result (IsStoreFaultCounted S.faults store.old store.new) }
{
    let Some(row) = store.plan(operator, id)? else {
        return Err(DeskFault::NoSuchPlan);
    };
    let plan = shown(alloc, store, permitted, operator, &row)?;
    Ok(Pending {
        reply: Reply::Plan(plan),
        change: None,
    })
}

// The operator's stored plan `row` as it is shown, with its status and conflict.
fn shown<S: PlanStore>(
    alloc: Global,
    store: &mut S,
    permitted: &Permitted,
    operator: &Operator,
    row: &PlanRow,
) -> Result<Shown, StoreFault>
    ensures value { IsHonest (S.doubt store.new) → IfOk result (λ shown.
        shown ≡ shown_in permitted.now (S.content store.old) operator.now row.now) }
    ensures reads { OnlyReads S.content S.doubt S.faults S.may_leave S.is_shielded store.old store.new }
    ensures cause { IfErr result (IsCounted S.faults store.old store.new) }
{
    let conflict = shown_conflict(alloc, store, permitted, operator, row)?;
    Ok(Shown {
        row: row.copy()?,
        status: status_of(Some(row)),
        conflict,
    })
}

// The conflict of the operator's stored plan `row` with other plans, its own and others'; `None` if it has
// none, or is closed.
fn shown_conflict<S: PlanStore>(
    alloc: Global,
    store: &mut S,
    permitted: &Permitted,
    operator: &Operator,
    row: &PlanRow,
) -> Result<Option<Meeting>, StoreFault>
    ensures value { IsHonest (S.doubt store.new) → IfOk result (λ conflict.
        conflict ≡ conflict_shown_in permitted.now (S.content store.old) operator.now row.now) }
    ensures reads { OnlyReads S.content S.doubt S.faults S.may_leave S.is_shielded store.old store.new }
    ensures cause { IfErr result (IsCounted S.faults store.old store.new) }
{
    if !row.usage.is_live() {
        return Ok(None);
    }
    conflict_of(
        alloc,
        store,
        permitted,
        operator,
        &row.id,
        &row.area,
        row.priority,
    )
}
