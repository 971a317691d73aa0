//! The conflicts of all of an operator's plans, with each other and with other operators' plans, which are
//! read once. A plan's conflict is its first point at which another live plan blocks it. A slab has the
//! points of a range of leaves in one range of altitudes and one of seconds. A function fails only if memory
//! runs out or the store fails.
//!
//! In contracts, `IsHonest` says that the storage is intact, the clause `reads` that a call only reads, and
//! the clause `cause` that the store has counted an error that is returned as `Store`.

ghost use Rattle.std.specs.Prelude.{◌≡◌, ◌≤◌, ℕ, Option, true, map, IfOk, IfErr, OnOk};
ghost use Rattle.desk_store.specs.{Changes.OnlyReads, Changes.IsHonest, Changes.IsCounted, World.held, World.held_at};
ghost use Rattle.volume4d.specs.{Volume.Point, Sweep.Ascend};
ghost use Rattle.desk_rules.specs.{Conflict.at_least, Outcome.row_holds};
ghost use Rattle.desk_run.specs.{HeldAmong.AddLevelAt, HeldAmong.HaveAll, HeldAmong.HaveLevelAt, HeldAmong.own_top, HeldAmong.some_hold, Verdicts.conflict_shown, Verdicts.shown_plan};

use super::conflict::least_of;
use super::own::OwnPlan;
use desk_rules::decide::status_of;
use desk_rules::operator::Operator;
use desk_rules::permission::Permitted;
use desk_rules::plan::PlanRow;
use desk_rules::reply::Shown;
use desk_store::{PlanStore, StoreFault, in_order};
use std::alloc::{AllocError, Global};
use volume4d::{Held, Meeting, Slab};

// The plans of `rows`, in their order, each with the slabs that it holds (a closed one holds none).
pub fn own_plans(alloc: Global, rows: &[PlanRow]) -> Result<Vec<OwnPlan>, AllocError>
    ensures { IfOk result (λ plans. plans.items ≡ rows.now) }
{
    let mut plans = Vec::new(alloc);
    for row in rows {
        plans.push(OwnPlan::try_new(alloc, row.copy()?)?)?;
    }
    Ok(plans)
}

// Slabs of other operators' live plans, each with its priority. At each point that one of `plans`, the
// operator's own, holds, their greatest priority is the greatest that other operators hold there. Elsewhere
// they mean nothing.
pub fn others_near<S: PlanStore>(
    alloc: Global,
    store: &mut S,
    operator: &Operator,
    plans: &[OwnPlan],
) -> Result<Vec<Held>, StoreFault>
    ensures value { IsHonest (S.doubt store.new) → IfOk result (λ helds.
        HaveLevelAt (some_hold plans.now) helds.items (held (S.content store.old) operator.now)) }
    ensures reads { OnlyReads S.content S.doubt S.faults S.may_leave S.is_shielded store.old store.new }
    ensures cause { IfErr result (IsCounted S.faults store.old store.new) }
{
    let extents = extents_of(alloc, plans)?;
    store.held_by_others(operator, &extents)
}

// Slabs for which to ask the store: together they have every point that one of `plans` holds, and maybe
// others.
fn extents_of(alloc: Global, plans: &[OwnPlan]) -> Result<Vec<Slab>, AllocError>
    ensures { IfOk result (λ extents. HaveAll (some_hold plans.now) extents.items) }
{
    let mut extents = Vec::new(alloc);
    for plan in plans {
        plan.push_extents(&mut extents)?;
    }
    Ok(extents)
}

// All of an operator's `plans` as they are shown to it, in their order, each with its conflict. `others` are
// slabs of other operators, as `others_near` returns them.
pub fn all_shown(
    alloc: Global,
    permitted: &Permitted,
    plans: &[OwnPlan],
    others: &[Held],
) -> Result<Vec<Shown>, AllocError>
    ensures { (levels : Point → Option ℕ) → HaveLevelAt (some_hold plans.now) others.now levels
        → IfOk result (λ all. all.items ≡ map (shown_plan permitted.now plans.now levels) plans.now) }
{
    let mut all = Vec::new(alloc);
    for plan in plans {
        all.push(shown_among(alloc, permitted, plan, plans, others)?)?;
    }
    Ok(all)
}

// `plan`, one of the operator's `plans`, as it is shown, with its conflict; `others` as in `all_shown`.
fn shown_among(
    alloc: Global,
    permitted: &Permitted,
    plan: &OwnPlan,
    plans: &[OwnPlan],
    others: &[Held],
) -> Result<Shown, AllocError>
    ensures { (levels : Point → Option ℕ) → HaveLevelAt (row_holds plan.now) others.now levels
        → IfOk result (λ shown. shown ≡ shown_plan permitted.now plans.now levels plan.now) }
{
    let conflict = conflict_among(alloc, permitted, plan, plans, others)?;
    let row = plan.row();
    Ok(Shown {
        row: row.copy()?,
        status: status_of(Some(row)),
        conflict,
    })
}

// The conflict of `plan` with the operator's other `plans` and with `others` (as in `all_shown`); `None` if
// it has none, or is closed.
fn conflict_among(
    alloc: Global,
    permitted: &Permitted,
    plan: &OwnPlan,
    plans: &[OwnPlan],
    others: &[Held],
) -> Result<Option<Meeting>, AllocError>
    ensures { (levels : Point → Option ℕ) → HaveLevelAt (row_holds plan.now) others.now levels
        → IfOk result (λ conflict. conflict ≡ conflict_shown permitted.now plans.now levels plan.now) }
{
    let row = plan.row();
    if !row.usage.is_live() {
        return Ok(None);
    }
    let least = least_of(permitted, row.priority);
    let theirs = blocking_slabs(alloc, plan, plans, others, least)?;
    Ok(plan.conflict_with(&theirs))
}

// The slabs that may block `plan`, ascending by first leaf: those of the operator's other plans and of
// `others` that have the priority `least` or more and may share a point with `plan`.
fn blocking_slabs(
    alloc: Global,
    plan: &OwnPlan,
    plans: &[OwnPlan],
    others: &[Held],
    least: u32,
) -> Result<Vec<Held>, AllocError>
    ensures { (levels : Point → Option ℕ) → HaveLevelAt (row_holds plan.now) others.now levels
        → IfOk result (λ theirs. HaveLevelAt (row_holds plan.now) theirs.items
        (λ x. at_least least (held_at plans.now levels plan.now.id x))) }
{
    let mut theirs = Vec::new(alloc);
    plan.push_others(&mut theirs, others, least)?;
    push_own(&mut theirs, plan, plans, least)?;
    Ok(in_order(theirs))
}

// Appends to `theirs` the slabs of the operator's `plans` but `mine` that have the priority `least` or more
// and may share a point with `mine`.
fn push_own(
    theirs: &mut Vec<Held>,
    mine: &OwnPlan,
    plans: &[OwnPlan],
    least: u32,
) -> Result<(), AllocError>
    ensures { OnOk result (AddLevelAt (row_holds mine.now) theirs.old.items theirs.new.items
        (λ x. at_least least (own_top mine.now.id plans.now x))) }
{
    for plan in plans {
        plan.push_blocking(theirs, mine, least)?;
    }
    Ok(())
}
