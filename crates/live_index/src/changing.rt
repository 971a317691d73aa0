//! The effect of a change on a list of volumes of live plans. A live plan is planned or in use, not closed.

ghost use Rattle.std.specs.Prelude.{◌≡◌, ◌≤◌, ◌+◌, ◌++◌, length, IfOk, OnOk};
ghost use Rattle.std.specs.List.{filter};
ghost use Rattle.desk_store.specs.Changes.{filed_by};
ghost use Rattle.live_index.specs.Live.{AddsLivePlan, AreAddedBy, is_of_other_plan};
ghost use Rattle.live_index.specs.Live as spec;

use crate::volume::LiveVolume;
use desk_rules::operator::Operator;
use desk_rules::plan::PlanRow;
use desk_rules::plan_id::PlanId;
use desk_store::Change;
use std::alloc::{AllocError, Global};

/// Appends an entry for each volume of the operator's plan `row`, if the plan is live; else nothing.
///
/// # Errors
///
/// `AllocError` if memory runs out; some of the volumes may have been appended then.
pub(crate) fn push_plan(
    volumes: &mut Vec<LiveVolume>,
    operator: &Operator,
    row: &PlanRow,
) -> Result<(), AllocError>
    ensures { OnOk result (AddsLivePlan (filed_by operator.now row.now) volumes.old.items
        volumes.new.items) }
{
    if row.usage.is_live() {
        push_area(volumes, operator, row)
    } else {
        Ok(())
    }
}

// Appends an entry for each volume of the operator's plan `row`, whether it is live or not. If memory runs
// out, some may have been appended.
fn push_area(
    volumes: &mut Vec<LiveVolume>,
    operator: &Operator,
    row: &PlanRow,
) -> Result<(), AllocError>
    ensures { OnOk result (spec.AddsLiveVolumes (filed_by operator.now row.now) row.now.area
        volumes.old.items volumes.new.items) }
{
    for volume in row.area.volumes() {
        volumes.push(LiveVolume::try_new(operator, row, volume)?)?;
    }
    Ok(())
}

/// The volumes that a change adds: those of the plan that it puts, if that is live. Other changes add none.
///
/// # Errors
///
/// `AllocError` if memory runs out.
pub(crate) fn volumes_added_by(
    alloc: Global,
    change: &Change,
) -> Result<Vec<LiveVolume>, AllocError>
    ensures { IfOk result (λ fresh. AreAddedBy change.now fresh.items) }
{
    let mut fresh = Vec::new(alloc);
    if let Change::Put { operator, row } = change {
        push_plan(&mut fresh, operator, row)?;
    }
    Ok(fresh)
}

/// Removes from `volumes` those of the operator's plan with this id. The others keep their order, and the
/// capacity of the list stays.
pub(crate) fn remove_plan_volumes(volumes: &mut Vec<LiveVolume>, operator: &Operator, id: &PlanId)
    ensures items { volumes.new.items ≡ filter (is_of_other_plan operator.now id.now) volumes.old.items }
    ensures room { volumes.new.cap ≡ volumes.old.cap }
    ensures fewer { length volumes.new.items ≤ length volumes.old.items }
{
    volumes.retain(|live| !live.is_of(operator, id));
}

/// Appends the volumes `fresh` to `volumes`. The caller has reserved capacity for them, so that it can't
/// fail.
pub(crate) fn push_all(volumes: &mut Vec<LiveVolume>, fresh: &[LiveVolume])
    requires { length volumes.old.items + length fresh.now ≤ volumes.old.cap }
    ensures { volumes.new.items ≡ volumes.old.items ++ fresh.now }
{
    for live in fresh {
        volumes.push_reserved(*live);
    }
}
