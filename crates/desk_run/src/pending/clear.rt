//! Clears: the removal of an operator's plans that share a point with a volume, the extent of the clear. A
//! function fails only if memory runs out or the store fails.
//!
//! In contracts, `IsHonest` says that the storage is intact, the clause `reads` that a call only reads, and
//! the clause `cause` that the store has counted an error that is returned as `Store`.

ghost use Rattle.std.specs.Prelude.{◌≡◌, ◌≤◌, ◌<◌, ◌^◌, ◌∷◌, [], length, IsSome, IfOk, IfErr};
ghost use Rattle.desk_run.specs.{Calls.IsStoreFaultCounted, Calls.IsClearing, Calls.IsPreparedFor, Calls.ids_in, Verdicts.clear_ruling, Verdicts.is_in};
ghost use Rattle.desk_store.specs.{Changes.OnlyReads, Changes.IsHonest, World.ceiling_of, World.plans_of};
ghost use Rattle.desk_rules.specs.Conflict.{AreSlabsOf};
ghost use Rattle.volume4d.specs.Volume.{Block};

use super::Pending;
use crate::fault::DeskFault;
use desk_rules::conflict::share_a_point;
use desk_rules::operator::Operator;
use desk_rules::plan::PlanRow;
use desk_rules::plan_id::PlanId;
use desk_rules::reply::Reply;
use desk_store::{Change, PlanStore};
use std::alloc::{AllocError, Global};
use volume4d::{Slab, Volume};

// Prepares the reply and the change that remove an enrolled operator's plans, closed ones too, that share a
// point with `extent`. The reply says how many they are. If there are none, there is no change.
pub fn prepare_clear<S: PlanStore>(
    alloc: Global,
    store: &mut S,
    operator: &Operator,
    extent: &Volume,
) -> Result<Pending, DeskFault>
    requires { IsHonest (S.doubt store.old) →
        IsSome (ceiling_of operator.now (S.content store.old)) }
    ensures value { IsHonest (S.doubt store.new) → IsPreparedFor (S.content store.old) operator.now
        (clear_ruling (plans_of operator.now (S.content store.old)) extent.now) result }
    ensures reads { OnlyReads S.content S.doubt S.faults S.may_leave S.is_shielded store.old store.new }
    ensures cause { IfErr result (IsStoreFaultCounted S.faults store.old store.new) }
{
    let rows = store.own_plans(operator)?;
    Ok(pending_clear(alloc, operator, &extent.slabs()?, &rows)?)
}

// The reply and the change that remove those of `rows`, the operator's plans, that share a point with an
// extent. `slabs` are the slabs of the extent. If there are no such plans, there is no change.
fn pending_clear(
    alloc: Global,
    operator: &Operator,
    slabs: &[Slab],
    rows: &[PlanRow],
) -> Result<Pending, AllocError>
    ensures { (extent : Block) → AreSlabsOf slabs.now (extent ∷ []) →
        IfOk result (IsClearing operator.now (ids_in extent rows.now)) }
{
    let ids = ids_sharing_point(alloc, slabs, rows)?;
    Ok(Pending {
        reply: Reply::Cleared(count_of(&ids)),
        change: (!ids.is_empty()).then_some(Change::Clear {
            operator: *operator,
            ids,
        }),
    })
}

// The ids of those of `rows` that share a point with the extent whose slabs are `slabs`, in the order of
// `rows`.
fn ids_sharing_point(
    alloc: Global,
    slabs: &[Slab],
    rows: &[PlanRow],
) -> Result<Vec<PlanId>, AllocError>
    ensures { (extent : Block) → AreSlabsOf slabs.now (extent ∷ []) →
        IfOk result (λ ids. ids.items ≡ ids_in extent rows.now) }
{
    let mut ids = Vec::new(alloc);
    for row in rows {
        if shares_point(slabs, row)? {
            ids.push(row.id)?;
        }
    }
    Ok(ids)
}

// Whether the plan `row`, closed or not, shares a point with the extent whose slabs are `slabs`.
fn shares_point(slabs: &[Slab], row: &PlanRow) -> Result<bool, AllocError>
    ensures { (extent : Block) → AreSlabsOf slabs.now (extent ∷ []) →
        IfOk result (λ found. found ≡ is_in extent row.now) }
{
    Ok(share_a_point(slabs, &row.area.slabs()?))
}

// The number of ids; `u32::MAX` if 32 bits can't count them.
fn count_of(ids: &[PlanId]) -> u32
    ensures { length ids.now < 2 ^ 32 → result ≡ length ids.now }
{
    u32::try_from(ids.len()).unwrap_or(u32::MAX)
}
