//! Deletes, which close a plan. But for `NoSuchPlan`, a function fails only if memory runs out or the store
//! fails.
//!
//! In contracts, `IsHonest` says that the storage is intact, the clause `reads` that a call only reads, and
//! the clause `cause` that the store has counted an error that is returned as `Store`.

ghost use Rattle.std.specs.Prelude.{◌≡◌, ◌≤◌, IsSome, IfErr};
ghost use Rattle.desk_run.specs.{Calls.IsStoreFaultCounted, Calls.IsPreparedFor, Verdicts.delete_ruling};
ghost use Rattle.desk_store.specs.{Changes.OnlyReads, Changes.IsHonest, World.ceiling_of, World.plans_of, World.stored_of};

use super::Pending;
use crate::fault::DeskFault;
use desk_rules::operator::Operator;
use desk_rules::plan_id::PlanId;
use desk_rules::reply::{PutReply, Reply};
use desk_rules::words::{PlanResult, PlanStatus};
use desk_store::{Change, PlanStore};

// Prepares the reply and the change that close an enrolled operator's plan. It may be closed already: then
// the reply is the same, and the change leaves all as it is. `NoSuchPlan` if the operator has no plan with
// this id.
pub fn prepare_delete<S: PlanStore>(
    store: &mut S,
    operator: &Operator,
    id: &PlanId,
) -> Result<Pending, DeskFault>
    requires { IsHonest (S.doubt store.old) →
        IsSome (ceiling_of operator.now (S.content store.old)) }
    ensures value { IsHonest (S.doubt store.new) → IsPreparedFor (S.content store.old) operator.now
        (delete_ruling (plans_of operator.now (S.content store.old)) id.now
        (stored_of id.now (plans_of operator.now (S.content store.old)))) result }
    ensures reads { OnlyReads S.content S.doubt S.faults S.may_leave S.is_shielded store.old store.new }
    ensures cause { IfErr result (IsStoreFaultCounted S.faults store.old store.new) }
{
    if store.states(operator, id)?.is_none() {
        return Err(DeskFault::NoSuchPlan);
    }
    Ok(Pending {
        reply: Reply::Answered(PutReply {
            result: PlanResult::Completed,
            status: PlanStatus::Closed,
            note: None,
            meeting: None,
        }),
        change: Some(Change::Close {
            operator: *operator,
            id: *id,
        }),
    })
}
