//! Conflicts of an operator's plans with stored plans. A plan's conflict is its first point, by leaf along
//! the S2 curve, then altitude, then second, at which another live plan blocks it. A function fails only if
//! memory runs out or the store fails. (The call of the law `conflict_among_slabs` does nothing: it makes the
//! law known to the prover.)
//!
//! In contracts, `IsHonest` says that the storage is intact, the clause `reads` that a call only reads, and
//! the clause `cause` that the store has counted an error that is returned as `Store`.

ghost use Rattle.std.specs.Prelude.{◌≡◌, ◌≤◌, ◌^◌, IfOk, IfErr};
ghost use Rattle.desk_store.specs.Changes.{OnlyReads, IsHonest, IsCounted};
ghost use Rattle.desk_rules.specs.Limits.{least_blocking};
ghost use Rattle.desk_run.specs.Verdicts.{conflict_in};

use super::pieces::first_among;
use desk_rules::laws::conflict_among_slabs;
use desk_rules::operator::Operator;
use desk_rules::permission::Permitted;
use desk_rules::plan_id::PlanId;
use desk_store::{PlanStore, StoreFault};
use std::alloc::Global;
use volume4d::{Area, Meeting, Slab};

// A gap between two slabs of a plan is wide if it is more than this fraction (1 in 64) of the leaves from the
// first slab to the last. So a plan has fewer than 64 gaps that are wide by this rule.
const GAP_DIVISOR: u64 = 64;

// A gap of more leaves than a cell of level 6 has is wide, too. A store over tables starts to read about that
// far before an extent, so for two extents it reads no more than for one that includes the gap.
const MAX_GAP: u64 = 1 << 48;

// The conflict that the operator's plan `id` would have with other live plans, its own and others', with this
// area and priority. `None` if it would have none. A stored plan with this id doesn't count.
pub fn conflict_of<S: PlanStore>(
    alloc: Global,
    store: &mut S,
    permitted: &Permitted,
    operator: &Operator,
    id: &PlanId,
    area: &Area,
    priority: u32,
) -> Result<Option<Meeting>, StoreFault>
    ensures value { IsHonest (S.doubt store.new) → IfOk result (λ meeting.
        meeting ≡ conflict_in permitted.now (S.content store.old) operator.now id.now area.now
        priority) }
    ensures reads { OnlyReads S.content S.doubt S.faults S.may_leave S.is_shielded store.old store.new }
    ensures cause { IfErr result (IsCounted S.faults store.old store.new) }
{
    let mine = area.slabs()?;
    conflict_among_slabs();
    first_among(alloc, store, permitted, operator, id, &mine, priority)
}

// How many leaves after the end of one of `slabs` another may begin and still count as close to it: a 64th of
// the leaves from the first to the last, and at most a cell of level 6. `slabs` are a plan's, and ascend by
// their first leaves. 0 for less than two.
pub fn wide_gap(slabs: &[Slab]) -> u64
    ensures { result ≤ 2 ^ 48 }
{
    match slabs {
        [first, .., last] => (last.first.saturating_sub(first.first) / GAP_DIVISOR).min(MAX_GAP),
        _ => 0,
    }
}

// The least priority of other plans that blocks a plan of `priority` at a shared point: `priority` itself, or
// one more if plans of this priority may share points.
pub fn least_of(permitted: &Permitted, priority: u32) -> u32
    ensures { result ≡ least_blocking permitted.now priority }
{
    if permitted.has(priority) {
        priority + 1
    } else {
        priority
    }
}
