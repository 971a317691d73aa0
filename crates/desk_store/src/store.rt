//! Stores of plans, as a desk uses them. A store is asked what plans hold in extents. An extent is a slab: a
//! range of leaves along the S2 curve, in one range of altitudes and one of seconds. The answer is slabs,
//! each with the priority of the plan that holds it.

ghost use Rattle.std.specs.Prelude.{◌≡◌, ℕ, length, Option, IfOk, IfErr, OnOk, OnErr};
ghost use Rattle.desk_store.specs.Changes.{OnlyReads, Remembers};
ghost use Rattle.desk_store.specs.World.{IsContent, World, ceiling_of, plans_of, sizes_beside, stored_of, AreHeldByOthers, AreRivals, AreRivalsNear};
ghost use Rattle.desk_rules.specs.Outcome.{states_of};

use crate::change::Change;
use crate::fault::StoreFault;
use crate::sizes::Sizes;
use desk_rules::operator::Operator;
use desk_rules::plan::{PlanRow, States};
use desk_rules::plan_id::PlanId;
use volume4d::{Held, Slab};

/// Where a desk keeps its operators and plans.
///
/// A store may be on a disk, which may lose or change what was written. The results of a call are guaranteed
/// if the storage is still intact ("honest") as the call ends. In any case, a query, and a call that returns
/// an error, leaves the content unchanged. A call fails only if memory runs out or the storage fails.
///
/// Crash states are guaranteed for intact storage only. After a crash in a query, a start finds a state that
/// it could have found before; after one in a change, such a state or the changed content; and once a change
/// has succeeded, the changed content only. A change that failed may still be found by the next start, though
/// the running store doesn't show it.
///
/// In contracts, `IsHonest` says that the storage is intact, the clause `reads` that a call only reads, and
/// the clause `cause` that the store has counted an error that it returns as `Store`.
pub trait PlanStore {
    ghost use Rattle.desk_store.specs.{Changes.changed_by, Changes.IsFitting, Changes.IsHonest, Changes.IsCounted, World.LeavesOldOr, World.LeavesOnly};

    /// The operators and plans in the store.
    ghost content: { Self → World };

    /// 0 while the storage is intact: each read returned what was written. It never decreases.
    ghost doubt: { Self → ℕ };

    /// How many errors of its storage the store has met, up to the greatest number of 64 bits. It never
    /// decreases.
    ghost faults: { Self → ℕ };

    /// The states that a start can find if the program stops now, by a crash or otherwise; `None` is an
    /// invalid database. A clause about it holds for a crash within the call, too.
    ghost may_leave: { Self → Option World → Type 0 };

    /// Each later read is verified, so that changed data is accepted only if it passes the check. Each type
    /// of store defines its check.
    ghost is_shielded: { Self → Type 0 };

    /// The operator's ceiling, at most 1,000, or `None` if it is not enrolled. The clause `content` adds that
    /// all names, ids and volumes in the store are valid.
    fn ceiling(&mut self, operator: &Operator) -> Result<Option<u32>, StoreFault>
        ensures value { IsHonest (doubt self.new) →
            IfOk result (λ ceiling. ceiling ≡ ceiling_of operator.now (content self.old)) }
        ensures content { IsHonest (doubt self.new) → OnOk result (IsContent (content self.old)) }
        ensures reads { OnlyReads content doubt faults may_leave is_shielded self.old self.new }
        ensures cause { IfErr result (IsCounted faults self.old self.new) };

    /// A copy of the operator's plan with this id, or `None` if there is none.
    fn plan(&mut self, operator: &Operator, id: &PlanId) -> Result<Option<PlanRow>, StoreFault>
        ensures value { IsHonest (doubt self.new) →
            IfOk result (λ row. row ≡ stored_of id.now (plans_of operator.now (content self.old))) }
        ensures reads { OnlyReads content doubt faults may_leave is_shielded self.old self.new }
        ensures cause { IfErr result (IsCounted faults self.old self.new) };

    /// The usage of the operator's plan with this id and the state of its aircraft, or `None` if there is
    /// none.
    fn states(&mut self, operator: &Operator, id: &PlanId) -> Result<Option<States>, StoreFault>
        ensures value { IsHonest (doubt self.new) → IfOk result (λ found.
            found ≡ states_of (stored_of id.now (plans_of operator.now (content self.old)))) }
        ensures reads { OnlyReads content doubt faults may_leave is_shielded self.old self.new }
        ensures cause { IfErr result (IsCounted faults self.old self.new) };

    /// How many plans the operator has, closed ones included.
    fn own_count(&mut self, operator: &Operator) -> Result<u32, StoreFault>
        ensures value { IsHonest (doubt self.new) →
            IfOk result (λ count. count ≡ length (plans_of operator.now (content self.old))) }
        ensures reads { OnlyReads content doubt faults may_leave is_shielded self.old self.new }
        ensures cause { IfErr result (IsCounted faults self.old self.new) };

    /// The sizes of the operator's plans, without its plan with this id, if there is one: how many spans its
    /// live plans have, and how many cells all its plans have.
    fn own_sizes(&mut self, operator: &Operator, id: &PlanId) -> Result<Sizes, StoreFault>
        ensures value { IsHonest (doubt self.new) → IfOk result (λ sizes.
            sizes ≡ sizes_beside id.now (plans_of operator.now (content self.old))) }
        ensures reads { OnlyReads content doubt faults may_leave is_shielded self.old self.new }
        ensures cause { IfErr result (IsCounted faults self.old self.new) };

    /// The operator's plans, closed ones included: at most 200, ascending by id, each once. The clause
    /// `content` adds, as in `ceiling`, that all names, ids and volumes in the store are valid.
    fn own_plans(&mut self, operator: &Operator) -> Result<Vec<PlanRow>, StoreFault>
        ensures value { IsHonest (doubt self.new) →
            IfOk result (λ rows. rows.items ≡ plans_of operator.now (content self.old)) }
        ensures content { IsHonest (doubt self.new) → OnOk result (IsContent (content self.old)) }
        ensures reads { OnlyReads content doubt faults may_leave is_shielded self.old self.new }
        ensures cause { IfErr result (IsCounted faults self.old self.new) };

    /// Slabs that show what live plans hold in `extent`: those of all operators, but not the operator's own
    /// plan with this id. At each point of the extent, the greatest priority of the slabs there is the
    /// greatest that these plans hold there. If that is below `least`, no slab has the point. Outside the
    /// extent the slabs mean nothing.
    fn rivals(
        &mut self,
        operator: &Operator,
        id: &PlanId,
        least: u32,
        extent: &Slab,
    ) -> Result<Vec<Held>, StoreFault>
        ensures value { IsHonest (doubt self.new) → IfOk result (λ helds.
            AreRivals (content self.old) operator.now id.now least extent.now helds.items) }
        ensures reads { OnlyReads content doubt faults may_leave is_shielded self.old self.new }
        ensures cause { IfErr result (IsCounted faults self.old self.new) };

    /// As `rivals`, for several extents: slabs that show what live plans hold in them, without the operator's
    /// own plan with this id. At each point of an extent, the greatest priority of the slabs there is the
    /// greatest that these plans hold there. If that is below `least`, no slab has the point. Outside the
    /// extents the slabs mean nothing.
    fn rivals_near(
        &mut self,
        operator: &Operator,
        id: &PlanId,
        least: u32,
        extents: &[Slab],
    ) -> Result<Vec<Held>, StoreFault>
        ensures value { IsHonest (doubt self.new) → IfOk result (λ helds.
            AreRivalsNear (content self.old) operator.now id.now least extents.now helds.items) }
        ensures reads { OnlyReads content doubt faults may_leave is_shielded self.old self.new }
        ensures cause { IfErr result (IsCounted faults self.old self.new) };

    /// Slabs that show what the live plans of all other operators hold in `extents`. At each point of an
    /// extent, the greatest priority of the slabs there is the greatest that these operators hold there.
    /// Outside the extents the slabs mean nothing.
    fn held_by_others(
        &mut self,
        operator: &Operator,
        extents: &[Slab],
    ) -> Result<Vec<Held>, StoreFault>
        ensures value { IsHonest (doubt self.new) → IfOk result (λ helds.
            AreHeldByOthers (content self.old) operator.now extents.now helds.items) }
        ensures reads { OnlyReads content doubt faults may_leave is_shielded self.old self.new }
        ensures cause { IfErr result (IsCounted faults self.old self.new) };

    /// Makes the change, whole or not at all; an error changes nothing. While the storage is intact the
    /// change has to fit the content: the operator of a changed plan is enrolled, plans to close or to remove
    /// are stored, no id to remove is named twice, an operator gets at most 200 plans, and no ceiling or
    /// priority is above 1,000.
    // Long: callers cite each clause by itself.
    fn apply(&mut self, change: &Change) -> Result<(), StoreFault>
        requires { IsHonest (doubt self.old) → IsFitting change.now (content self.old) }
        ensures ok { IsHonest (doubt self.new) →
            OnOk result (content self.new ≡ changed_by change.now (content self.old)) }
        ensures err { OnErr result (content self.new ≡ content self.old) }
        ensures crash { IsHonest (doubt self.new) →
            LeavesOldOr (changed_by change.now (content self.old)) (may_leave self.old)
            (may_leave self.new) }
        ensures kept { IsHonest (doubt self.new) →
            OnOk result (LeavesOnly (content self.new) (may_leave self.new)) }
        ensures remembered { Remembers doubt faults is_shielded self.old self.new }
        ensures cause { IfErr result (IsCounted faults self.old self.new) };
}
