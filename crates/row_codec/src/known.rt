//! What a store keeps of its plans in memory, so that it reads fewer rows. A plan is live until it is closed.

ghost use Rattle.std.specs.Prelude.{◌≡◌, [], length, IfOk, OnOk};
ghost use Rattle.std.specs.List.Sorted.{IsStrictlySortedBy};
ghost use Rattle.desk_store.specs.{World.World, World.filed_cmp, Changes.changed_by};
ghost use Rattle.live_index.specs.Live.{AreAddedBy, AreKeptOnce, HasRoomForVolumes};
ghost use Rattle.operator_index.specs.Roll.{AreAccountsOf, IsReadyFor, accounts_of};
ghost use Rattle.row_codec.specs.SpanBounds.{Knows, BringsKnown, Keeps};

use crate::exact::FiledPlan;
use crate::span_bounds::SpanBounds;
use desk_store::Change;
use live_index::{LiveIndex, LiveIndexBuilder, LiveVolume};
use operator_index::{ListedOperator, OperatorIndex};
use std::alloc::{AllocError, Global};

/// The indexes in memory: bounds of the spans of live plans, the volumes of live plans, and in `roll` the
/// operators with their ceilings and the ids, states (usage and aircraft) and sizes (spans and cells) of
/// their plans.
#[derive(Drop)]
pub struct MemoryIndex {
    pub span_bounds: SpanBounds,
    pub live: LiveIndex,
    pub roll: OperatorIndex,
}

impl MemoryIndex {
    /// The index of no operators and no plans.
    pub fn new(alloc: Global) -> MemoryIndex
        ensures { Knows result (record { operators = []; plans = [] }) }
    {
        MemoryIndex {
            span_bounds: SpanBounds::new(),
            live: LiveIndex::new(alloc),
            roll: OperatorIndex::new(alloc),
        }
    }

    /// Allocates what `update_after` needs for `change`, so that `update_after` can't fail; returns the live
    /// volumes that the change adds. The indexes stay those of the state before the change, also after an
    /// error.
    ///
    /// # Errors
    ///
    /// `AllocError` if memory runs out.
    pub fn prepare(&mut self, alloc: Global, change: &Change) -> Result<Vec<LiveVolume>, AllocError>
        ensures kept { (w : World) → Knows self.old w → Knows self.new w }
        ensures added { IfOk result (λ fresh. AreAddedBy change.now fresh.items) }
        ensures room { IfOk result (λ fresh. HasRoomForVolumes self.new.live (length fresh.items)) }
        ensures ready { OnOk result (IsReadyFor change.now self.new.roll) }
    {
        self.roll.prepare(alloc, change)?;
        self.live.prepare(alloc, change)
    }

    /// Updates the indexes to the state after `change`, for which `prepare` made room. `span_bounds` hold for
    /// each span for which the bounds before held, and for each that the change adds. `fresh` are the live
    /// volumes that it adds, as `prepare` returned them.
    pub fn update_after(&mut self, change: &Change, span_bounds: SpanBounds, fresh: &[LiveVolume])
        requires room { HasRoomForVolumes self.old.live (length fresh.now) }
        requires added { AreAddedBy change.now fresh.now }
        requires ready { IsReadyFor change.now self.old.roll }
        requires kept { Keeps self.old.span_bounds span_bounds }
        requires brings { BringsKnown span_bounds change.now }
        ensures { (w : World) → Knows self.old w → Knows self.new (changed_by change.now w) }
    {
        self.span_bounds = span_bounds;
        self.live.update_after(change, fresh);
        self.roll.update_after(change);
    }
}

/// The index of the volumes of those `plans` that are live. The contract says so if `plans` are ordered by
/// operator and id, none twice.
///
/// # Errors
///
/// `AllocError` if memory runs out.
pub fn live_index_of(alloc: Global, plans: &[FiledPlan]) -> Result<LiveIndex, AllocError>
    ensures { IfOk result (λ live. (w : World) → IsStrictlySortedBy filed_cmp w.plans
        → w.plans ≡ plans.now → AreKeptOnce live w) }
{
    let mut builder = LiveIndexBuilder::new(alloc);
    for plan in plans {
        builder.add(&plan.operator, &plan.row)?;
    }
    builder.finish(alloc)
}

/// The index of `operators`, with their ceilings, and of their `plans`. No order is required.
///
/// # Errors
///
/// `AllocError` if memory runs out.
pub fn operator_index_of(
    alloc: Global,
    operators: &[ListedOperator],
    plans: &[FiledPlan],
) -> Result<OperatorIndex, AllocError>
    ensures { IfOk result (λ roll. AreAccountsOf operators.now plans.now (accounts_of roll)) }
{
    let mut roll = roll_without_plans(alloc, operators)?;
    for plan in plans {
        roll.file(alloc, &plan.operator, &plan.row)?;
    }
    Ok(roll)
}

// The index of `operators`, with their ceilings, before any plan is added.
fn roll_without_plans(
    alloc: Global,
    operators: &[ListedOperator],
) -> Result<OperatorIndex, AllocError>
    ensures { IfOk result (λ roll. AreAccountsOf operators.now [] (accounts_of roll)) }
{
    let mut roll = OperatorIndex::new(alloc);
    for listed in operators {
        roll.list(alloc, &listed.operator, listed.ceiling)?;
    }
    Ok(roll)
}
