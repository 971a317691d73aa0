//! Changes made at a store.

ghost use Rattle.std.specs.Prelude.{◌≡◌, ◌≤◌, ◌∷◌, [], IfOk, IsSome, IsTrue};
ghost use Rattle.desk_rules.specs.Limits.{max_priority};
ghost use Rattle.desk_store.specs.{Changes.AreDistinct, Changes.AreStored, Changes.IsHonest, Changes.IsFitting, World.ceiling_of, World.plans_of};
ghost use Rattle.desk_store.specs.declared.change.Change.TheVariants as change;

use crate::desks::MOMENT;
use crate::stops::act::Act;
use anyhow::bail;
use desk_rules::call::Asked;
use desk_rules::operator::Operator;
use desk_rules::plan::PlanRow;
use desk_rules::plan_id::PlanId;
use desk_run::Desk;
use desk_store::{Change, PlanStore, StoreFault};
use std::alloc::Global;

/// The greatest ceiling and the greatest priority, and the most plans of an operator.
const MAX_PRIORITY: u32 = 1_000;

const MAX_PLANS: u32 = 200;

/// Makes a change: the store afterwards, and whether the change was answered.
pub fn make<S: PlanStore>(alloc: Global, mut store: S, act: &Act) -> (S, anyhow::Result<bool>) {
    match act {
        Act::Apply(change) => {
            let answered = apply(&mut store, change);
            (store, answered)
        }
        Act::ClearBoth {
            operator,
            one,
            other,
        } => {
            let answered = clear_both(alloc, &mut store, operator, one, other);
            (store, answered)
        }
        Act::Enrol { operator, ceiling } => enrol(store, operator, *ceiling),
        Act::Call(asked) => call(alloc, store, asked),
    }
}

// Enrols an operator at a desk.
fn enrol<S: PlanStore>(store: S, operator: &Operator, ceiling: u32) -> (S, anyhow::Result<bool>) {
    let mut desk = Desk::new(store);
    let answered = desk.enrol(operator, ceiling).is_ok();
    (desk.into_store(), Ok(answered))
}

// Makes a call to a desk.
fn call<S: PlanStore>(alloc: Global, store: S, asked: &Asked) -> (S, anyhow::Result<bool>) {
    let mut desk = Desk::new(store);
    let answered = desk.call(alloc, MOMENT.second, asked).is_ok();
    (desk.into_store(), Ok(answered))
}

// Makes a change at a store, which it has to fit.
fn apply<S: PlanStore>(store: &mut S, change: &Change) -> anyhow::Result<bool> {
    match fits(store, change) {
        Ok(true) => Ok(store.apply(change).is_ok()),
        Ok(false) => bail!("a change that doesn't fit the content"),
        Err(_) => Ok(false),
    }
}

// Takes two plans of an operator out of a store, which have to be there.
fn clear_both<S: PlanStore>(
    alloc: Global,
    store: &mut S,
    operator: &Operator,
    one: &PlanId,
    other: &PlanId,
) -> anyhow::Result<bool> {
    let ids = vec![in alloc; *one, *other]?;
    match has_both(store, operator, one, other) {
        Ok(true) => {
            let operator = *operator;
            Ok(store.apply(&Change::Clear { operator, ids }).is_ok())
        }
        Ok(false) => bail!("two plans that are not there"),
        Err(_) => Ok(false),
    }
}

// Whether a change of a kind but a clear fits the content of a store.
fn fits<S: PlanStore>(store: &mut S, change: &Change) -> Result<bool, StoreFault>
    ensures value { IsHonest (S.doubt store.new) → IfOk result (λ yes. IsTrue yes →
        IsFitting change.now (S.content store.new)) }
    ensures doubt { S.doubt store.old ≤ S.doubt store.new }
{
    match change {
        Change::Enrol { ceiling, .. } => Ok(is_priority(*ceiling)),
        Change::Put { operator, row } => fits_put(store, operator, row),
        Change::Close { operator, id } => fits_close(store, operator, id),
        Change::Clear { .. } => Ok(false),
    }
}

fn is_priority(number: u32) -> bool
    ensures { IsTrue result → number ≤ max_priority }
{
    number <= MAX_PRIORITY
}

fn fits_put<S: PlanStore>(
    store: &mut S,
    operator: &Operator,
    row: &PlanRow,
) -> Result<bool, StoreFault>
    ensures value { IsHonest (S.doubt store.new) → IfOk result (λ yes. IsTrue yes →
        IsFitting (change.Put operator.now row.now) (S.content store.new)) }
    ensures doubt { S.doubt store.old ≤ S.doubt store.new }
{
    if row.priority > MAX_PRIORITY {
        return Ok(false);
    }
    if store.ceiling(operator)?.is_none() {
        return Ok(false);
    }
    if store.own_count(operator)? >= MAX_PLANS {
        return Ok(false);
    }
    Ok(true)
}

fn fits_close<S: PlanStore>(
    store: &mut S,
    operator: &Operator,
    id: &PlanId,
) -> Result<bool, StoreFault>
    ensures value { IsHonest (S.doubt store.new) → IfOk result (λ yes. IsTrue yes →
        IsFitting (change.Close operator.now id.now) (S.content store.new)) }
    ensures same { S.content store.new ≡ S.content store.old }
    ensures doubt { S.doubt store.old ≤ S.doubt store.new }
{
    if store.ceiling(operator)?.is_none() {
        return Ok(false);
    }
    if store.plan(operator, id)?.is_none() {
        return Ok(false);
    }
    Ok(true)
}

// Whether an operator has two plans of these ids.
fn has_both<S: PlanStore>(
    store: &mut S,
    operator: &Operator,
    one: &PlanId,
    other: &PlanId,
) -> Result<bool, StoreFault>
    ensures value { IsHonest (S.doubt store.new) → IfOk result (λ yes. IsTrue yes →
        IsSome (ceiling_of operator.now (S.content store.new))
        × AreStored (one.now ∷ other.now ∷ []) (plans_of operator.now (S.content store.new))
        × AreDistinct (one.now ∷ other.now ∷ [])) }
    ensures doubt { S.doubt store.old ≤ S.doubt store.new }
{
    if one.cmp(other).is_eq() {
        return Ok(false);
    }
    if !fits_close(store, operator, one)? {
        return Ok(false);
    }
    if !fits_close(store, operator, other)? {
        return Ok(false);
    }
    Ok(true)
}
