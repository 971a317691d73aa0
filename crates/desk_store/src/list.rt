//! A store in memory. It is asked what plans hold in extents, which are slabs: ranges of leaves along the S2
//! curve, each in one range of altitudes and one of seconds. In private functions, an `AllocError` says that
//! memory ran out.

ghost use Rattle.std.specs.Prelude.{◌≡◌, ◌+◌, ◌<◌, ◌≤◌, ◌^◌, ◌&&◌, ⊤, true, length, [], IfOk, OnOk, OnErr};
ghost use Rattle.std.specs.{List.Sorted.IsNonDecreasingBy, Ordering.is_eq};
ghost use Rattle.volume4d.specs.{Volume.Point, Slab.slabs_have, Slab.top_held};
ghost use Rattle.desk_rules.specs.{Conflict.at_least, Limits.max_plans, Outcome.states_of, Outcome.row_cells, Outcome.row_spans};
ghost use Rattle.desk_store.specs.World as world;
ghost use Rattle.desk_store.specs.World.{text_cmp, rows_by, cells_beside, count_unless, sizes_beside, spans_beside, stored_of, other_level, others_top, rival_level, rivals_top, HaveLevelNear, AddsLevelNear, AddsLevel, filed_of, filed_all, is_one_of, without, ceiling_at, count_at, with_count};
ghost use Rattle.desk_store.specs.Changes.{changed_by, IsFitting};
ghost use Rattle.desk_store.specs.declared.change.Change.TheVariants as change;

use crate::change::Change;
use crate::fault::StoreFault;
use crate::laws::{cells_are_few, spans_are_few};
use crate::limits::{name_is_valid, row_is_valid};
use crate::plan::Plan;
use crate::sizes::Sizes;
use crate::store::PlanStore;
use desk_rules::operator::Operator;
use desk_rules::plan::{PlanRow, States};
use desk_rules::plan_id::PlanId;
use std::alloc::{AllocError, Global};
use std::cmp::Ordering;
use std::collections::BTreeMap;
use std::marker::Model;
use std::slice;
use volume4d::{Held, Slab};

/// An enrolled operator's ceiling and the number of its plans, closed ones included.
#[derive(Clone, Copy, Debug)]
pub struct CeilingEntry {
    // the greatest priority that its plans may have
    ceiling: u32,
    // the number of its plans in the store
    plan_count: u32,
}

/// A store in ordered maps in memory. Its storage is always intact and never fails. The content is lost when
/// the program ends, so there are no crash states.
#[derive(Drop)]
pub struct ListStore {
    operators: BTreeMap<Operator, CeilingEntry>,
    plans: BTreeMap<(Operator, PlanId), Plan>,
    alloc: Global,
}

impl Model for ListStore {
    ghost use Rattle.desk_store.specs.World.{World};

    ghost Value = { World };

    ghost use Rattle.desk_store.specs.World.{world_in_lists, IsStore};

    ghost view = { λ s. world_in_lists s.operators.entries s.plans.entries };

    ghost invariant = { λ s. IsStore s.operators.entries s.plans.entries };
}

impl ListStore {
    /// A store without operators and plans, which takes its memory from `alloc`.
    pub fn new(alloc: Global) -> ListStore
        ensures { result ≡ record { operators = []; plans = [] } }
    {
        ListStore {
            operators: BTreeMap::new(alloc),
            plans: BTreeMap::new(alloc),
            alloc,
        }
    }
}

// The storage is memory: there is no doubt, no fault, and no state to find after a crash. A method fails only
// if memory runs out.
impl PlanStore for ListStore {
    ghost use Rattle.desk_store.specs.World.{World};

    ghost content = { λ s. s };

    ghost doubt = { λ _. 0 };

    ghost is_shielded = { λ _. ⊤ };

    ghost faults = { λ _. 0 };

    ghost may_leave = { λ _ _. ⊥ };

    // The operator's ceiling, or `None` if it is not enrolled. It never fails.
    fn ceiling(&mut self, operator: &Operator) -> Result<Option<u32>, StoreFault> {
        Ok(ceiling_in(&self.operators, operator))
    }

    // A copy of the operator's plan with this id, or `None` if there is none.
    fn plan(&mut self, operator: &Operator, id: &PlanId) -> Result<Option<PlanRow>, StoreFault> {
        Ok(find_plan(&self.plans, operator, id)?)
    }

    // The states of the operator's plan with this id, or `None` if there is none. It never fails.
    fn states(&mut self, operator: &Operator, id: &PlanId) -> Result<Option<States>, StoreFault> {
        Ok(find_states(&self.plans, operator, id))
    }

    // How many plans the operator has, closed ones included; 0 if it is not enrolled. It never fails.
    fn own_count(&mut self, operator: &Operator) -> Result<u32, StoreFault> {
        Ok(count_in(&self.operators, operator))
    }

    // The sizes of the operator's plans, without the one with this id: spans of live plans, cells of all. It
    // never fails.
    fn own_sizes(&mut self, operator: &Operator, id: &PlanId) -> Result<Sizes, StoreFault> {
        // By these laws, the sums fit 32 bits.
        spans_are_few();
        cells_are_few();
        Ok(sizes_of(&self.plans, operator, id))
    }

    // Copies of the operator's plans, ascending by id.
    fn own_plans(&mut self, operator: &Operator) -> Result<Vec<PlanRow>, StoreFault> {
        Ok(rows_of(self.alloc, &self.plans, operator)?)
    }

    // As `rivals_near`, with one extent.
    fn rivals(
        &mut self,
        operator: &Operator,
        id: &PlanId,
        least: u32,
        extent: &Slab,
    ) -> Result<Vec<Held>, StoreFault> {
        self.rivals_near(operator, id, least, slice::from_ref(extent))
    }

    // The slabs of live plans of priority `least` or more that overlap an extent, without those of the
    // operator's plan with this id.
    fn rivals_near(
        &mut self,
        operator: &Operator,
        id: &PlanId,
        least: u32,
        extents: &[Slab],
    ) -> Result<Vec<Held>, StoreFault> {
        Ok(rivals_of(self.alloc, &self.plans, operator, id, least, extents)?)
    }

    // All slabs of the live plans of other operators; none if there are no extents.
    fn held_by_others(
        &mut self,
        operator: &Operator,
        extents: &[Slab],
    ) -> Result<Vec<Held>, StoreFault> {
        Ok(others_in(self.alloc, &self.plans, operator, extents)?)
    }

    // Makes the change. If memory runs out, nothing changes.
    fn apply(&mut self, change: &Change) -> Result<(), StoreFault> {
        match change {
            Change::Enrol { operator, ceiling } => self.enrol(*operator, *ceiling)?,
            Change::Put { operator, row } => self.put(*operator, row.copy()?)?,
            Change::Close { operator, id } => self.close(operator, id),
            Change::Clear { operator, ids } => self.clear(operator, ids),
        }
        Ok(())
    }
}

impl ListStore {
    // Enrols an operator with a ceiling, or replaces its ceiling. Its plans stay. If memory runs out, nothing
    // changes.
    fn enrol(&mut self, operator: Operator, ceiling: u32) -> Result<(), AllocError>
        requires { IsFitting (change.Enrol operator ceiling) self.old }
        ensures ok { OnOk result (self.new ≡ changed_by (change.Enrol operator ceiling) self.old) }
        ensures err { OnErr result (self.new ≡ self.old) }
    {
        // This states that the name is valid, which the store's invariant demands.
        name_is_valid(&operator);
        let plan_count = count_in(&self.operators, &operator);
        self.operators.insert(
            operator,
            CeilingEntry {
                ceiling,
                plan_count,
            },
        )?;
        Ok(())
    }

    // Stores a row of an operator, in place of the plan with its id, if there is one. A new plan is counted.
    // If memory runs out, nothing changes.
    fn put(&mut self, operator: Operator, row: PlanRow) -> Result<(), AllocError>
        requires { IsFitting (change.Put operator row) self.old }
        ensures ok { OnOk result (self.new ≡ changed_by (change.Put operator row) self.old) }
        ensures err { OnErr result (self.new ≡ self.old) }
    {
        // This states that the row is valid, which the store's invariant demands.
        row_is_valid(&row);
        let id = row.id;
        let plan = Plan::try_new(row)?;
        let before = self.plans.insert((operator, id), plan)?;
        if before.is_none() {
            let count = count_in(&self.operators, &operator) + 1;
            set_count(&mut self.operators, &operator, count);
        }
        Ok(())
    }

    // Closes the operator's plan with this id. It stays in the store. The caller has to know that there is
    // one.
    fn close(&mut self, operator: &Operator, id: &PlanId)
        requires { IsFitting (change.Close operator.now id.now) self.old }
        ensures { self.new ≡ changed_by (change.Close operator.now id.now) self.old }
    {
        if let Some(plan) = self.plans.get_mut(&(*operator, *id)) {
            plan.close();
        }
    }

    // Removes the operator's plans with these ids, and sets the number of its plans anew.
    fn clear(&mut self, operator: &Operator, ids: &Vec<PlanId>)
        requires { IsFitting (change.Clear operator.now ids.now) self.old }
        ensures { self.new ≡ changed_by (change.Clear operator.now ids.now) self.old }
    {
        remove_all(&mut self.plans, operator, ids);
        let count = count_of(&self.plans, operator);
        set_count(&mut self.operators, operator, count);
    }
}

// The enrolled operators, by name.
type Operators = BTreeMap<Operator, CeilingEntry>;

// All plans, by operator and id.
type Plans = BTreeMap<(Operator, PlanId), Plan>;

// The operator's ceiling; `None` if it is not enrolled.
fn ceiling_in(operators: &Operators, operator: &Operator) -> Option<u32>
    ensures { result ≡ ceiling_at operator.now operators.now.entries }
{
    operators.get(operator).map(|enrolment| enrolment.ceiling)
}

// The number of plans in the operator's entry; 0 if it is not enrolled.
fn count_in(operators: &Operators, operator: &Operator) -> u32
    ensures { result ≡ count_at operator.now operators.now.entries }
{
    operators
        .get(operator)
        .map_or(0, |enrolment| enrolment.plan_count)
}

// Sets the number of plans in the operator's entry. If the operator is not enrolled, nothing changes.
fn set_count(operators: &mut Operators, operator: &Operator, count: u32)
    ensures { operators.new.entries ≡ with_count operator.now count operators.old.entries }
{
    if let Some(enrolment) = operators.get_mut(operator) {
        enrolment.plan_count = count;
    }
}

// Removes the operator's plans with these ids.
fn remove_all(plans: &mut Plans, operator: &Operator, ids: &[PlanId])
    ensures { plans.new.entries ≡ without operator.now ids.now plans.old.entries }
{
    plans.retain(|key, _| !is_among(operator, ids, key));
}

// A copy of the operator's plan with this id as a row, or `None` if there is none; `AllocError` if memory
// runs out.
fn find_plan(plans: &Plans, operator: &Operator, id: &PlanId) -> Result<Option<PlanRow>, AllocError>
    ensures { IfOk result (λ row.
        row ≡ stored_of id.now (rows_by operator.now (filed_all plans.now.entries))) }
{
    match plans.get(&(*operator, *id)) {
        Some(plan) => Ok(Some(plan.row(*id)?)),
        None => Ok(None),
    }
}

// The states of the operator's plan with this id, or `None` if there is none.
fn find_states(plans: &Plans, operator: &Operator, id: &PlanId) -> Option<States>
    ensures { result ≡ states_of
        (stored_of id.now (rows_by operator.now (filed_all plans.now.entries))) }
{
    let plan = plans.get(&(*operator, *id))?;
    Some(plan.states())
}

// Counts the operator's plans, closed ones included. There are at most 200.
fn count_of(plans: &Plans, operator: &Operator) -> u32
    requires { length (rows_by operator.now (filed_all plans.now.entries)) ≤ max_plans }
    ensures { result ≡ length (rows_by operator.now (filed_all plans.now.entries)) }
{
    let mut count = 0;
    for (key, _) in plans {
        if is_by(operator, key) {
            count += 1;
        }
    }
    count
}

// The sizes of the operator's plans, without the plan with the id `id`. The sums have to fit 32 bits.
fn sizes_of(plans: &Plans, operator: &Operator, id: &PlanId) -> Sizes
    requires spans { spans_beside id.now (rows_by operator.now (filed_all plans.now.entries)) < 2 ^ 32 }
    requires cells { cells_beside id.now (rows_by operator.now (filed_all plans.now.entries)) < 2 ^ 32 }
    ensures { result ≡ sizes_beside id.now (rows_by operator.now (filed_all plans.now.entries)) }
{
    let mut sizes = Sizes::none();
    for (key, plan) in plans {
        if is_by(operator, key) {
            sizes = sizes.plus(sizes_unless(id, key, plan));
        }
    }
    sizes
}

// The sizes of `plan`, whose operator and id are `key`; no spans and no cells if the plan's id is `id`.
fn sizes_unless(id: &PlanId, key: &(Operator, PlanId), plan: &Plan) -> Sizes
    ensures spans { result.spans ≡ count_unless row_spans id.now (filed_of (key.now, plan.now)).row }
    ensures cells { result.cells ≡ count_unless row_cells id.now (filed_of (key.now, plan.now)).row }
{
    match id.cmp(&key.1) {
        Ordering::Equal => Sizes::none(),
        _ => plan.sizes(),
    }
}

// Copies of the operator's plans as rows, ascending by id; `AllocError` if memory runs out.
fn rows_of(alloc: Global, plans: &Plans, operator: &Operator) -> Result<Vec<PlanRow>, AllocError>
    ensures { IfOk result (λ rows.
        rows.items ≡ rows_by operator.now (filed_all plans.now.entries)) }
{
    let mut rows = Vec::new(alloc);
    for (key, plan) in plans {
        if is_by(operator, key) {
            rows.push(plan.row(key.1)?)?;
        }
    }
    Ok(rows)
}

// The slabs of live plans of priority `least` or more that overlap one of `extents`, without those of the
// operator's plan with this id. They ascend by first leaf, so that one pass can compare them with a plan's.
// The list takes its memory from `alloc`.
fn rivals_of(
    alloc: Global,
    plans: &Plans,
    operator: &Operator,
    id: &PlanId,
    least: u32,
    extents: &[Slab],
) -> Result<Vec<Held>, AllocError>
    ensures { IfOk result (λ helds. HaveLevelNear extents.now helds.items
        (λ x. at_least least (rivals_top operator.now id.now (filed_all plans.now.entries) x))) }
{
    let mut helds = Vec::new(alloc);
    for (key, plan) in plans {
        if plan.may_meet(extents) {
            push_rival(&mut helds, operator, id, least, extents, key, plan)?;
        }
    }
    Ok(in_order(helds))
}

/// Sorts slabs by their first leaves, so that one pass can compare them with a plan's. The greatest priority
/// at each point stays as it is.
pub fn in_order(mut helds: Vec<Held>) -> Vec<Held>
    ensures same { (x : Point) → top_held result.items x ≡ top_held helds.items x }
    ensures order { IsNonDecreasingBy (λ h. h.slab.first) result.items }
{
    helds.sort_unstable_by_key(|held| held.slab.first);
    helds
}

// Appends the slabs of `plan` that overlap one of `extents`, unless it is closed, is the operator's own plan
// with this id, or has a priority below `least`. `key` is the plan's operator and id.
fn push_rival(
    helds: &mut Vec<Held>,
    operator: &Operator,
    id: &PlanId,
    least: u32,
    extents: &[Slab],
    key: &(Operator, PlanId),
    plan: &Plan,
) -> Result<(), AllocError>
    ensures { OnOk result (AddsLevelNear extents.now helds.old.items helds.new.items
        (λ x. at_least least (rival_level operator.now id.now (filed_of (key.now, plan.now)) x))) }
{
    if is_own(operator, id, key) {
        return Ok(());
    }
    if !plan.is_rival(least) {
        return Ok(());
    }
    plan.push_near(helds, extents)
}

// All slabs of the live plans of other operators, inside and outside `extents`; none if there are no extents.
// The list takes its memory from `alloc`.
fn others_in(
    alloc: Global,
    plans: &Plans,
    operator: &Operator,
    extents: &[Slab],
) -> Result<Vec<Held>, AllocError>
    ensures { IfOk result (λ helds. (x : Point) → slabs_have extents.now x ≡ true →
        top_held helds.items x ≡ others_top operator.now (filed_all plans.now.entries) x) }
{
    if extents.is_empty() {
        return Ok(Vec::new(alloc));
    }
    let mut helds = Vec::new(alloc);
    for (key, plan) in plans {
        push_other(&mut helds, operator, key, plan)?;
    }
    Ok(helds)
}

// Appends the slabs of `plan` if it is live and another operator's. `key` is the plan's operator and id.
fn push_other(
    helds: &mut Vec<Held>,
    operator: &Operator,
    key: &(Operator, PlanId),
    plan: &Plan,
) -> Result<(), AllocError>
    ensures { OnOk result (AddsLevel helds.old.items helds.new.items
        (other_level operator.now (filed_of (key.now, plan.now)))) }
{
    if is_by(operator, key) {
        return Ok(());
    }
    plan.push_if_live(helds)
}

// Whether the plan with this key (its operator and id) belongs to the operator.
fn is_by(operator: &Operator, key: &(Operator, PlanId)) -> bool
    ensures { result ≡ is_eq (text_cmp operator.now key.now.0) }
{
    operator.cmp(&key.0).is_eq()
}

// Whether the plan with this key (its operator and id) is the operator's plan with the id `id`.
fn is_own(operator: &Operator, id: &PlanId, key: &(Operator, PlanId)) -> bool
    ensures { result ≡
        (is_eq (text_cmp operator.now key.now.0) && is_eq (text_cmp id.now key.now.1)) }
{
    is_by(operator, key) && id.cmp(&key.1).is_eq()
}

// Whether the plan with this key (its operator and id) is one of the operator's plans with these ids.
fn is_among(operator: &Operator, ids: &[PlanId], key: &(Operator, PlanId)) -> bool
    ensures { result ≡ is_one_of operator.now ids.now key.now }
{
    ids.iter().any(|id| is_own(operator, id, key))
}
