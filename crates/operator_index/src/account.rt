//! The entry of an operator in the index, its account: its ceiling, and the states and sizes of its plans.
//!
//! The states of a plan are its usage (planned, in use or closed) and the state of its aircraft. Its sizes
//! are how many spans it has (ranges of leaves along the S2 curve; none if it is closed) and how many cells.

ghost use Rattle.std.specs.Prelude.{◌≡◌, ◌<◌, ◌≤◌, ◌+◌, ◌^◌, ◌++◌, ◌∷◌, [], not, map, take, drop, length, IfOk, OnOk};
ghost use Rattle.std.specs.{List.filter, List.find, Option.option_map};
ghost use Rattle.operator_index.specs.Roll as spec;
ghost use Rattle.operator_index.specs.Roll.{HasRoomForOne, ceiling_after, close_if, state_has_any_id, state_cells_beside, state_spans_beside, counted_unless, or_else, plans_after, put_state, state_has_id, state_of};

use desk_rules::plan::{PlanRow, States};
use desk_rules::plan_id::PlanId;
use desk_rules::words::Usage;
use desk_store::{Change, Sizes};
use std::alloc::AllocError;
use std::cmp::Ordering;

/// The id of a plan, its usage and the state of its aircraft, and how many spans and cells it has.
#[derive(Clone, Copy, Debug)]
pub(crate) struct PlanState {
    id: PlanId,
    states: States,
    spans: u32,
    cells: u32,
}

impl PlanState {
    /// The id, states and sizes of the plan `row`.
    pub(crate) fn of(row: &PlanRow) -> PlanState
        ensures { result ≡ state_of row.now }
    {
        PlanState {
            id: row.id,
            states: row.states(),
            spans: row.span_count(),
            cells: row.cell_count(),
        }
    }

    // Whether the plan has this id.
    fn has_id(&self, id: &PlanId) -> bool
        ensures { result ≡ spec.state_has_id id.now self.now }
    {
        id.cmp(&self.id).is_eq()
    }

    // Whether the plan has one of these ids.
    fn has_any_id(&self, ids: &[PlanId]) -> bool
        ensures { result ≡ spec.state_has_any_id ids.now self.now }
    {
        ids.iter().any(|id| self.has_id(id))
    }

    // The plan closed, if it has this id: with the usage `Closed` and no spans. The state of its aircraft and
    // its cells stay. A plan with another id is returned unchanged.
    fn close_if(&self, id: &PlanId) -> PlanState
        ensures { result ≡ spec.close_if id.now self.now }
    {
        if !self.has_id(id) {
            return *self;
        }
        PlanState {
            id: self.id,
            states: States {
                usage: Usage::Closed,
                aircraft: self.states.aircraft,
            },
            spans: 0,
            cells: self.cells,
        }
    }

    // The sizes of the plan, or no spans and no cells if it has this id: sums leave that plan out.
    fn sizes_unless(&self, id: &PlanId) -> Sizes
        ensures spans { result.spans ≡ counted_unless (λ s. s.spans) id.now self.now }
        ensures cells { result.cells ≡ counted_unless (λ s. s.cells) id.now self.now }
    {
        if self.has_id(id) {
            return Sizes::none();
        }
        Sizes {
            spans: self.spans,
            cells: self.cells,
        }
    }
}

/// The entry of an operator: its ceiling, if it is enrolled, and its plans.
#[derive(Drop)]
pub(crate) struct OperatorEntry {
    // `None` if it is not enrolled
    pub(crate) ceiling: Option<u32>,
    // ascending by id
    pub(crate) plans: Vec<PlanState>,
}

impl OperatorEntry {
    /// The states of the plan with this id, or `None` if the operator has no such plan.
    pub(crate) fn states(&self, id: &PlanId) -> Option<States>
        ensures { result ≡ option_map (λ s. s.states) (find (state_has_id id.now) self.now.plans.items) }
    {
        let found = self.plans.iter().find(|plan| plan.has_id(id))?;
        Some(found.states)
    }

    /// The sizes of all the operator's plans together, without the plan with this id. A number that exceeds
    /// 32 bits becomes `u32::MAX`.
    pub(crate) fn sizes_beside(&self, id: &PlanId) -> Sizes
        ensures spans { state_spans_beside id.now self.now.plans.items < 2 ^ 32
            → result.spans ≡ state_spans_beside id.now self.now.plans.items }
        ensures cells { state_cells_beside id.now self.now.plans.items < 2 ^ 32
            → result.cells ≡ state_cells_beside id.now self.now.plans.items }
    {
        let mut sizes = Sizes::none();
        for plan in &self.plans {
            sizes = sizes.plus(plan.sizes_unless(id));
        }
        sizes
    }

    /// Sets the ceiling, unless the operator has one already: the first one stays.
    pub(crate) fn set_first_ceiling(&mut self, ceiling: u32)
        ensures ceiling { self.new.ceiling ≡ or_else self.old.ceiling ceiling }
        ensures plans { self.new.plans.items ≡ self.old.plans.items }
    {
        if self.ceiling.is_none() {
            self.ceiling = Some(ceiling);
        }
    }

    /// Appends the plan `row`. Its id has to come after those of the other plans, since they ascend by id.
    ///
    /// # Errors
    ///
    /// `AllocError` if memory runs out.
    pub(crate) fn append_plan(&mut self, row: &PlanRow) -> Result<(), AllocError>
        ensures ceiling { self.new.ceiling ≡ self.old.ceiling }
        ensures plans { OnOk result
            (self.new.plans.items ≡ self.old.plans.items ++ state_of row.now ∷ []) }
    {
        self.plans.push(PlanState::of(row))?;
        Ok(())
    }

    /// Reserves capacity for one more plan, which `apply_change` needs. The plans stay as they are, even if
    /// this fails.
    ///
    /// # Errors
    ///
    /// `AllocError` if memory runs out.
    pub(crate) fn make_room(&mut self) -> Result<(), AllocError>
        ensures ceiling { self.new.ceiling ≡ self.old.ceiling }
        ensures plans { self.new.plans.items ≡ self.old.plans.items }
        ensures room { OnOk result (HasRoomForOne self.new) }
    {
        self.plans.reserve(1)
    }

    /// Updates the entry after `change`, a change of this operator's ceiling or plans. `make_room` has
    /// reserved capacity for one more plan, so this can't fail.
    pub(crate) fn apply_change(&mut self, change: &Change)
        requires { HasRoomForOne self.old }
        ensures ceiling { self.new.ceiling ≡ ceiling_after change.now self.old.ceiling }
        ensures plans { self.new.plans.items ≡ plans_after change.now self.old.plans.items }
    {
        match change {
            Change::Enrol { ceiling, .. } => self.ceiling = Some(*ceiling),
            Change::Put { row, .. } => put(&mut self.plans, PlanState::of(row)),
            Change::Close { id, .. } => close(&mut self.plans, id),
            Change::Clear { ids, .. } => clear(&mut self.plans, ids),
        }
    }
}

// Replaces the plan with the id of `state`, or inserts it where its id belongs. There is capacity for it, so
// `insert` can't fail.
fn put(plans: &mut Vec<PlanState>, state: PlanState)
    requires { length plans.old.items + 1 ≤ plans.old.cap }
    ensures { plans.new.items ≡ put_state state plans.old.items }
{
    let at = place_of(plans, &state);
    if is_at(plans, at, &state) {
        plans[at] = state;
        return;
    }
    if let Err(refused) = plans.insert(at, state) {
        drop(refused);
    }
}

// The index at which `state` belongs among `plans`, which ascend by id: that of the first plan whose id is
// not less than that of `state`, or their number if there is none.
fn place_of(plans: &[PlanState], state: &PlanState) -> usize
    ensures within { result ≤ length plans.now }
    ensures place { put_state state.now plans.now
        ≡ take result plans.now ++ put_state state.now (drop result plans.now) }
    ensures next { spec.IsNotAfterFirst state.now (drop result plans.now) }
{
    let mut at = 0;
    while at < plans.len() && state.id.cmp(&plans[at].id) == Ordering::Greater {
        at += 1;
    }
    at
}

// Whether there is a plan at the index `at` and it has the id of `state`.
fn is_at(plans: &[PlanState], at: usize, state: &PlanState) -> bool
    ensures { result ≡ spec.first_has_id_of state.now (drop at plans.now) }
{
    plans.get(at).is_some_and(|plan| plan.has_id(&state.id))
}

// Closes the plan with this id, if there is one. The plan keeps its index.
fn close(plans: &mut Vec<PlanState>, id: &PlanId)
    ensures { plans.new.items ≡ map (close_if id.now) plans.old.items }
{
    let mut at = 0;
    while at < plans.len() {
        plans[at] = plans[at].close_if(id);
        at += 1;
    }
}

// Removes the plans with these ids. The others keep their order.
fn clear(plans: &mut Vec<PlanState>, ids: &[PlanId])
    ensures { plans.new.items ≡ filter (λ s. not (state_has_any_id ids.now s)) plans.old.items }
{
    plans.retain(|plan| !plan.has_any_id(ids));
}
