//! Calls over a store that fails.

ghost use Rattle.std.specs.Prelude.{◌≡◌, ◌≤◌, ◌<◌, ◌-◌, ◌^◌, ⊤, Err, OnOk, OnErr, IfErr};

use crate::given::{FIRST_PUT, ID, MOMENT, desk_of_alfa};
use desk_rules::call::{Asked, Call};
use desk_rules::operator::Operator;
use desk_rules::plan::{PlanRow, States};
use desk_rules::plan_id::PlanId;
use desk_rules::words::Aircraft::{Nominal, OffNominal};
use desk_rules::words::Style::{Hypothetical, IfAllowed, InReality};
use desk_rules::words::Usage::{Closed, InUse, Planned};
use desk_rules::words::{Aircraft, Style, Usage};
use desk_run::{Desk, DeskFault};
use desk_store::{Change, ListStore, PlanStore, Sizes, StoreFault};
use desk_wire::read_request;
use std::alloc::Global;
use std::process::Abort;
use std::test::Fail;
use volume4d::{Held, Slab};

/// A store in memory whose calls fail once so many are made, with the number of plans asked for whole.
#[derive(Drop)]
struct Failing {
    list: ListStore,
    calls_left: u32,
    whole_plans: u32,
    fault_count: u64,
}

/// Fails where no call is left, with the count risen.
fn fail_at(calls_left: &mut u32, fault_count: &mut u64) -> Result<(), StoreFault>
    ensures counted { fault_count.old ≤ fault_count.new }
    ensures cause { IfErr result (λ e. fault_count.new < 2 ^ 64 - 1 → fault_count.old < fault_count.new) }
{
    if *calls_left == 0 {
        *fault_count = fault_count.saturating_add(1);
        return Err(StoreFault::Store);
    }
    *calls_left -= 1;
    Ok(())
}

impl PlanStore for Failing {
    ghost content = { λ s. s.list };

    ghost doubt = { λ _. 0 };

    ghost is_shielded = { λ _. ⊤ };

    ghost faults = { λ s. s.fault_count };

    ghost may_leave = { λ _ _. ⊥ };

    fn ceiling(&mut self, operator: &Operator) -> Result<Option<u32>, StoreFault> {
        fail_at(&mut self.calls_left, &mut self.fault_count)?;
        self.list.ceiling(operator)
    }

    fn plan(&mut self, operator: &Operator, id: &PlanId) -> Result<Option<PlanRow>, StoreFault> {
        fail_at(&mut self.calls_left, &mut self.fault_count)?;
        self.whole_plans = self.whole_plans.saturating_add(1);
        self.list.plan(operator, id)
    }

    fn states(&mut self, operator: &Operator, id: &PlanId) -> Result<Option<States>, StoreFault> {
        fail_at(&mut self.calls_left, &mut self.fault_count)?;
        self.list.states(operator, id)
    }

    fn own_count(&mut self, operator: &Operator) -> Result<u32, StoreFault> {
        fail_at(&mut self.calls_left, &mut self.fault_count)?;
        self.list.own_count(operator)
    }

    fn own_sizes(&mut self, operator: &Operator, id: &PlanId) -> Result<Sizes, StoreFault> {
        fail_at(&mut self.calls_left, &mut self.fault_count)?;
        self.list.own_sizes(operator, id)
    }

    fn own_plans(&mut self, operator: &Operator) -> Result<Vec<PlanRow>, StoreFault> {
        fail_at(&mut self.calls_left, &mut self.fault_count)?;
        self.list.own_plans(operator)
    }

    fn rivals(
        &mut self,
        operator: &Operator,
        id: &PlanId,
        least: u32,
        extent: &Slab,
    ) -> Result<Vec<Held>, StoreFault> {
        fail_at(&mut self.calls_left, &mut self.fault_count)?;
        self.list.rivals(operator, id, least, extent)
    }

    fn rivals_near(
        &mut self,
        operator: &Operator,
        id: &PlanId,
        least: u32,
        extents: &[Slab],
    ) -> Result<Vec<Held>, StoreFault> {
        fail_at(&mut self.calls_left, &mut self.fault_count)?;
        self.list.rivals_near(operator, id, least, extents)
    }

    fn held_by_others(
        &mut self,
        operator: &Operator,
        extents: &[Slab],
    ) -> Result<Vec<Held>, StoreFault> {
        fail_at(&mut self.calls_left, &mut self.fault_count)?;
        self.list.held_by_others(operator, extents)
    }

    fn apply(&mut self, change: &Change) -> Result<(), StoreFault> {
        fail_at(&mut self.calls_left, &mut self.fault_count)?;
        self.list.apply(change)
    }
}

/// A desk over a list whose calls fail once so many are made.
fn desk_over(list: ListStore, calls_left: u32) -> Desk<Failing> {
    Desk::new(Failing {
        list,
        calls_left,
        whole_plans: 0,
        fault_count: 0,
    })
}

#[test]
fn an_operator_is_not_enrolled(rt: HostRuntime) -> Result<(), Fail> {
    let bravo = Operator::try_new(b"bravo").ok_or("a name")?;
    let mut desk = desk_over(ListStore::new(rt.alloc()), 0);
    assert_eq!(rt; desk.enrol(&bravo, 9), Err(DeskFault::Store));
    let mut store = desk.into_store();
    assert_eq!(rt; store.fault_count, 1);
    assert_eq!(rt; store.list.ceiling(&bravo), Ok(None));
    Ok(())
}

/// The requests of `alfa` to plan, to close that plan, and for the status.
fn calls_of(alloc: Global) -> Result<Vec<(i64, Asked)>, Fail> {
    let put = read_request(alloc, FIRST_PUT)?.copy()?;
    let operator = put.operator;
    let id = PlanId::try_parse(ID).ok_or("an id")?;
    let delete = Asked {
        operator,
        call: Call::Delete(id),
    };
    let status = Asked {
        operator,
        call: Call::Status,
    };
    let second = MOMENT.second;
    Ok(vec![in alloc; (second, put), (second, delete), (second, status)]?)
}

/// How the plan of `alfa` is used, if it is stored.
fn usage_in(list: &mut ListStore) -> Result<Option<Usage>, Fail> {
    let alfa = Operator::try_new(b"alfa").ok_or("a name")?;
    let id = PlanId::try_parse(ID).ok_or("an id")?;
    match list.plan(&alfa, &id)? {
        Some(row) => Ok(Some(row.usage)),
        None => Ok(None),
    }
}

/// What came of a run over a store that failed: how many requests were answered, why the run stopped, how
/// many faults the store counted, how many plans were read whole, and how the plan is used after.
#[derive(Clone, Copy)]
struct FailedRun {
    outcomes: usize,
    stopped: Option<DeskFault>,
    faults: u64,
    whole_plans: u32,
    usage: Option<Usage>,
}

/// Runs the requests at a desk whose store fails once so many calls are made.
fn run_until(alloc: Global, calls: &[(i64, Asked)], calls_left: u32) -> Result<FailedRun, Fail> {
    let mut desk = desk_over(desk_of_alfa(alloc)?.into_store(), calls_left);
    let ran = desk.run(alloc, calls)?.copy()?;
    let mut store = desk.into_store();
    Ok(FailedRun {
        outcomes: ran.outcomes.len(),
        stopped: ran.stopped,
        faults: store.fault_count,
        whole_plans: store.whole_plans,
        usage: usage_in(&mut store.list)?,
    })
}

/// Runs the requests at a desk whose store fails once so many calls are made, and compares how many of
/// them are answered and how the plan is used after.
fn check_run(
    rt: &impl Abort,
    alloc: Global,
    calls: &[(i64, Asked)],
    row: (u32, usize, Option<Usage>),
) -> Result<(), Fail> {
    let (calls_left, answered, usage) = row;
    let ran = run_until(alloc, calls, calls_left)?;
    assert_eq!(rt; ran.outcomes, answered, "{calls_left}");
    assert_eq!(rt; ran.stopped.is_some(), answered < 3, "{calls_left}");
    assert!(rt; matches!(ran.stopped, None | Some(DeskFault::Store)));
    assert_eq!(rt; ran.faults, u64::from(answered < 3));
    assert_eq!(rt; ran.whole_plans, 0);
    assert_eq!(rt; ran.usage, usage, "{calls_left}");
    Ok(())
}

// A request for a new plan asks the store for the ceiling, the states of the plan, the count and the
// rivals, and changes it; one to delete a plan asks for the ceiling and the states, and changes it; one for
// the status asks for the ceiling. None asks for a whole plan. The plan's cell has 2^58 leaves, so that its
// rivals are asked for in four pieces, of 2^40 leaves and then 64 times as many each time.
#[test]
fn a_run_stops_where_the_store_fails(rt: HostRuntime) -> Result<(), Fail> {
    let calls = calls_of(rt.alloc())?;
    for row in [
        (0, 0, None),
        (1, 0, None),
        (2, 0, None),
        (3, 0, None),
        (4, 0, None),
        (6, 0, None),
        (7, 0, None),
        (8, 1, Some(Usage::Planned)),
        (9, 1, Some(Usage::Planned)),
        (10, 1, Some(Usage::Planned)),
        (11, 2, Some(Usage::Closed)),
        (12, 3, Some(Usage::Closed)),
    ] {
        check_run(&rt, rt.alloc(), &calls, row)?;
    }
    Ok(())
}

/// The request of `alfa` to plan, in this style and for these states.
fn request_for(alloc: Global, states: (Style, Usage, Aircraft)) -> Result<Asked, Fail> {
    let mut asked = read_request(alloc, FIRST_PUT)?.copy()?;
    if let Call::Put(put) = &mut asked.call {
        put.style = states.0;
        put.usage = states.1;
        put.aircraft = states.2;
    }
    Ok(asked)
}

/// A list in which `alfa` is enrolled and, if so asked, has the plan.
fn list_of_alfa(alloc: Global, has_plan: bool) -> Result<ListStore, Fail> {
    let request = read_request(alloc, FIRST_PUT)?;
    let mut desk = desk_of_alfa(alloc)?;
    let is_made = !has_plan || desk.call(alloc, MOMENT.second, &request).is_ok();
    let list = desk.into_store();
    if is_made {
        Ok(list)
    } else {
        Err("the plan isn't put".into())
    }
}

/// Makes a request at a desk whose store fails once so many calls are made: whether it is answered, how many
/// calls are left, and how many plans were read whole.
fn call_at(
    alloc: Global,
    has_plan: bool,
    states: (Style, Usage, Aircraft),
    calls: u32,
) -> Result<(bool, u32, u32), Fail> {
    let asked = request_for(alloc, states)?;
    let mut desk = desk_over(list_of_alfa(alloc, has_plan)?, calls);
    let is_answered = desk.call(alloc, MOMENT.second, &asked).is_ok();
    let store = desk.into_store();
    Ok((is_answered, store.calls_left, store.whole_plans))
}

/// Makes a request at a desk whose store fails once so many calls are made: it is answered, no call is left,
/// and no plan was read whole.
fn check_calls(
    rt: &impl Abort,
    alloc: Global,
    row: (bool, (Style, Usage, Aircraft), u32),
) -> Result<(), Fail> {
    let (has_plan, states, calls) = row;
    let (is_answered, calls_left, whole_plans) = call_at(alloc, has_plan, states, calls)?;
    assert!(rt; is_answered);
    assert_eq!(rt; calls_left, 0);
    assert_eq!(rt; whole_plans, 0);
    Ok(())
}

// Each request asks for the ceiling and the states of the plan, and for the number of plans where that plan
// is not stored. Only one that is checked, and that nothing else refuses, asks for rivals, in four pieces;
// one that is refused, or that is hypothetical, changes nothing.
#[test]
fn a_request_asks_for_no_more_than_it_needs(rt: HostRuntime) -> Result<(), Fail> {
    for row in [
        (false, (IfAllowed, Planned, Nominal), 8),
        (false, (Hypothetical, Planned, Nominal), 7),
        (false, (IfAllowed, InUse, OffNominal), 3),
        (true, (IfAllowed, InUse, Nominal), 7),
        (true, (Hypothetical, InUse, Nominal), 6),
        (true, (InReality, InUse, OffNominal), 3),
        (true, (IfAllowed, Closed, Nominal), 3),
        (true, (InReality, InUse, Nominal), 2),
        (true, (IfAllowed, Planned, OffNominal), 2),
    ] {
        check_calls(&rt, rt.alloc(), row)?;
    }
    Ok(())
}
