//! Requests to plan, decided over a store. A verdict has the result of a request, and its effect on the
//! stored plan. A conflict is the first point of a plan at which another live plan blocks it. A function
//! fails only if memory runs out or the store fails.
//!
//! In contracts, `IsHonest` says that the storage is intact, the clause `reads` that a call only reads, and
//! the clause `cause` that the store has counted an error that is returned as `Store`.

ghost use Rattle.std.specs.Prelude.{◌≡◌, ◌+◌, ◌≤◌, length, Option, Some, None, true, false, cond, IfOk, IfErr};
ghost use Rattle.desk_run.specs.{Calls.IsStoreFaultCounted, Calls.IsPreparedFor, Calls.change_after, Verdicts.put_ruling, Verdicts.put_verdict_in, Verdicts.excess_asked, Verdicts.row_asked, Verdicts.conflict_in};
ghost use Rattle.desk_store.specs.{Changes.OnlyReads, Changes.IsHonest, Changes.IsCounted, World.own, World.ceiling_of, World.plans_of, World.stored_of, World.held};
ghost use Rattle.desk_rules.specs.{Limits.max_priority, Outcome.outcome_under, Outcome.is_check, Outcome.states_of, Outcome.step_from};
ghost use Rattle.volume4d.specs.Sweep.{Spot};

use super::Pending;
use super::conflict::conflict_of;
use crate::fault::DeskFault;
use desk_rules::decide::{Effect, Standing, Verdict, decide_under};
use desk_rules::operator::Operator;
use desk_rules::permission::Permitted;
use desk_rules::plan::{PlanRow, PutCall, States};
use desk_rules::plan_id::PlanId;
use desk_rules::reply::{PutReply, Reply};
use desk_rules::terms::{Excess, Terms};
use desk_rules::transition::{Step, transition_from};
use desk_store::{Change, PlanStore, StoreFault};
use std::alloc::{AllocError, Global};
use volume4d::Meeting;

// Prepares the reply to `put`, a request to plan at `moment` (a Unix second), and its change. The operator is
// enrolled with `ceiling`, the greatest priority that its plans may have.
pub fn prepare_put<S: PlanStore>(
    alloc: Global,
    store: &mut S,
    terms: &Terms,
    moment: i64,
    operator: &Operator,
    put: &PutCall,
    ceiling: u32,
) -> Result<Pending, DeskFault>
    requires listed { IsHonest (S.doubt store.old) →
        ceiling_of operator.now (S.content store.old) ≡ Some ceiling }
    requires low { IsHonest (S.doubt store.old) → ceiling ≤ max_priority }
    ensures value { IsHonest (S.doubt store.new) → IsPreparedFor (S.content store.old) operator.now
        (put_ruling
        (put_verdict_in terms.now (S.content store.old) operator.now ceiling moment put.now)
        put.now (plans_of operator.now (S.content store.old))) result }
    ensures reads { OnlyReads S.content S.doubt S.faults S.may_leave S.is_shielded store.old store.new }
    ensures cause { IfErr result (IsStoreFaultCounted S.faults store.old store.new) }
{
    let verdict = verdict_on(alloc, store, terms, moment, operator, put, ceiling)?;
    let change = change_for(verdict.effect, operator, put)?;
    let reply = Reply::Answered(reply_of(&verdict));
    Ok(Pending { reply, change })
}

// The part of a verdict that is reported to the operator.
fn reply_of(verdict: &Verdict) -> PutReply
    ensures { result ≡ record {
      result = verdict.now.result;
      status = verdict.now.status;
      note = verdict.now.note;
      meeting = verdict.now.meeting;
    } }
{
    PutReply {
        result: verdict.result,
        status: verdict.status,
        note: verdict.note,
        meeting: verdict.meeting,
    }
}

// The verdict on `put`, a request to plan at `moment` (a Unix second) by the operator, which is enrolled with
// `ceiling`. The store is asked for conflicts last, and only if the verdict depends on one.
fn verdict_on<S: PlanStore>(
    alloc: Global,
    store: &mut S,
    terms: &Terms,
    moment: i64,
    operator: &Operator,
    put: &PutCall,
    ceiling: u32,
) -> Result<Verdict, StoreFault>
    ensures verdict { IsHonest (S.doubt store.new) → IfOk result (λ v.
        v ≡ put_verdict_in terms.now (S.content store.old) operator.now ceiling moment
        put.now) }
    ensures reads { OnlyReads S.content S.doubt S.faults S.may_leave S.is_shielded store.old store.new }
    ensures cause { IfErr result (IsCounted S.faults store.old store.new) }
{
    let (stored, own_rows) = states_and_count(store, operator, &put.id)?;
    let excess = excess_with(store, terms, operator, put)?;
    let standing = Standing {
        own_rows,
        ceiling,
        excess,
    };
    let needed = depends_on_conflict(put, moment, stored, &standing);
    let meeting = conflict_if(alloc, needed, store, &terms.permitted, operator, put)?;
    Ok(decide_under(put, moment, stored, &standing, meeting))
}

// Whether the verdict on `put` depends on a conflict: nothing else refuses the request (the verdict has no
// note), and the state table has it checked for conflicts. `stored` are the states of the operator's plan
// with this id, or `None` if there is none.
#[tactic(auto, using(crate::proofs::OutcomeLemmas::settled))]
fn depends_on_conflict(
    put: &PutCall,
    moment: i64,
    stored: Option<States>,
    standing: &Standing,
) -> bool
    ensures settled { result ≡ false → (conflict : Option Spot) →
        outcome_under put.now moment stored standing.now conflict
        ≡ outcome_under put.now moment stored standing.now None }
    ensures unrefused { result ≡ true →
        (outcome_under put.now moment stored standing.now None).note ≡ None }
    ensures checked { result ≡ true → is_check (step_from stored put.now) ≡ true }
{
    let verdict = decide_under(put, moment, stored, standing, None);
    verdict.note.is_none() && is_checked(transition_from(stored, put))
}

// Whether a conflict may refuse a request for which the state table has this step: `Check` alone.
fn is_checked(step: Step) -> bool
    ensures { result ≡ is_check step }
{
    matches!(step, Step::Check(_))
}

// The conflict of the requested area, or `None` if it has none. If it isn't `needed`, the store is not asked,
// and the result is `None`.
fn conflict_if<S: PlanStore>(
    alloc: Global,
    needed: bool,
    store: &mut S,
    permitted: &Permitted,
    operator: &Operator,
    put: &PutCall,
) -> Result<Option<Meeting>, StoreFault>
    ensures value { IsHonest (S.doubt store.new) → IfOk result (λ meeting.
        meeting ≡ cond needed (conflict_in permitted.now (S.content store.old) operator.now
        put.now.id put.now.area put.now.priority) None) }
    ensures reads { OnlyReads S.content S.doubt S.faults S.may_leave S.is_shielded store.old store.new }
    ensures cause { IfErr result (IsCounted S.faults store.old store.new) }
{
    if !needed {
        return Ok(None);
    }
    conflict_of(
        alloc,
        store,
        permitted,
        operator,
        &put.id,
        &put.area,
        put.priority,
    )
}

// The states of the operator's plan with this id, or `None` if there is none, and how many plans the operator
// has. The number is only needed, and read, if there is no such plan; otherwise 0 is in its place.
fn states_and_count<S: PlanStore>(
    store: &mut S,
    operator: &Operator,
    id: &PlanId,
) -> Result<(Option<States>, u32), StoreFault>
    ensures stored { IsHonest (S.doubt store.new) → IfOk result (λ own.
        own.0 ≡ states_of (stored_of id.now (plans_of operator.now (S.content store.old)))) }
    ensures count { IsHonest (S.doubt store.new) → IfOk result (λ own. own.0 ≡ None →
        own.1 ≡ length (plans_of operator.now (S.content store.old))) }
    ensures reads { OnlyReads S.content S.doubt S.faults S.may_leave S.is_shielded store.old store.new }
    ensures cause { IfErr result (IsCounted S.faults store.old store.new) }
{
    let stored = store.states(operator, id)?;
    if stored.is_some() {
        return Ok((stored, 0));
    }
    Ok((stored, store.own_count(operator)?))
}

// Which limits, on spans and on cells, the operator's plans would exceed with the requested one in place of
// the stored one. If neither has a limit, the store is not asked.
fn excess_with<S: PlanStore>(
    store: &mut S,
    terms: &Terms,
    operator: &Operator,
    put: &PutCall,
) -> Result<Excess, StoreFault>
    ensures value { IsHonest (S.doubt store.new) → IfOk result (λ excess.
        excess ≡ excess_asked terms.now (plans_of operator.now (S.content store.old)) put.now) }
    ensures reads { OnlyReads S.content S.doubt S.faults S.may_leave S.is_shielded store.old store.new }
    ensures cause { IfErr result (IsCounted S.faults store.old store.new) }
{
    if terms.spans.is_none() && terms.cells.is_none() {
        return Ok(Excess::none());
    }
    let others = store.own_sizes(operator, &put.id)?;
    Ok(terms.excess(
        u64::from(others.spans) + u64::from(put.area.span_count()),
        u64::from(others.cells) + u64::from(put.area.cell_count()),
    ))
}

// The change to the store by which the request `put` has this effect; `None` if the effect is `Nothing`.
fn change_for(
    effect: Effect,
    operator: &Operator,
    put: &PutCall,
) -> Result<Option<Change>, AllocError>
    ensures { IfOk result (λ change. change ≡ change_after effect operator.now put.now) }
{
    let operator = *operator;
    match effect {
        Effect::Nothing => Ok(None),
        Effect::Save => Ok(Some(Change::Put {
            operator,
            row: asked_row(put)?,
        })),
        Effect::Shut => Ok(Some(Change::Close {
            operator,
            id: put.id,
        })),
    }
}

// The plan that `put` requests, as a row to be stored.
fn asked_row(put: &PutCall) -> Result<PlanRow, AllocError>
    ensures { IfOk result (λ row. row ≡ row_asked put.now) }
{
    Ok(PlanRow {
        id: put.id,
        priority: put.priority,
        usage: put.usage,
        aircraft: put.aircraft,
        area: put.area.copy()?,
    })
}
