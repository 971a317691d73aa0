//! Desks: enrolling, planning, listing.

ghost use Rattle.std.specs.Prelude.{◌≡◌, ◌≢◌, IfOk};
ghost use Rattle.desk_rules.specs.Outcome.{said_in};
ghost use Rattle.desk_store.specs.Changes.{IsHonest};
ghost use Rattle.desk_run.specs.{Verdicts.enrolled, Verdicts.new_world, Verdicts.world_of, Calls.HoldAlike, Calls.OwnAlike};
ghost use Rattle.desk_examples.specs.Desks.{BlockAlike, IsPlanListed, IsPlanned};

use desk_rules::laws::{conflict_is_found, one_conflict};
use desk_rules::operator::Operator;
use desk_rules::plan::PutCall;
use desk_rules::words::Style;
use desk_run::{Asked, Call, Desk, DeskFault, Reply};
use desk_store::{ListStore, PlanStore};
use std::alloc::Global;

/// A desk over a list in memory, at which one operator is enrolled.
///
/// # Errors
///
/// `Ceiling` if the ceiling is above 1,000, `OutOfMemory` if memory runs out.
pub fn desk_for(
    alloc: Global,
    operator: &Operator,
    ceiling: u32,
) -> Result<Desk<ListStore>, DeskFault>
    ensures { IfOk result (λ desk. world_of (λ s. s) desk ≡ enrolled new_world operator.now ceiling) }
{
    let mut desk = Desk::new(ListStore::new(alloc));
    desk.enrol(operator, ceiling)?;
    Ok(desk)
}

/// Plans a flight, and lists the plans of its operator. What was planned is listed.
///
/// # Errors
///
/// Those of `Desk::call`.
pub fn plan_and_list<S: PlanStore>(
    alloc: Global,
    desk: &mut Desk<S>,
    moment: i64,
    operator: Operator,
    asked: PutCall,
) -> Result<(Reply, Reply), DeskFault>
    ensures { IsHonest (S.doubt desk.new.store) → asked.style ≢ Style.Hypothetical → IfOk result (λ replies.
        IsPlanned (said_in replies.0) → IsPlanListed asked (said_in replies.1)) }
{
    let put = Asked {
        operator,
        call: Call::Put(asked),
    };
    let planned = desk.call(alloc, moment, &put)?;
    let list = Asked {
        operator,
        call: Call::List,
    };
    Ok((planned, desk.call(alloc, moment, &list)?))
}

/// Asks what would be answered to a request to plan, which changes nothing.
///
/// # Errors
///
/// Those of `Desk::call`.
pub fn ask_first<S: PlanStore>(
    alloc: Global,
    desk: &mut Desk<S>,
    moment: i64,
    operator: Operator,
    mut asked: PutCall,
) -> Result<Reply, DeskFault>
    ensures { IsHonest (S.doubt desk.new.store) →
        world_of S.content desk.new ≡ world_of S.content desk.old }
{
    asked.style = Style::Hypothetical;
    let put = Asked {
        operator,
        call: Call::Put(asked),
    };
    desk.call(alloc, moment, &put)
}

/// Asks the same at two desks. If the operator owns the same at both, and others hold the same priorities at
/// each point, whatever their plans are, it is reported the same.
///
/// # Errors
///
/// Those of `Desk::call`.
pub fn ask_both<S: PlanStore, T: PlanStore>(
    alloc: Global,
    one: &mut Desk<S>,
    other: &mut Desk<T>,
    moment: i64,
    asked: &Asked,
) -> Result<(Reply, Reply), DeskFault>
    ensures { IsHonest (S.doubt one.new.store) → IsHonest (T.doubt other.new.store) →
        OwnAlike asked.now.operator (world_of S.content one.old) (world_of T.content other.old) →
        HoldAlike asked.now.operator (world_of S.content one.old) (world_of T.content other.old) →
        IfOk result (λ replies. said_in replies.0 ≡ said_in replies.1) }
{
    let reported = one.call(alloc, moment, asked)?;
    Ok((reported, other.call(alloc, moment, asked)?))
}

/// Asks for one plan at two desks. If the operator owns the same at both, and others hold the same where the
/// plan lies so far as it could block the plan, it is reported the same: plans of lower priority don't count.
///
/// # Errors
///
/// Those of `Desk::call`.
pub fn plan_at_both<S: PlanStore, T: PlanStore>(
    alloc: Global,
    one: &mut Desk<S>,
    other: &mut Desk<T>,
    moment: i64,
    operator: Operator,
    asked: PutCall,
) -> Result<(Reply, Reply), DeskFault>
    ensures { IsHonest (S.doubt one.new.store) → IsHonest (T.doubt other.new.store) →
        OwnAlike operator (world_of S.content one.old) (world_of T.content other.old) →
        BlockAlike operator asked (world_of S.content one.old) (world_of T.content other.old) →
        IfOk result (λ replies. said_in replies.0 ≡ said_in replies.1) }
{
    one_conflict();
    conflict_is_found();
    let put = Asked {
        operator,
        call: Call::Put(asked),
    };
    let reported = one.call(alloc, moment, &put)?;
    Ok((reported, other.call(alloc, moment, &put)?))
}
