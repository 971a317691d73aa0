//! The settings at the beginning of a journal file, the desk's terms: they are set at the desk that replays
//! it. After an error the desk and `progress` are unchanged.

ghost use Rattle.std.specs.Prelude.{◌≡◌};
ghost use Rattle.desk_store.specs.Changes.{IsHonest, Remembers};
ghost use Rattle.desk_wire.specs.Streams.{course};
ghost use Rattle.desk_replay.specs.Replaying.{StepsAt, begun, cell_limit_outcome, listed, permitted, span_limit_outcome};

use crate::fault::ReplayFault;
use crate::progress::{Progress, may_follow};
use desk_rules::decide::MAX_PRIORITY;
use desk_rules::operator::Operator;
use desk_rules::permission::Permitted;
use desk_rules::terms::{MAX_SPANS, MAX_TOTAL_CELLS, Terms};
use desk_run::Desk;
use desk_store::PlanStore;
use std::alloc::Global;

/// The version of the format.
const VERSION: &[u8] = b"1";

/// Begins the journal file `number`: removes all settings, and notes of an unanswered request that this file
/// has to repeat it. `NoRecord` if `version` isn't the format's, else `NotNext` if `number` isn't the next
/// one.
#[tactic(auto, unfolding(crate::specs::Replaying::begun))]
pub(crate) fn begin_journal<S: PlanStore>(
    alloc: Global,
    desk: &mut Desk<S>,
    progress: &mut Progress,
    number: u64,
    version: &[u8],
) -> Result<(), ReplayFault>
    ensures steps { StepsAt S.content result (λ s. begun s number version.now) (course desk.old desk.new)
        (course progress.old progress.new) }
    ensures store { desk.new.store ≡ desk.old.store }
{
    if version != VERSION {
        return Err(ReplayFault::NoRecord);
    }
    if !may_follow(progress.record, number) {
        return Err(ReplayFault::NotNext);
    }
    desk.set_terms(Terms::none());
    progress.record = Some(number);
    progress.permitted = Vec::new(alloc);
    progress.terms = Terms::none();
    if let Some(asking) = &mut progress.asking {
        asking.reopened = true;
    }
    Ok(())
}

/// Permits the `priority`: plans of it may overlap each other. `NoRecord` if it is above 1,000, not greater
/// than the one permitted before it, or the 33rd; `OutOfMemory` if memory runs out.
#[tactic(auto, unfolding(crate::specs::Replaying::permitted))]
pub(crate) fn permit<S: PlanStore>(
    desk: &mut Desk<S>,
    progress: &mut Progress,
    priority: u64,
) -> Result<(), ReplayFault>
    ensures steps { StepsAt S.content result (λ s. permitted s priority) (course desk.old desk.new)
        (course progress.old progress.new) }
    ensures store { desk.new.store ≡ desk.old.store }
{
    if priority > u64::from(MAX_PRIORITY) {
        return Err(ReplayFault::NoRecord);
    }
    if progress.permitted.push(priority as u32).is_err() {
        return Err(ReplayFault::OutOfMemory);
    }
    let Ok(permitted) = Permitted::try_new(&progress.permitted) else {
        progress.permitted.pop();
        return Err(ReplayFault::NoRecord);
    };
    progress.terms.permitted = permitted;
    desk.set_terms(progress.terms);
    Ok(())
}

/// Limits the spans of an operator's live plans to `spans`. `NoRecord` if that is not from 1 to `MAX_SPANS`.
#[tactic(auto, unfolding(crate::specs::Replaying::span_limit_outcome))]
pub(crate) fn limit_spans<S: PlanStore>(
    desk: &mut Desk<S>,
    progress: &mut Progress,
    spans: u64,
) -> Result<(), ReplayFault>
    ensures steps { StepsAt S.content result (λ s. span_limit_outcome s spans) (course desk.old desk.new)
        (course progress.old progress.new) }
    ensures store { desk.new.store ≡ desk.old.store }
{
    if spans < 1 || spans > u64::from(MAX_SPANS) {
        return Err(ReplayFault::NoRecord);
    }
    progress.terms.spans = Some(spans as u32);
    desk.set_terms(progress.terms);
    Ok(())
}

/// Limits the cells of all plans of an operator to `cells`. `NoRecord` if that is not from 1 to
/// `MAX_TOTAL_CELLS`.
#[tactic(auto, unfolding(crate::specs::Replaying::cell_limit_outcome))]
pub(crate) fn limit_cells<S: PlanStore>(
    desk: &mut Desk<S>,
    progress: &mut Progress,
    cells: u64,
) -> Result<(), ReplayFault>
    ensures steps { StepsAt S.content result (λ s. cell_limit_outcome s cells) (course desk.old desk.new)
        (course progress.old progress.new) }
    ensures store { desk.new.store ≡ desk.old.store }
{
    if cells < 1 || cells > u64::from(MAX_TOTAL_CELLS) {
        return Err(ReplayFault::NoRecord);
    }
    progress.terms.cells = Some(cells as u32);
    desk.set_terms(progress.terms);
    Ok(())
}

/// Enrols the operator `name` with this ceiling, the greatest priority that it may use, or replaces its
/// ceiling. `NoRecord` if `name` is no operator's name, or the ceiling is above 1,000; `OutOfMemory` or
/// `Store` because of the desk.
#[tactic(auto, unfolding(crate::specs::Replaying::listed))]
pub(crate) fn enrol<S: PlanStore>(
    desk: &mut Desk<S>,
    progress: &Progress,
    ceiling: u64,
    name: &[u8],
) -> Result<(), ReplayFault>
    ensures steps { IsHonest (S.doubt desk.new.store) → StepsAt S.content result
        (λ s. listed s ceiling name.now) (course desk.old desk.new) (course progress.now progress.now) }
    ensures remembered { Remembers S.doubt S.faults S.is_shielded desk.old.store desk.new.store }
{
    let operator = Operator::try_new(name).ok_or(ReplayFault::NoRecord)?;
    if ceiling > u64::from(MAX_PRIORITY) {
        return Err(ReplayFault::NoRecord);
    }
    desk.enrol(&operator, ceiling as u32)?;
    Ok(())
}
