//! A store, asked without a desk.

ghost use Rattle.std.specs.Prelude.{◌≡◌, [], IfOk};
ghost use Rattle.desk_rules.specs.Conflict.{conflict};
ghost use Rattle.desk_store.specs.{Changes.IsHonest, World.held, World.held_at, World.plans_of};

use desk_rules::conflict::first_conflict;
use desk_rules::operator::Operator;
use desk_rules::plan::PutCall;
use desk_store::{PlanStore, StoreFault};
use volume4d::Meeting;

/// The first point at which the plan that an operator asks for would be blocked, at a desk that permits no
/// priority. Nothing is changed.
///
/// # Errors
///
/// `OutOfMemory` if memory runs out, `Store` if the store failed.
pub fn conflict_at<S: PlanStore>(
    store: &mut S,
    operator: &Operator,
    asked: &PutCall,
) -> Result<Option<Meeting>, StoreFault>
    ensures value { IsHonest (S.doubt store.new) → IfOk result (λ meeting. meeting ≡ conflict []
        asked.now.area (held_at (plans_of operator.now (S.content store.old))
        (held (S.content store.old) operator.now) asked.now.id) asked.now.priority) }
    ensures same { S.content store.new ≡ S.content store.old }
{
    let mine = asked.area.slabs()?;
    let extent = asked.area.bounds()?;
    let theirs = store.rivals(operator, &asked.id, asked.priority, &extent)?;
    Ok(first_conflict(&mine, &theirs))
}
