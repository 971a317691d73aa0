//! The places of each plan's volumes in the order of chunks (`place_of`), so that a plan's volumes are found
//! without a search of all chunks.

ghost use Rattle.std.specs.Prelude.{◌≡◌, ◌≤◌, [], length, None, IsSome, IfOk, OnOk};
ghost use Rattle.live_index.specs.Live.{ArePlaced, key_of, AreNoFewer, OthersAreNoFewer, HasOneMore, list_of, places_in};

use crate::near::PlanKey;
use crate::volume::LiveVolume;
use std::alloc::{AllocError, Global};
use std::collections::BTreeMap;

/// The places of each plan's volumes in the order of chunks. Clauses say only how many each plan has.
#[derive(Drop)]
pub(crate) struct Places {
    plans: BTreeMap<PlanKey, Vec<u128>>,
}

impl Places {
    /// The places of no plans.
    pub(crate) fn new(alloc: Global) -> Places
        ensures { result.plans.entries ≡ [] }
    {
        Places {
            plans: BTreeMap::new(alloc),
        }
    }

    /// The places of the volumes of the plan with this key; none if the plan isn't known.
    pub(crate) fn of(&self, key: &PlanKey) -> &[u128]
        ensures { length result.now ≡ places_in key.now self.now.plans.entries }
    {
        match self.plans.get(key) {
            Some(places) => places,
            None => &[],
        }
    }

    /// Adds the place of the volume `live` to those of its plan.
    ///
    /// # Errors
    ///
    /// `AllocError` if memory runs out; all places stay then.
    pub(crate) fn add(&mut self, alloc: Global, live: &LiveVolume) -> Result<(), AllocError>
        ensures kept { AreNoFewer self.old.plans.entries self.new.plans.entries }
        ensures added { OnOk result (HasOneMore (key_of live.now) self.old.plans.entries
            self.new.plans.entries) }
    {
        let key = live.key();
        ensure_list(alloc, &mut self.plans, &key)?;
        push(&mut self.plans, &key, live.place)
    }

    /// Removes all places of the plan with this key, if it has any.
    pub(crate) fn forget(&mut self, key: &PlanKey)
        ensures others { OthersAreNoFewer key.now self.old.plans.entries self.new.plans.entries }
        ensures gone { list_of key.now self.new.plans.entries ≡ None }
    {
        if let Some(places) = self.plans.remove(key) {
            drop(places);
        }
    }
}

type Lists = BTreeMap<PlanKey, Vec<u128>>;

// Gives the plan with this key an empty list of places, if it has no list. If memory runs out, the lists stay
// as they are.
fn ensure_list(alloc: Global, plans: &mut Lists, key: &PlanKey) -> Result<(), AllocError>
    ensures kept { AreNoFewer plans.old.entries plans.new.entries }
    ensures has_list { OnOk result (IsSome (list_of key.now plans.new.entries)) }
{
    if plans.contains_key(key) {
        return Ok(());
    }
    plans.insert(*key, Vec::new(alloc))?;
    Ok(())
}

// Adds `place` to the list of the plan with this key; does nothing if it has no list. If memory runs out, the
// list stays as it is.
fn push(plans: &mut Lists, key: &PlanKey, place: u128) -> Result<(), AllocError>
    ensures kept { AreNoFewer plans.old.entries plans.new.entries }
    ensures added { OnOk result (IsSome (list_of key.now plans.old.entries)
        → HasOneMore key.now plans.old.entries plans.new.entries) }
{
    if let Some(places) = plans.get_mut(key) {
        places.push(place)?;
    }
    Ok(())
}

/// The places of the volumes `lives`, listed by plan.
///
/// # Errors
///
/// `AllocError` if memory runs out.
pub(crate) fn places_of(alloc: Global, lives: &[LiveVolume]) -> Result<Places, AllocError>
    ensures { IfOk result (λ places. ArePlaced places lives.now) }
{
    let mut places = Places::new(alloc);
    for live in lives {
        places.add(alloc, live)?;
    }
    Ok(places)
}
