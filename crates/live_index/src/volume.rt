//! Volumes of live plans, as an index has them.
//!
//! The bounds of a volume are the smallest slab that has its points. A search is for plans that are wanted:
//! those of a least priority that `Wanted` doesn't leave out. A volume is near what is sought (`SearchArea`)
//! if its bounds overlap one of the slabs sought.

ghost use Rattle.std.specs.Prelude.{◌≡◌, IfOk};
ghost use Rattle.desk_store.specs.Changes.{filed_by};
ghost use Rattle.live_index.specs.Live as spec;
ghost use Rattle.live_index.specs.Live.{IsLiveVolume};

use crate::near::{PlanKey, Wanted};
use crate::order::{Rank, place_of};
use desk_rules::operator::Operator;
use desk_rules::plan::PlanRow;
use desk_rules::plan_id::PlanId;
use slab_regions::SearchArea;
use std::alloc::AllocError;
use volume4d::{Slab, Volume, bounds_of};

/// A volume of a live plan: the operator, the plan's id and priority, and the bounds of the volume.
#[derive(Clone, Copy, Debug)]
pub struct LiveVolume {
    operator: Operator,
    id: PlanId,
    pub(crate) priority: u32,
    // the smallest slab that has all its points
    pub(crate) bounds: Slab,
    // an estimate of how many rows of `span2` the whole plan has, which no clause mentions: those of this
    // volume, times the number of the plan's volumes
    pub(crate) rows: usize,
    // its place in the order of volumes (`place_of`), which only the clause of `rank` mentions
    pub(crate) place: u128,
}

impl LiveVolume {
    /// The entry for `volume`, which is one of the volumes of the operator's plan `row`.
    ///
    /// # Errors
    ///
    /// `AllocError` if memory runs out.
    #[tactic(auto, using(crate::proofs::VolumeLemmas::bounds_alike))]
    pub(crate) fn try_new(
        operator: &Operator,
        row: &PlanRow,
        volume: &Volume,
    ) -> Result<LiveVolume, AllocError>
        ensures { IfOk result (IsLiveVolume (filed_by operator.now row.now) volume.now) }
    {
        let slabs = volume.slabs()?;
        let bounds = bounds_of(&slabs);
        Ok(LiveVolume {
            operator: *operator,
            id: row.id,
            priority: row.priority,
            bounds,
            rows: slabs.len().saturating_mul(row.area.volumes().len()),
            place: place_of(&bounds),
        })
    }

    /// Whether the volume belongs to the operator's plan with this id.
    pub(crate) fn is_of(&self, operator: &Operator, id: &PlanId) -> bool
        ensures { result ≡ spec.is_volume_of operator.now id.now self.now }
    {
        if !id.cmp(&self.id).is_eq() {
            return false;
        }
        operator.cmp(&self.operator).is_eq()
    }

    /// The key of the plan to which the volume belongs: its operator and its id.
    pub(crate) fn key(&self) -> PlanKey
        ensures { result ≡ spec.key_of self.now }
    {
        PlanKey {
            operator: self.operator,
            id: self.id,
        }
    }

    /// The rank of the volume, by which volumes are divided into chunks: the volume's place in the order of
    /// volumes, and then its plan's key.
    pub(crate) fn rank(&self) -> Rank
        ensures place { result.place ≡ self.now.place }
        ensures plan { result.plan ≡ spec.key_of self.now }
    {
        Rank::of(&self.key(), self.place)
    }

    // Whether the volume belongs to a plan that `wanted` leaves out: the operator's plan with the id
    // `wanted.id`, or any plan of the operator if `wanted.id` is `None`.
    fn is_own(&self, wanted: &Wanted) -> bool
        ensures { result ≡ spec.is_own_volume wanted.now self.now }
    {
        match wanted.id {
            Some(id) => self.is_of(&wanted.operator, &id),
            None => wanted.operator.cmp(&self.operator).is_eq(),
        }
    }

    /// Whether the volume's plan is wanted (it has at least the least priority, and `wanted` doesn't leave it
    /// out) and its bounds overlap `sought`.
    pub(crate) fn is_near_to(&self, wanted: &Wanted, sought: &SearchArea) -> bool
        ensures { result ≡ spec.is_near_to wanted.now sought.now self.now }
    {
        if !sought.meets(&self.bounds) {
            return false;
        }
        if self.priority < wanted.least {
            return false;
        }
        !self.is_own(wanted)
    }

    /// Whether the volume belongs to an operator other than `operator`, and its bounds overlap `extent`.
    pub(crate) fn is_theirs(&self, operator: &Operator, extent: &Slab) -> bool
        ensures { result ≡ spec.is_theirs operator.now extent.now self.now }
    {
        if operator.cmp(&self.operator).is_eq() {
            return false;
        }
        self.bounds.overlaps(extent)
    }
}
