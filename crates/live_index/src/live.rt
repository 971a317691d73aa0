//! The index of the volumes of all live plans: those that are planned or in use, not closed.
//!
//! Volumes are in chunks, and chunks in groups, each within a bounding box, so that a search skips most of
//! them. Volumes that the last change added are unindexed: they are in no chunk yet. The bounds of a volume
//! are the smallest slab that has its points. A volume is near an extent, a slab that is searched, if its
//! bounds overlap it.

ghost use Rattle.std.specs.Prelude.{◌≡◌, ◌≤◌, ◌-◌, ◌++◌, not, ◌∷◌, [], List, length, IfOk, IfSome, OnOk};
ghost use Rattle.std.specs.{List.filter, List.Sorted.IsStrictlySortedBy};
ghost use Rattle.desk_store.specs.{World.Filed, World.World, World.filed_cmp, Changes.filed_by, Changes.changed_by};
ghost use Rattle.live_index.specs.Live.{AreAddedBy, AreBoundedGroups, AreKeptOnce, ArePlaced, AreSettled, AreVolumes, HasLeft, HasRoomForVolumes, gathered_in, is_of_other_plan, is_of_any, stays_at, volumes_of, volumes_under, HoldNothingBeside, has_theirs, AddsPlans, AreNearPlans, AreWantedPlans};
ghost use Rattle.slab_regions.specs.Regions.{sought_has};
ghost use Rattle.volume4d.specs.Slab.{slabs_have};

use crate::changing::{push_all, push_plan, remove_plan_volumes, volumes_added_by};
use crate::group::{Group, add_near_in, grouped, insert, remove_all};
use crate::near::{NearPlans, PlanKey, Wanted, add_each};
use crate::order::put_in_order;
use crate::places::{Places, places_of};
use crate::volume::LiveVolume;
use desk_rules::operator::Operator;
use desk_rules::plan::PlanRow;
use desk_rules::plan_id::PlanId;
use desk_store::Change;
use slab_regions::{SearchArea, at_most, enclosing_slab, joined};
use std::alloc::{AllocError, Global};
use volume4d::Slab;

// The most extents that are searched one by one for regions; more are joined into one slab.
const MAX_REGION_EXTENTS: usize = 1 << 10;

// The most extents that are compared one by one with each volume; more are joined into one slab.
const MAX_SEARCHED_PARTS: usize = 96;

// The most chunks that are searched if the extents are searched one by one: a tenth of a second's work.
const MAX_SEARCHES: usize = 1 << 13;

/// An index of the volumes of all live plans. Most of them are in groups of chunks.
#[derive(Drop)]
pub struct LiveIndex {
    groups: Vec<Group>,
    // the volumes that the last change added, which are in no chunk yet
    unindexed: Vec<LiveVolume>,
    // the places in the order of chunks of each plan's volumes
    places: Places,
}

impl LiveIndex {
    /// The index of no plans.
    pub fn new(alloc: Global) -> LiveIndex
        ensures { AreKeptOnce result (record { operators = []; plans = [] }) }
    {
        LiveIndex {
            groups: Vec::new(alloc),
            unindexed: Vec::new(alloc),
            places: Places::new(alloc),
        }
    }

    /// Slabs, called regions, that have every point of `extents` at which live plans of operators other than
    /// `operator` may be; none if no volume of such a plan is near. Regions don't overlap along the curve.
    /// More than `MAX_REGION_EXTENTS` extents are taken as one slab round all of them.
    ///
    /// # Errors
    ///
    /// `AllocError` if memory runs out.
    pub fn regions(
        &self,
        alloc: Global,
        operator: &Operator,
        extents: &[Slab],
    ) -> Result<Vec<Slab>, AllocError>
        ensures { IfOk result (λ regions. (w : World) → AreKeptOnce self.now w
            → HoldNothingBeside w operator.now extents.now regions.items) }
    {
        let mut near = at_most(alloc, extents, MAX_REGION_EXTENTS)?;
        near.retain(|extent| self.has_theirs(operator, extent));
        joined(alloc, near)
    }

    // Whether there is a volume of an operator other than `operator` whose bounds overlap `extent`.
    fn has_theirs(&self, operator: &Operator, extent: &Slab) -> bool
        ensures { result ≡ has_theirs operator.now self.now extent.now }
    {
        self.groups
            .iter()
            .any(|group| group.has_theirs(operator, extent))
            || self
                .unindexed
                .iter()
                .any(|live| live.is_theirs(operator, extent))
    }

    /// The plans that `wanted` selects and that may hold a point of `extents`. `None` if there are no
    /// extents, or if reading the plans would cost more than `room` rows. Up to `MAX_SEARCHED_PARTS` extents
    /// are searched at once. More are searched one by one, if that takes at most `MAX_SEARCHES` chunks, and
    /// else as one slab round all of them.
    ///
    /// # Errors
    ///
    /// `AllocError` if memory runs out.
    pub fn wanted_plans(
        &self,
        alloc: Global,
        wanted: &Wanted,
        extents: &[Slab],
        room: usize,
    ) -> Result<Option<Vec<PlanKey>>, AllocError>
        ensures { IfOk result (λ found. IfSome found (λ keys. (w : World) → AreKeptOnce self.now w
            → AreWantedPlans w wanted.now extents.now keys.items)) }
    {
        if MAX_SEARCHED_PARTS < extents.len() {
            let apart = self.near_one_by_one(alloc, wanted, extents, room)?;
            if apart.is_some() {
                return Ok(apart);
            }
        }
        self.near_at_once(alloc, wanted, extents, room)
    }

    // The wanted plans near `extents`, which are searched one by one. `None` if reading the plans would cost
    // more than `room` rows, or if more than `MAX_SEARCHES` chunks would be searched. If memory runs out, the
    // error is `AllocError`.
    fn near_one_by_one(
        &self,
        alloc: Global,
        wanted: &Wanted,
        extents: &[Slab],
        room: usize,
    ) -> Result<Option<Vec<PlanKey>>, AllocError>
        ensures { IfOk result (λ found. IfSome found (λ keys. AreBoundedGroups self.now.groups.items
            → AreNearPlans wanted.now (slabs_have extents.now) (volumes_of self.now) keys.items)) }
    {
        let mut near = NearPlans::new(alloc, room, MAX_SEARCHES);
        for extent in extents {
            self.add_near(&mut near, wanted, &SearchArea::one(extent))?;
            if !near.is_complete {
                return Ok(None);
            }
        }
        near.if_complete(alloc)
    }

    // The wanted plans near `extents`, which are searched all at once, or as one slab round all of them if
    // there are more than `MAX_SEARCHED_PARTS`. `None` if reading the plans would cost more than `room` rows,
    // or if there are no extents. If memory runs out, the error is `AllocError`.
    fn near_at_once(
        &self,
        alloc: Global,
        wanted: &Wanted,
        extents: &[Slab],
        room: usize,
    ) -> Result<Option<Vec<PlanKey>>, AllocError>
        ensures { IfOk result (λ found. IfSome found (λ keys. AreBoundedGroups self.now.groups.items
            → AreNearPlans wanted.now (slabs_have extents.now) (volumes_of self.now) keys.items)) }
    {
        let Some((first, others)) = extents.split_first() else {
            return Ok(None);
        };
        let parts = at_most(alloc, extents, MAX_SEARCHED_PARTS)?;
        let sought = SearchArea {
            whole: enclosing_slab(first, others),
            parts: &parts,
        };
        let mut near = NearPlans::new(alloc, room, usize::MAX);
        self.add_near(&mut near, wanted, &sought)?;
        near.if_complete(alloc)
    }

    // Adds to `near` the wanted plans that have a volume near `sought`, until a limit of `near` is exceeded.
    // If memory runs out, the error is `AllocError`.
    fn add_near(
        &self,
        near: &mut NearPlans,
        wanted: &Wanted,
        sought: &SearchArea,
    ) -> Result<(), AllocError>
        ensures { OnOk result (AreBoundedGroups self.now.groups.items
            → AddsPlans wanted.now (sought_has sought.now) (volumes_of self.now) near.old near.new) }
    {
        add_near_in(near, &self.groups, wanted, sought)?;
        self.add_unindexed(near, wanted, sought)
    }

    // Adds to `near` the wanted plans that have an unindexed volume near `sought`, until a limit of `near` is
    // exceeded. If memory runs out, the error is `AllocError`.
    fn add_unindexed(
        &self,
        near: &mut NearPlans,
        wanted: &Wanted,
        sought: &SearchArea,
    ) -> Result<(), AllocError>
        ensures { OnOk result (AddsPlans wanted.now (sought_has sought.now) self.now.unindexed.items near.old
            near.new) }
    {
        add_each(near, &self.unindexed, wanted, sought)
    }

    /// Prepares for `update_after`: moves the unindexed volumes into chunks, and returns the volumes that
    /// `change` adds. Capacity is reserved for these.
    ///
    /// # Errors
    ///
    /// `AllocError` if memory runs out; the index has the same volumes as before then.
    pub fn prepare(&mut self, alloc: Global, change: &Change) -> Result<Vec<LiveVolume>, AllocError>
        ensures kept { (w : World) → AreKeptOnce self.old w → AreKeptOnce self.new w }
        ensures added { IfOk result (λ fresh. AreAddedBy change.now fresh.items) }
        ensures room { IfOk result (λ fresh. HasRoomForVolumes self.new (length fresh.items)) }
        ensures settled { OnOk result (AreSettled self.new) }
    {
        self.settle(alloc)?;
        let fresh = volumes_added_by(alloc, change)?;
        self.unindexed.reserve(fresh.len())?;
        Ok(fresh)
    }

    /// Updates the index after the store has made `change`: removes the volumes of the plans that the change
    /// names, and adds `fresh`, which `prepare` returned for it. It needs no allocation, and so can't fail.
    pub fn update_after(&mut self, change: &Change, fresh: &[LiveVolume])
        requires room { HasRoomForVolumes self.old (length fresh.now) }
        requires added { AreAddedBy change.now fresh.now }
        ensures same { ArePlaced self.old.places (volumes_under self.old.groups.items) → volumes_of self.new
            ≡ filter (stays_at change.now) (volumes_of self.old) ++ fresh.now }
        ensures kept { (w : World) → AreKeptOnce self.old w → AreKeptOnce self.new (changed_by change.now w) }
    {
        self.remove_named(change);
        push_all(&mut self.unindexed, fresh);
    }

    // Removes the volumes of the plans that `change` names: those that it puts (their former version), closes
    // or clears.
    fn remove_named(&mut self, change: &Change)
        ensures { HasLeft (stays_at change.now) self.old self.new }
    {
        match change {
            Change::Enrol { .. } => {}
            Change::Put { operator, row } => self.remove_plan(operator, &row.id),
            Change::Close { operator, id } => self.remove_plan(operator, id),
            Change::Clear { operator, ids } => self.remove_plans(operator, ids),
        }
    }

    // Removes the volumes of the operator's plans with these ids.
    fn remove_plans(&mut self, operator: &Operator, ids: &[PlanId])
        ensures { HasLeft (λ live. not (is_of_any operator.now ids.now live)) self.old self.new }
    {
        for id in ids {
            self.remove_plan(operator, id);
        }
    }

    // Removes the volumes of the operator's plan with this id from the unindexed ones and from the groups,
    // where they are looked for at the plan's places. Then it removes these places.
    fn remove_plan(&mut self, operator: &Operator, id: &PlanId)
        ensures { HasLeft (is_of_other_plan operator.now id.now) self.old self.new }
    {
        remove_plan_volumes(&mut self.unindexed, operator, id);
        let key = PlanKey {
            operator: *operator,
            id: *id,
        };
        remove_all(&mut self.groups, &key, self.places.of(&key));
        self.places.forget(&key);
    }

    // Moves the unindexed volumes into chunks, one by one. If memory runs out, some may have been moved, and
    // none is lost.
    fn settle(&mut self, alloc: Global) -> Result<(), AllocError>
        ensures kept { (w : World) → AreKeptOnce self.old w → AreKeptOnce self.new w }
        ensures settled { OnOk result (AreSettled self.new) }
    {
        while !self.unindexed.is_empty() {
            self.settle_one(alloc)?;
        }
        Ok(())
    }

    // Moves the last unindexed volume into a chunk, if there is one. Its place is noted first: if memory runs
    // out, a place too many does no harm, but a volume in a chunk without a place might not be found.
    fn settle_one(&mut self, alloc: Global) -> Result<(), AllocError>
        ensures kept { (w : World) → AreKeptOnce self.old w → AreKeptOnce self.new w }
        ensures fewer { OnOk result (length self.new.unindexed.items ≡ length self.old.unindexed.items - 1) }
    {
        let Some((last, rest)) = self.unindexed.split_last() else {
            return Ok(());
        };
        let (live, left) = (*last, rest.len());
        self.places.add(alloc, &live)?;
        insert(alloc, &mut self.groups, &live)?;
        self.unindexed.truncate(left);
        Ok(())
    }
}

/// Collects the volumes of plans for a new index, plan by plan.
#[derive(Drop)]
pub struct LiveIndexBuilder {
    volumes: Vec<LiveVolume>,
}

impl LiveIndexBuilder {
    /// A builder with the volumes of no plans.
    pub fn new(alloc: Global) -> LiveIndexBuilder
        ensures { AreVolumes [] (gathered_in result) }
    {
        LiveIndexBuilder {
            volumes: Vec::new(alloc),
        }
    }

    /// Adds the volumes of the operator's plan `row`, if the plan is live; else nothing.
    ///
    /// # Errors
    ///
    /// `AllocError` if memory runs out; some of the volumes may have been added then.
    pub fn add(&mut self, operator: &Operator, row: &PlanRow) -> Result<(), AllocError>
        ensures { OnOk result ((ps : List Filed) → AreVolumes ps (gathered_in self.old) →
            AreVolumes (ps ++ filed_by operator.now row.now ∷ []) (gathered_in self.new)) }
    {
        push_plan(&mut self.volumes, operator, row)
    }

    /// The index of the volumes that were added. No plan may have been added twice.
    ///
    /// # Errors
    ///
    /// `AllocError` if memory runs out.
    pub fn finish(self, alloc: Global) -> Result<LiveIndex, AllocError>
        ensures { IfOk result (λ kept. (w : World) → IsStrictlySortedBy filed_cmp w.plans
            → AreVolumes w.plans (gathered_in self) → AreKeptOnce kept w) }
    {
        let mut volumes = self.volumes;
        put_in_order(&mut volumes);
        Ok(LiveIndex {
            groups: grouped(alloc, &volumes)?,
            places: places_of(alloc, &volumes)?,
            unindexed: Vec::new(alloc),
        })
    }
}
