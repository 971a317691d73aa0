//! Plans of an operator, with the slabs that they hold. A slab has the points of a range of leaves (numbered
//! along the S2 curve) in one range of altitudes and one of seconds. A function fails only if memory runs
//! out.

ghost use Rattle.std.specs.Prelude.{◌≡◌, ◌&&◌, ℕ, List, Option, true, not, nat_le, All, IfOk, OnOk};
ghost use Rattle.volume4d.specs.{Slab.IsFilled, Slab.slabs_have, Slab.top_held, Volume.Point, Volume.area_has, Sweep.Ascend};
ghost use Rattle.desk_rules.specs.{Conflict.at_least, Conflict.conflict, Limits.least_blocking, Outcome.is_live, Outcome.row_holds};
ghost use Rattle.desk_store.specs.World.{has_id};
ghost use Rattle.desk_run.specs.HeldAmong.{AddLevelAt, HaveAll, HaveLevelAt, Keep, own_level};

use super::conflict::wide_gap;
use super::near::{push_helds, push_slabs};
use desk_rules::conflict::first_conflict;
use desk_rules::plan::PlanRow;
use desk_rules::plan_id::PlanId;
use std::alloc::{AllocError, Global};
use std::marker::Model;
use volume4d::{Area, Held, Meeting, Slab, bounds_of, split_cluster};

// A plan of an operator with the slabs that it holds, the bounds of all of them (`bounds`) and of those of
// each volume (`parts`), which are computed once. A closed plan holds none.
#[derive(Drop)]
pub struct OwnPlan {
    row: PlanRow,
    slabs: Vec<Slab>,
    bounds: Slab,
    parts: Vec<Slab>,
}

impl Model for OwnPlan {
    ghost use Rattle.desk_rules.specs.declared.plan.PlanRow.{PlanRow};
    ghost use Rattle.desk_run.specs.HeldAmong.{AreSlabsHeld};

    ghost Value = { PlanRow };

    ghost view = { λ p. p.row };

    ghost invariant = { λ p. AreSlabsHeld p.row p.slabs.items p.bounds p.parts.items };
}

impl OwnPlan {
    // The plan of `row`, with its slabs and bounds. A closed plan has none.
    pub fn try_new(alloc: Global, row: PlanRow) -> Result<OwnPlan, AllocError>
        ensures { IfOk result (λ plan. plan ≡ row) }
    {
        if !row.usage.is_live() {
            return Ok(OwnPlan {
                row,
                slabs: Vec::new(alloc),
                bounds: Slab::empty(),
                parts: Vec::new(alloc),
            });
        }
        let slabs = row.area.slabs()?;
        let bounds = bounds_of(&slabs);
        let parts = parts_of(alloc, &row.area)?;
        Ok(OwnPlan {
            row,
            slabs,
            bounds,
            parts,
        })
    }

    // The plan as it is stored.
    pub fn row(&self) -> &PlanRow
        ensures { result.now ≡ self.now }
    {
        &self.row
    }

    // Appends to `extents` slabs for which to ask the store: together they have every point that the plan
    // holds, and maybe others.
    pub fn push_extents(&self, extents: &mut Vec<Slab>) -> Result<(), AllocError>
        ensures kept { OnOk result (Keep extents.old.items extents.new.items) }
        ensures all { OnOk result (HaveAll (row_holds self.now) extents.new.items) }
    {
        push_clusters(extents, &self.slabs)
    }

    // Appends to `theirs` those of `others`, other operators' slabs, that have the priority `least` or more
    // and may share a point with the plan.
    pub fn push_others(
        &self,
        theirs: &mut Vec<Held>,
        others: &[Held],
        least: u32,
    ) -> Result<(), AllocError>
        ensures { OnOk result (AddLevelAt (row_holds self.now) theirs.old.items theirs.new.items
            (λ x. at_least least (top_held others.now x))) }
    {
        push_helds(
            theirs,
            &self.slabs,
            &self.bounds,
            &self.parts,
            others,
            least,
        )
    }

    // Appends to `theirs` those of this plan's slabs that may block `mine`, another plan of the operator.
    // Nothing is appended if this plan has the id of `mine`, has a priority below `least`, or lies outside
    // the bounds of `mine`.
    pub fn push_blocking(
        &self,
        theirs: &mut Vec<Held>,
        mine: &OwnPlan,
        least: u32,
    ) -> Result<(), AllocError>
        ensures { OnOk result (AddLevelAt (row_holds mine.now) theirs.old.items theirs.new.items
            (λ x. at_least least (own_level mine.now.id self.now x))) }
    {
        if !may_block(&self.row, &mine.row.id, least) {
            return Ok(());
        }
        if !self.bounds.overlaps(&mine.bounds) {
            return Ok(());
        }
        push_slabs(
            theirs,
            &mine.slabs,
            &mine.bounds,
            &mine.parts,
            &self.slabs,
            self.row.priority,
        )
    }

    // The conflict of this plan, a live one, with `theirs`; `None` if it has none. `theirs` are slabs of
    // other plans: at each point of this plan their greatest priority is the greatest that other plans hold
    // there, or none if that is too low to block this plan.
    pub fn conflict_with(&self, theirs: &[Held]) -> Option<Meeting>
        ensures { (permitted : List ℕ) (levels : Point → Option ℕ) → is_live self.now.usage ≡ true
            → HaveLevelAt (row_holds self.now) theirs.now
            (λ x. at_least (least_blocking permitted self.now.priority) (levels x))
            → result ≡ conflict permitted self.now.area levels self.now.priority }
    {
        first_conflict(&self.slabs, theirs)
    }
}

// The bounds of each volume of `area`, in their order: the smallest slabs that have all points of a volume.
fn parts_of(alloc: Global, area: &Area) -> Result<Vec<Slab>, AllocError>
    ensures { IfOk result (λ parts. HaveAll (area_has area.now) parts.items) }
{
    let mut parts = Vec::new(alloc);
    for volume in area.volumes() {
        parts.push(bounds_of(&volume.slabs()?))?;
    }
    Ok(parts)
}

// Whether `row` is another plan than that with the id `id`, and has the priority `least` or more.
fn may_block(row: &PlanRow, id: &PlanId, least: u32) -> bool
    ensures { result ≡ (not (has_id id.now row.now) && nat_le least row.now.priority) }
{
    id.cmp(&row.id).is_ne() && least <= row.priority
}

// Appends to `extents` the bounds of each cluster of `slabs`, which ascend by their first leaves. Clusters
// are separated by gaps of at least `wide_gap` leaves.
fn push_clusters(extents: &mut Vec<Slab>, slabs: &[Slab]) -> Result<(), AllocError>
    requires filled { All IsFilled slabs.now }
    requires order { Ascend (λ s. s) slabs.now }
    ensures kept { OnOk result (Keep extents.old.items extents.new.items) }
    ensures all { OnOk result (HaveAll (slabs_have slabs.now) extents.new.items) }
{
    let gap = wide_gap(slabs);
    let mut rest = slabs;
    while !rest.is_empty() {
        let (cluster, later) = split_cluster(rest, gap);
        extents.push(bounds_of(cluster))?;
        rest = later;
    }
    Ok(())
}
