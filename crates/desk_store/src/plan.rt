//! A plan as a store in memory keeps it. A slab of a plan has the points of one range of a volume's leaves
//! (numbered along the S2 curve) in the volume's altitudes and times. An extent is a slab for which a store
//! is asked.

ghost use Rattle.std.specs.Prelude.{◌≡◌, ◌&&◌, cond, false, nat_le, IfOk, OnOk};
ghost use Rattle.std.specs.List.{list_any};
ghost use Rattle.volume4d.specs.{Slab.overlap, Slab.level_where, Slab.slabs_have, Volume.area_has, Volume.area_cells, Volume.area_spans};
ghost use Rattle.desk_rules.specs.Outcome.{is_live};
ghost use Rattle.desk_store.specs.World.{AddsLevelNear, AddsLevel, parts_of, row_of, kept_states, closed_parts, SharesNoPoint};

use crate::sizes::Sizes;
use desk_rules::plan::{PlanRow, States};
use desk_rules::plan_id::PlanId;
use desk_rules::words::{Aircraft, Usage};
use std::alloc::AllocError;
use std::marker::Model;
use volume4d::{Area, Held, Slab, bounds_of};

/// A stored plan without its operator and id, which are its key. The slabs of its area and the bounds of all
/// slabs are computed once.
#[derive(Drop)]
pub struct Plan {
    priority: u32,
    usage: Usage,
    aircraft: Aircraft,
    area: Area,
    slabs: Vec<Slab>,
    bounds: Slab,
}

impl Model for Plan {
    ghost use Rattle.desk_store.specs.World.{PlanParts, AreSlabs};

    ghost Value = { PlanParts };

    ghost view = { λ p. record {
      priority = p.priority;
      usage = p.usage;
      aircraft = p.aircraft;
      area = p.area;
    } };

    ghost invariant = { λ p. AreSlabs p.area p.slabs.items p.bounds };
}

impl Plan {
    /// The plan of `row`, without the row's id. This computes the area's slabs.
    ///
    /// # Errors
    ///
    /// `AllocError` if memory runs out.
    pub fn try_new(row: PlanRow) -> Result<Plan, AllocError>
        ensures { IfOk result (λ plan. plan ≡ parts_of row) }
    {
        let slabs = row.area.slabs()?;
        let bounds = bounds_of(&slabs);
        Ok(Plan {
            priority: row.priority,
            usage: row.usage,
            aircraft: row.aircraft,
            area: row.area,
            slabs,
            bounds,
        })
    }

    /// A copy of the plan as a row, with the id `id`, which is part of the plan's key.
    ///
    /// # Errors
    ///
    /// `AllocError` if memory runs out.
    pub fn row(&self, id: PlanId) -> Result<PlanRow, AllocError>
        ensures { IfOk result (λ row. row ≡ row_of id self.now) }
    {
        Ok(PlanRow {
            id,
            priority: self.priority,
            usage: self.usage,
            aircraft: self.aircraft,
            area: self.area.copy()?,
        })
    }

    /// The usage of the plan and the state of its aircraft.
    pub fn states(&self) -> States
        ensures { result ≡ kept_states self.now }
    {
        States {
            usage: self.usage,
            aircraft: self.aircraft,
        }
    }

    /// The sizes of the plan: the number of its spans along the S2 curve, 0 if it is closed, and that of its
    /// cells.
    pub fn sizes(&self) -> Sizes
        ensures spans { result.spans ≡ cond (is_live self.now.usage) (area_spans self.now.area) 0 }
        ensures cells { result.cells ≡ area_cells self.now.area }
    {
        let spans = match self.usage {
            Usage::Planned | Usage::InUse => self.area.span_count(),
            Usage::Closed => 0,
        };
        Sizes {
            spans,
            cells: self.area.cell_count(),
        }
    }

    /// Gives the plan the usage `Closed`. All else of it stays.
    pub fn close(&mut self)
        ensures { self.new ≡ closed_parts self.old }
    {
        self.usage = Usage::Closed;
    }

    /// Whether the plan's bounds overlap one of `extents`. If false, no extent shares a point with the plan;
    /// if true, one may.
    pub fn may_meet(&self, extents: &[Slab]) -> bool
        ensures { result ≡ false → SharesNoPoint self.now.area extents.now }
    {
        overlaps_one(&self.bounds, extents)
    }

    /// Whether the plan is live and has the priority `least` or a greater one.
    pub fn is_rival(&self, least: u32) -> bool
        ensures { result ≡ (is_live self.now.usage && nat_le least self.now.priority) }
    {
        self.usage.is_live() && self.priority >= least
    }

    /// Appends to `helds` the slabs of the plan's area that overlap one of `extents`, with its priority, even
    /// if the plan is closed.
    ///
    /// # Errors
    ///
    /// `AllocError` if memory runs out; some slabs may be appended then.
    pub fn push_near(&self, helds: &mut Vec<Held>, extents: &[Slab]) -> Result<(), AllocError>
        ensures { OnOk result (AddsLevelNear extents.now helds.old.items helds.new.items
            (λ x. level_where (area_has self.now.area x) self.now.priority)) }
    {
        push_overlapping(helds, &self.slabs, self.priority, extents)
    }

    /// Appends to `helds` all slabs of the plan's area with its priority if the plan is live, and none
    /// otherwise.
    ///
    /// # Errors
    ///
    /// `AllocError` if memory runs out; some slabs may be appended then.
    pub fn push_if_live(&self, helds: &mut Vec<Held>) -> Result<(), AllocError>
        ensures { OnOk result (AddsLevel helds.old.items helds.new.items
            (λ x. level_where (is_live self.now.usage && area_has self.now.area x) self.now.priority)) }
    {
        if self.usage.is_live() {
            push_all(helds, &self.slabs, self.priority)
        } else {
            Ok(())
        }
    }
}

// Whether `slab` overlaps one of `others`; false if there are none.
fn overlaps_one(slab: &Slab, others: &[Slab]) -> bool
    ensures { result ≡ list_any (overlap slab.now) others.now }
{
    others.iter().any(|other| slab.overlaps(other))
}

// Appends those of `slabs` that overlap one of `extents`, with `priority`. If memory runs out, some may be
// appended.
fn push_overlapping(
    helds: &mut Vec<Held>,
    slabs: &[Slab],
    priority: u32,
    extents: &[Slab],
) -> Result<(), AllocError>
    ensures { OnOk result (AddsLevelNear extents.now helds.old.items helds.new.items
        (λ x. level_where (slabs_have slabs.now x) priority)) }
{
    for slab in slabs {
        if overlaps_one(slab, extents) {
            helds.push(Held {
                slab: *slab,
                priority,
            })?;
        }
    }
    Ok(())
}

// Appends all of `slabs`, with `priority`. If memory runs out, some may be appended.
fn push_all(helds: &mut Vec<Held>, slabs: &[Slab], priority: u32) -> Result<(), AllocError>
    ensures { OnOk result (AddsLevel helds.old.items helds.new.items
        (λ x. level_where (slabs_have slabs.now x) priority)) }
{
    for slab in slabs {
        helds.push(Held {
            slab: *slab,
            priority,
        })?;
    }
    Ok(())
}
