//! A collector of the plans whose volumes are near extents, as long as reading the plans costs few rows.
//!
//! A volume is near if its bounds overlap a slab of the search (`SearchArea`). There is a limit on the rows
//! that reading the plans costs, and one on the chunks that are searched. Once one is exceeded, the list of
//! plans isn't complete, and no more plans are added.

ghost use Rattle.std.specs.Prelude.{◌≡◌, ◌∷◌, [], true, IfOk, IfSome, OnOk};
ghost use Rattle.live_index.specs.Live.{AddsPlans, ListsSamePlans, TakesPlan, is_among};
ghost use Rattle.slab_regions.specs.Regions.{sought_has};

use crate::volume::LiveVolume;
use desk_rules::operator::Operator;
use desk_rules::plan_id::PlanId;
use slab_regions::SearchArea;
use std::alloc::{AllocError, Global};
use std::collections::BTreeSet;

// What the query that reads one more plan costs, in rows.
const QUERY_COST: usize = 10;

/// The key of a plan: its operator and its id together.
#[derive(Clone, Copy, Debug, PartialEq, Eq, PartialOrd, Ord)]
pub struct PlanKey {
    pub operator: Operator,
    pub id: PlanId,
}

/// Which plans are wanted: those of priority `least` or a greater one, except the operator's plan with this
/// id, or, without an id, except all of the operator's plans.
#[derive(Clone, Copy, Debug)]
pub struct Wanted {
    pub operator: Operator,
    pub id: Option<PlanId>,
    pub least: u32,
}

/// The keys of plans that have a volume near a search (its bounds overlap `SearchArea`), each once, up to a
/// limit of rows and of chunks searched.
#[derive(Drop)]
pub(crate) struct NearPlans {
    keys: BTreeSet<PlanKey>,
    // how many more rows reading the plans may cost
    room: usize,
    // how many more chunks may be searched
    searches_left: usize,
    // false once a limit is exceeded: a plan that is near may be missing, and no more are added
    pub(crate) is_complete: bool,
}

impl NearPlans {
    /// No plans yet. Reading the plans may cost `room` rows, and `searches_left` chunks may be searched.
    pub(crate) fn new(alloc: Global, room: usize, searches_left: usize) -> NearPlans
        ensures keys { result.keys.keys ≡ [] }
    {
        NearPlans {
            keys: BTreeSet::new(alloc),
            room,
            searches_left,
            is_complete: true,
        }
    }

    /// Counts a chunk that is searched. If the limit on these is reached already, the list isn't complete
    /// from now on.
    pub(crate) fn count_search(&mut self)
        ensures { ListsSamePlans self.old self.new }
    {
        self.is_complete = self.is_complete && self.searches_left > 0;
        self.searches_left = self.searches_left.saturating_sub(1);
    }

    /// Adds the plan of `live`, if it is wanted, the volume is near `sought`, and the list is complete so
    /// far.
    ///
    /// # Errors
    ///
    /// `AllocError` if memory runs out.
    pub(crate) fn add_if_near(
        &mut self,
        live: &LiveVolume,
        wanted: &Wanted,
        sought: &SearchArea,
    ) -> Result<(), AllocError>
        ensures { OnOk result (AddsPlans wanted.now (sought_has sought.now) (live.now ∷ []) self.old
            self.new) }
    {
        if !self.is_complete {
            return Ok(());
        }
        if !live.is_near_to(wanted, sought) {
            return Ok(());
        }
        if self.has(live) {
            return Ok(());
        }
        self.take(live)
    }

    // Whether the plan of `live` was added already.
    fn has(&self, live: &LiveVolume) -> bool
        ensures { result ≡ is_among self.now.keys.keys live.now }
    {
        self.keys.contains(&live.key())
    }

    // Adds the plan of `live`, which isn't listed yet. Reading it costs its rows (an estimate) and
    // `QUERY_COST`. If that is more than is left, the plan isn't added, and the list isn't complete from now
    // on. If memory runs out, the error is `AllocError`.
    fn take(&mut self, live: &LiveVolume) -> Result<(), AllocError>
        ensures { OnOk result (TakesPlan live.now self.old self.new) }
    {
        let rows = live.rows.saturating_add(QUERY_COST);
        if self.room < rows {
            self.is_complete = false;
            return Ok(());
        }
        self.room -= rows;
        self.keys.insert(live.key())?;
        Ok(())
    }

    /// The keys of the plans, ascending; `None` if the list isn't complete, since a limit was exceeded.
    ///
    /// # Errors
    ///
    /// `AllocError` if memory runs out.
    pub(crate) fn if_complete(self, alloc: Global) -> Result<Option<Vec<PlanKey>>, AllocError>
        ensures { IfOk result (λ found. IfSome found (λ keys.
            (keys.items ≡ self.keys.keys) × (self.is_complete ≡ true))) }
    {
        if !self.is_complete {
            return Ok(None);
        }
        let mut keys = Vec::new(alloc);
        for key in self.keys {
            keys.push(key)?;
        }
        Ok(Some(keys))
    }
}

/// Adds to `near` the wanted plans that have one of the volumes `lives` near `sought`, as long as `near` is
/// complete.
///
/// # Errors
///
/// `AllocError` if memory runs out.
pub(crate) fn add_each(
    near: &mut NearPlans,
    lives: &[LiveVolume],
    wanted: &Wanted,
    sought: &SearchArea,
) -> Result<(), AllocError>
    ensures { OnOk result (AddsPlans wanted.now (sought_has sought.now) lives.now near.old near.new) }
{
    for live in lives {
        near.add_if_near(live, wanted, sought)?;
    }
    Ok(())
}
