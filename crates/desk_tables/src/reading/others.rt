//! The slabs of other operators' plans. A slab is one range of leaves (S2 cells of level 30 along the curve),
//! one of altitudes and one of times. An extent is a slab of which is asked what plans hold in it. What is
//! read is that of the state, if the disk returned what was written. A live plan isn't closed.

ghost use Rattle.std.specs.Prelude.{◌≡◌, None, cond};
ghost use Rattle.volume4d.specs.{Volume.Point, Slab.slabs_have, Slab.top_held};
ghost use Rattle.desk_store.specs.World.{held, AreHeldByOthers};
ghost use Rattle.desk_tables.specs.Store.{ReadsSpans};
ghost use Rattle.row_codec.specs.SpanBounds.{Knows, Bounds};

use crate::reading::plans::{MAX_ROWS, MAX_ROWS_AT_ONE};
use crate::tables::DeskTables;
use desk_rules::operator::Operator;
use desk_store::StoreFault;
use live_index::{Wanted, push_clipped};
use row_codec::known::MemoryIndex;
use row_codec::span_bounds::SpanBounds;
use sqlite_trees::store::Alter;
use volume4d::{Held, Slab};

impl<S: Alter> DeskTables<S> {
    /// Reads slabs that have, at each point of `extents`, the greatest priority of live plans of other
    /// operators there. Outside `extents` the slabs mean nothing. The index `known.live` finds the plans with
    /// a volume near `extents`: if reading them costs few rows (`max_rows`), only their rows are read; else
    /// all rows in regions of `extents` that have such a volume near.
    ///
    /// # Errors
    ///
    /// `OutOfMemory` if memory runs out. `Store` if SQLite fails for another cause, or if a row isn't that of
    /// a slab.
    #[tactic(auto, using(table_load::proofs::lemmas::Frame::reads_itself))]
    pub(crate) fn held_by_others(
        &mut self,
        operator: &Operator,
        extents: &[Slab],
        known: &MemoryIndex,
    ) -> Result<Vec<Held>, StoreFault>
        requires { Knows known.now self.old.world }
        ensures { ReadsSpans S.Store self.old self.new result (λ helds.
            AreHeldByOthers self.old.world operator.now extents.now helds.items) }
    {
        let wanted = wanted_of_others(operator);
        let max_rows = if extents.len() < 2 {
            MAX_ROWS_AT_ONE
        } else {
            MAX_ROWS
        };
        if let Some(keys) = known
            .live
            .wanted_plans(self.allocator(), &wanted, extents, max_rows)?
        {
            return self.held_near(&keys, extents);
        }
        let regions = known.live.regions(self.allocator(), operator, extents)?;
        self.held_in_regions(operator, &regions, &known.span_bounds)
    }

    // Reads slabs that have, at each point of `regions`, the greatest priority of other operators' live plans
    // there, and no point outside `regions`. It fails as `held_by_others` does.
    #[tactic(auto, using(table_load::proofs::lemmas::Frame::reads_then))]
    fn held_in_regions(
        &mut self,
        operator: &Operator,
        regions: &[Slab],
        span_bounds: &SpanBounds,
    ) -> Result<Vec<Held>, StoreFault>
        requires { Bounds span_bounds.now self.old.world }
        ensures { ReadsSpans S.Store self.old self.new result (λ helds. (x : Point) → top_held helds.items x
            ≡ cond (slabs_have regions.now x) (held self.old.world operator.now x) None) }
    {
        let mut helds = Vec::new(self.allocator());
        let wanted = wanted_of_others(operator);
        for region in regions {
            let more = self.wanted_in_tables(&wanted, region, span_bounds)?;
            push_clipped(&mut helds, &more, region)?;
        }
        Ok(helds)
    }
}

// The selection of the live plans of all operators but `operator`, of any priority.
fn wanted_of_others(operator: &Operator) -> Wanted
    ensures { result ≡ record { operator = operator.now; id = None; least = 0 } }
{
    Wanted {
        operator: *operator,
        id: None,
        least: 0,
    }
}
