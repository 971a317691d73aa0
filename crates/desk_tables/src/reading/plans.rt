//! The slabs of a few plans, whose spans are looked up by their keys: operator and id. A slab is one range of
//! leaves (S2 cells of level 30 along the curve), one of altitudes and one of times. An extent is a slab of
//! which is asked what plans hold in it. What is read is the state's, if the disk returned what was written.
//! A live plan isn't closed.

ghost use Rattle.std.specs.Prelude.{◌≡◌, ◌+◌, ◌-◌, ◌^◌, min, nat_le, true, if◌then◌else◌};
ghost use Rattle.volume4d.specs.{Volume.Point, Slab.slabs_have, Slab.top_held};
ghost use Rattle.desk_rules.specs.Conflict.{at_least};
ghost use Rattle.desk_store.specs.World.{IsId, HaveLevel};
ghost use Rattle.live_index.specs.Live.{listed_top};
ghost use Rattle.desk_tables.specs.Store.{ReadsSpans, spans_shown};
ghost use Rattle.row_codec.specs.RowsRead.{HaveTaken, is_asked_of_plan, query_leaf_count};
ghost use Rattle.desk_sql.specs.Queries.{WasOpen};

use crate::reading::readers::slabs_if_read;
use crate::tables::DeskTables;
use desk_sql::plan_spans;
use desk_store::StoreFault;
use live_index::{PlanKey, enclosing_slab};
use row_codec::rivals::{SpanCollector, span_filter_of};
use s2_cover::Span;
use sqlite_trees::store::Alter;
use volume4d::{Held, Slab};

/// For one extent, the most rows that are read by the keys of plans. If there are more, one query for the
/// rows near the extent costs less.
pub(crate) const MAX_ROWS_AT_ONE: usize = 160;

/// The most rows that are read by the keys of plans if each extent would need a query of its own, or if
/// queries might read many rows. Reading so many takes half a second.
pub(crate) const MAX_ROWS: usize = 1 << 19;

// How many leaves a short range of the curve has at most: as many as a cell of level 7.
const MAX_SHORT: u64 = 1 << 46;

// The most rows that are read by the keys of plans if the queries are of a short range of the curve: there
// are few rows there, and it costs less to read them all.
const MAX_ROWS_BESIDE_SHORT: usize = 1 << 12;

impl<S: Alter> DeskTables<S> {
    /// Reads slabs that have, at each point of `extents`, the greatest priority that live plans with the keys
    /// `keys` hold there. Outside `extents` the slabs mean nothing. Only these plans' rows are read.
    ///
    /// # Errors
    ///
    /// `OutOfMemory` if memory runs out. `Store` if SQLite fails for another cause, or if a row isn't that of
    /// a slab.
    #[tactic(auto, using(table_load::proofs::lemmas::Frame::reads_itself))]
    pub(crate) fn held_near(
        &mut self,
        keys: &[PlanKey],
        extents: &[Slab],
    ) -> Result<Vec<Held>, StoreFault>
        ensures { ReadsSpans S.Store self.old self.new result (λ helds.
            (x : Point) → slabs_have extents.now x ≡ true
            → top_held helds.items x ≡ listed_top keys.now self.old.world.plans x) }
    {
        let Some((first, others)) = extents.split_first() else {
            return Ok(Vec::new(self.allocator()));
        };
        self.held_by_plans(keys, 0, &enclosing_slab(first, others))
    }

    /// Reads slabs that have, at each point of `extent`, the greatest priority that live plans with the keys
    /// `keys` hold there, if that is at least `least`. Outside `extent` the slabs mean nothing. Only these
    /// plans' rows are read.
    ///
    /// # Errors
    ///
    /// Those of `held_near`.
    #[tactic(auto, using(table_load::proofs::lemmas::Frame::reads_then))]
    pub(crate) fn held_by_plans(
        &mut self,
        keys: &[PlanKey],
        least: u32,
        extent: &Slab,
    ) -> Result<Vec<Held>, StoreFault>
        ensures { ReadsSpans S.Store self.old self.new result (λ helds. HaveLevel extent.now helds.items
            (λ x. at_least least (listed_top keys.now self.old.world.plans x))) }
    {
        let mut helds = Vec::new(self.allocator());
        for key in keys {
            let mut more = self.held_by_plan(key, least, extent)?;
            helds.append(&mut more)?;
        }
        Ok(helds)
    }

    // Reads the slabs of the plan with the key `key` that overlap `extent`, if its priority is at least
    // `least`. It fails as `held_near` does.
    fn held_by_plan(
        &mut self,
        key: &PlanKey,
        least: u32,
        extent: &Slab,
    ) -> Result<Vec<Held>, StoreFault>
        ensures read { ReadsSpans S.Store self.old self.new result (λ helds.
            HaveTaken (is_asked_of_plan least extent.now key.now)
            (spans_shown S.Store self.old) helds.items) }
        ensures id { IsId key.now.id }
        ensures open { WasOpen S.Store self.old.held self.new.held result }
    {
        let mut rivals = SpanCollector::new(self.alloc);
        let mut buffer = [0u8; 36];
        let id = key.id.encode(&mut buffer);
        let span_filter = span_filter_of(extent, least);
        let queried = plan_spans(
            &mut self.connection,
            key.operator.as_str(),
            id,
            span_filter,
            &mut rivals,
        );
        slabs_if_read(queried, rivals, self.reported)
    }
}

/// The most rows that are read by the keys of plans; if there were more, `queries` are run instead. It is
/// lower if the ranges of `queries` are short, since these read few rows then. This only matters for speed.
pub(crate) fn max_rows_beside(queries: &[Span]) -> usize
    ensures { result ≡ (if nat_le (query_leaf_count queries.now) MAX_SHORT then MAX_ROWS_BESIDE_SHORT
        else MAX_ROWS) }
{
    if count_leaves(queries) <= MAX_SHORT {
        MAX_ROWS_BESIDE_SHORT
    } else {
        MAX_ROWS
    }
}

// How many leaves the ranges of all `queries` have together; the sum saturates.
fn count_leaves(queries: &[Span]) -> u64
    ensures { result ≡ min (query_leaf_count queries.now) (2 ^ 64 - 1) }
{
    let mut leaves: u64 = 0;
    for query in queries {
        leaves = add_leaves(leaves, query);
    }
    leaves
}

// The sum of `leaves` and the number of leaves in the range `query`, whose ends are included; it saturates.
fn add_leaves(leaves: u64, query: &Span) -> u64
    ensures { result ≡ min (leaves + (query.now.last - query.now.first + 1)) (2 ^ 64 - 1) }
{
    leaves
        .saturating_add(query.last.saturating_sub(query.first))
        .saturating_add(1)
}
