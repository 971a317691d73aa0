//! The slabs of other plans that overlap an extent, read by one query for each range of leaves at which they
//! may begin. A slab is one range of leaves (S2 cells of level 30 along the curve), one of altitudes and one
//! of times. An extent is a slab of which is asked what plans hold in it. What is read is that of the state,
//! if the disk returned what was written. A live plan isn't closed.

ghost use Rattle.std.specs.Prelude.{◌<◌, IfSome, IsTrue, OnOk, length};
ghost use Rattle.std.specs.List.{AllByRecursion};
ghost use Rattle.sqlite.specs.{State.HasCleanDisk, Held.state};
ghost use Rattle.desk_store.specs.World.{IsId};
ghost use Rattle.desk_sql.specs.Queries.{WasOpen};
ghost use Rattle.row_codec.specs.{RowsRead.AreWanted, RowsRead.HaveTaken, RowsRead.HaveTakenAll, RowsRead.is_asked, SpanBounds.Bounds, SpanBounds.IsWithinExtent};
ghost use Rattle.desk_tables.specs.Store.{ReadsSpans, spans_shown};

use crate::reading::readers::slabs_if_read;
use crate::tables::DeskTables;
use desk_sql::{other_spans, rival_spans};
use desk_store::StoreFault;
use live_index::Wanted;
use row_codec::rivals::{SpanCollector, span_filter_from};
use row_codec::span_bounds::SpanBounds;
use s2_cover::Span;
use sqlite_trees::store::Alter;
use volume4d::{Held, Slab};

impl<S: Alter> DeskTables<S> {
    /// Reads slabs that have, at each point of `extent`, the greatest priority of the live plans there that
    /// `wanted` selects. Outside `extent` the slabs mean nothing. `span_bounds` say at which leaves the spans
    /// of these plans may begin: only rows that begin there are read.
    ///
    /// # Errors
    ///
    /// `OutOfMemory` if memory runs out. `Store` if SQLite fails for another cause, or if a row isn't that of
    /// a slab.
    #[tactic(auto, using(table_load::proofs::lemmas::Frame::reads_itself))]
    pub(crate) fn wanted_in_tables(
        &mut self,
        wanted: &Wanted,
        extent: &Slab,
        span_bounds: &SpanBounds,
    ) -> Result<Vec<Held>, StoreFault>
        requires { Bounds span_bounds.now self.old.world }
        ensures { ReadsSpans S.Store self.old self.new result (λ helds.
            AreWanted self.old.world wanted.now extent.now helds.items) }
    {
        let queries = span_bounds.queries(self.allocator(), extent)?;
        id_is_valid(wanted);
        self.query_all(wanted, extent, &queries)
    }

    // Runs `query_one` for each range of leaves in `queries`; returns all slabs that they find. The contract
    // leaves the order of the slabs open. The first query that fails ends it.
    #[tactic(auto, using(table_load::proofs::lemmas::Frame::reads_then))]
    fn query_all(
        &mut self,
        wanted: &Wanted,
        extent: &Slab,
        queries: &[Span],
    ) -> Result<Vec<Held>, StoreFault>
        requires { AllByRecursion (IsWithinExtent extent.now) queries.now }
        ensures read { ReadsSpans S.Store self.old self.new result (λ helds.
            HaveTakenAll (is_asked wanted.now extent.now) queries.now
            (spans_shown S.Store self.old) helds.items) }
        ensures open { HasCleanDisk (state S.Store self.new.held) →
            OnOk result (0 < length queries.now → IsTrue (state S.Store self.old.held).is_open) }
    {
        let mut helds = Vec::new(self.allocator());
        for query in queries {
            let mut more = self.query_one(wanted, extent, query)?;
            helds.append(&mut more)?;
        }
        Ok(helds)
    }

    // Runs one query for slabs of the plans that `wanted` selects: those that begin at a leaf of the range
    // `query` and overlap `extent`. `wanted` leaves out one plan of an operator, or without an id all.
    fn query_one(
        &mut self,
        wanted: &Wanted,
        extent: &Slab,
        query: &Span,
    ) -> Result<Vec<Held>, StoreFault>
        requires { IsWithinExtent extent.now query.now }
        ensures read { ReadsSpans S.Store self.old self.new result (λ helds.
            HaveTaken (is_asked wanted.now extent.now query.now)
            (spans_shown S.Store self.old) helds.items) }
        ensures open { WasOpen S.Store self.old.held self.new.held result }
    {
        let mut rivals = SpanCollector::new(self.alloc);
        let span_filter = span_filter_from(query, extent, wanted.least);
        let low = query.first as i64;
        let operator = wanted.operator.as_str();
        match &wanted.id {
            Some(id) => {
                let mut buffer = [0u8; 36];
                let text = id.encode(&mut buffer);
                let queried = rival_spans(
                    &mut self.connection,
                    operator,
                    text,
                    span_filter,
                    low,
                    &mut rivals,
                );
                slabs_if_read(queried, rivals, self.reported)
            }
            None => {
                let queried = other_spans(
                    &mut self.connection,
                    operator,
                    span_filter,
                    low,
                    &mut rivals,
                );
                slabs_if_read(queried, rivals, self.reported)
            }
        }
    }
}

// States, for contracts alone, that the id of the plan which `wanted` leaves out, if there is one, is valid.
// It changes nothing: `encode` is called for its contract.
fn id_is_valid(wanted: &Wanted)
    ensures { IfSome wanted.now.id IsId }
{
    if let Some(id) = &wanted.id {
        id.encode(&mut [0u8; 36]);
    }
}
