//! Slabs with the priority of their plan (`Held`), read from rows of `span2` one at a time. A slab is one
//! range of leaves (S2 cells of level 30, by their positions along the curve), with one range of altitudes
//! and one of seconds. A row has the columns `first`, `last`, `lower`, `upper`, `start`, `stop`, `priority`,
//! counted from 0. A filter selects those that may be rivals of a plan. A rival is a stored span of another
//! live plan, at a priority that counts.

ghost use Rattle.std.specs.Prelude.{◌≡◌, ◌≢◌, ◌<◌, ◌*◌, ◌^◌, ℕ, pos, [], IfErr, IfOk};
ghost use Rattle.sqlite_value.specs.declared.value.Value.TheVariants.{Int};
ghost use Rattle.sqlite_value.specs.Order.{column};
ghost use Rattle.row_codec.specs.RowsRead as spec;
ghost use Rattle.volume4d.specs.declared.slab.Held.{Held as One};
ghost use Rattle.row_codec.specs.RowsRead.{FitsColumns, IsHeldIn, IsNoHeld, IsSlabIn, HasTakenHelds};

use crate::listing::error_of;
use crate::values::{count_at, i32_at, i64_at};
use desk_sql::{RowVisitor, SpanFilter};
use desk_store::StoreFault;
use s2_cover::Span;
use sqlite::{Error, Row};
use std::alloc::Global;
use volume4d::{Held, Slab};

// How many leaf positions there are along the curve.
const POSITIONS: i64 = 6 << 60;

/// A visitor of rows of `span2` that collects their slabs, each with its plan's priority.
#[derive(Drop)]
pub struct SpanCollector {
    helds: Vec<Held>,
}

impl SpanCollector {
    /// A collector before the first row.
    pub fn new(alloc: Global) -> SpanCollector
        ensures { HasTakenHelds result.helds.items [] }
    {
        SpanCollector {
            helds: Vec::new(alloc),
        }
    }

    /// The slabs, one for each row, in the order of the rows.
    pub fn finish(self) -> Vec<Held>
        ensures { result.items ≡ self.helds.items }
    {
        self.helds
    }
}

impl RowVisitor for SpanCollector {
    ghost use Rattle.std.specs.Prelude.{◌≡◌, ◌⊎◌, ⊤};
    ghost use Rattle.sqlite.specs.declared.error.{Error.TheVariants.SqliteFailure, ErrorCode.TheVariants.OutOfMemory};
    ghost use Rattle.row_codec.specs.RowsRead.{HasTakenHelds, IsNoHeld};

    ghost has_taken = { λ r rows. HasTakenHelds r.helds.items rows };

    ghost keeps = { λ _ _. ⊤ };

    ghost refuses = { λ taken row e. (e ≡ SqliteFailure OutOfMemory) ⊎ IsNoHeld row };

    // Keeps the slab of the row. It fails with `OutOfMemory` if memory runs out, and with `DatabaseCorrupt`
    // if the row isn't that of a slab.
    #[tactic(auto, using(crate::proofs::RivalLemmas::one_taken))]
    fn take(&mut self, row: &Row) -> Result<(), Error> {
        match held_in(row) {
            Ok(held) => Ok(self.helds.push(held)?),
            Err(e) => Err(error_of(e)),
        }
    }
}

/// The filter that selects the spans which overlap `extent` in leaves, altitudes and seconds, and whose plan
/// has at least the priority `least`.
pub fn span_filter_of(extent: &Slab, least: u32) -> SpanFilter
    ensures { result ≡ spec.span_filter_of extent.now least }
{
    SpanFilter {
        first: extent.first as i64,
        last: extent.last as i64,
        lower: i64::from(extent.lower),
        upper: i64::from(extent.upper),
        start: extent.start,
        stop: extent.end,
        priority: least,
    }
}

/// As `span_filter_of`, but a span has to begin at the last leaf of `query` or before. Spans are looked up by
/// ranges of leaves in which they begin (`query`). This filter has that range's end; its beginning, `low`, is
/// a parameter of its own when rows are read. So of `query` only `last` is used here.
pub fn span_filter_from(query: &Span, extent: &Slab, least: u32) -> SpanFilter
    requires { query.now.last < 6 * 2 ^ 60 }
    ensures { result ≡ spec.span_filter_from query.now extent.now least }
{
    let mut filter = span_filter_of(extent, least);
    filter.last = query.last as i64;
    filter
}

// The slab in columns 0 to 5 of `row`, with its plan's priority (column 6). `Store` if one of these columns
// isn't an integer in its range.
fn held_in(row: &Row) -> Result<Held, StoreFault>
    ensures value { IfOk result (λ held. IsHeldIn row.now held) }
    ensures refused { IfErr result (λ e. e ≡ StoreFault.Store → IsNoHeld row.now) }
{
    Ok(Held {
        slab: slab_in(row)?,
        priority: count_at(row, 6)?,
    })
}

// The slab in columns 0 to 5 of `row`: `first` to `stop`. `Store` if one isn't an integer in its range: a
// leaf position for `first` and `last`, 32 bits for `lower` and `upper`. Their order isn't checked.
fn slab_in(row: &Row) -> Result<Slab, StoreFault>
    ensures value { IfOk result (λ slab. IsSlabIn row.now slab) }
    ensures refused { IfErr result (λ e. e ≡ StoreFault.Store → (shown : One) → FitsColumns shown
        → ¬ IsSlabIn row.now shown.slab) }
{
    Ok(Slab {
        first: position_at(row, 0)?,
        last: position_at(row, 1)?,
        lower: i32_at(row, 2)?,
        upper: i32_at(row, 3)?,
        start: i64_at(row, 4)?,
        end: i64_at(row, 5)?,
    })
}

// The leaf position in the column `at`; `Store` if that isn't an integer from 0 to `6 * 2^60 - 1`.
fn position_at(row: &Row, at: usize) -> Result<u64, StoreFault>
    ensures value { IfOk result (λ position. column row.now at ≡ Int (pos position)) }
    ensures leaf { IfOk result (λ position. position < 6 * 2 ^ 60) }
    ensures refused { IfErr result (λ e. e ≡ StoreFault.Store →
        (n : ℕ) → n < 6 * 2 ^ 60 → column row.now at ≢ Int (pos n)) }
{
    let position = i64_at(row, at)?;
    if (0..POSITIONS).contains(&position) {
        Ok(position as u64)
    } else {
        Err(StoreFault::Store)
    }
}
