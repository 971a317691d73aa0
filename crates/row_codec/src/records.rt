//! The rows of a plan, as they are written to the tables. A plan's id is text there, hyphenated and in lower
//! case, and a volume has a place: its number in the plan, counted from 0. Span bounds hold for a span if the
//! queries that they give find its row.

ghost use Rattle.std.specs.Prelude.{◌≡◌, ◌≤◌, ◌<◌, ◌+◌, ◌^◌, ℕ, pos, IfOk, map};
ghost use Rattle.std.specs.{List.AllByRecursion, String.string_bytes};
ghost use Rattle.volume4d.specs.Footprint.{footprint_bytes};
ghost use Rattle.desk_sql.specs.Rows.{cover_row};
ghost use Rattle.desk_changes.specs.RowChanges.{volume_row_in, cover_of, span_row_in};
ghost use Rattle.desk_store.specs.{Changes.filed_by, World.IsId, World.IsValidVolume};
ghost use Rattle.row_codec.specs.Tables as spec;
ghost use Rattle.row_codec.specs.Tables.{id_text, area_rows, area_covers, ArePlanSpanRows, AreSpanRowsFrom, volume_record, slab_record, AreAskedOf, AreCanonOf};
ghost use Rattle.row_codec.specs.SpanBounds.{IsKnownRow, Keeps};

use crate::span_bounds::SpanBounds;
use desk_changes::{SpanRecord, VolumeRecord};
use desk_rules::plan::PlanRow;
use desk_rules::plan_id::PlanId;
use desk_rules::words::{Aircraft, Usage};
use std::alloc::{AllocError, Global};
use volume4d::{Slab, Volume};

/// The number that stands for `usage` in a row of `plan`.
pub fn usage_number(usage: Usage) -> u32
    ensures { result ≡ spec.usage_number usage }
{
    match usage {
        Usage::Planned => 0,
        Usage::InUse => 1,
        Usage::Closed => 2,
    }
}

/// The number that stands for the state `aircraft` in a row of `plan`.
pub fn aircraft_number(aircraft: Aircraft) -> u32
    ensures { result ≡ spec.aircraft_number aircraft }
{
    match aircraft {
        Aircraft::Nominal => 0,
        Aircraft::OffNominal => 1,
        Aircraft::Contingent => 2,
    }
}

/// Each of `ids` as text, hyphenated and in lower case. The contract also says that they are valid ids.
///
/// # Errors
///
/// `AllocError` if memory runs out.
pub fn texts_of(alloc: Global, ids: &[PlanId]) -> Result<Vec<String>, AllocError>
    ensures value { IfOk result (λ texts. map string_bytes texts.items ≡ map id_text ids.now) }
    ensures valid { IfOk result (λ texts. AllByRecursion IsId ids.now) }
{
    let mut texts = Vec::new(alloc);
    for id in ids {
        texts.push(text_of(alloc, id)?)?;
    }
    Ok(texts)
}

// `id` as text, hyphenated and in lower case. The contract also says that it is a valid id.
fn text_of(alloc: Global, id: &PlanId) -> Result<String, AllocError>
    ensures value { IfOk result (λ text. string_bytes text ≡ id_text id.now) }
    ensures valid { IsId id.now }
{
    let mut buffer = [0u8; 36];
    String::from_str(alloc, id.encode(&mut buffer))
}

/// The footprints of `volumes`, in the same order, as bytes for the column `asked`. The contract also says
/// that the volumes are within the limits.
///
/// # Errors
///
/// `AllocError` if memory runs out.
pub fn asked_of(alloc: Global, volumes: &[Volume]) -> Result<Vec<Vec<u8>>, AllocError>
    ensures value { IfOk result (λ asked. AreAskedOf volumes.now (map (λ bytes. bytes.items) asked.items)) }
    ensures valid { IfOk result (λ asked. AllByRecursion IsValidVolume volumes.now) }
{
    let mut asked = Vec::new(alloc);
    for volume in volumes {
        asked.push(asked_bytes(alloc, volume)?)?;
    }
    Ok(asked)
}

// The footprint of `volume` as bytes. The contract also says that the volume is within the limits.
fn asked_bytes(alloc: Global, volume: &Volume) -> Result<Vec<u8>, AllocError>
    ensures value { IfOk result (λ bytes. bytes.items ≡ footprint_bytes volume.now.footprint) }
    ensures valid { IfOk result (λ bytes. IsValidVolume volume.now) }
{
    // Called for its contract alone: the window (altitudes and times) of a volume is valid.
    let _window = volume.window();
    volume.footprint().to_bytes(alloc)
}

/// The rows of `volume2` for `plan`, one for each volume in order, at the places 0, 1 and so on. `operator`
/// is the name of the plan's operator, and `id` the plan's id as text. `asked` and `canon` have, for each
/// volume, the bytes of its footprint and of its canonical cover.
///
/// # Errors
///
/// `AllocError` if memory runs out.
pub fn volume_rows<'a>(
    alloc: Global,
    operator: &'a str,
    id: &'a str,
    plan: &PlanRow,
    asked: &'a [Vec<u8>],
    canon: &'a [Vec<u8>],
) -> Result<Vec<VolumeRecord<'a>>, AllocError>
    requires id { id.now ≡ id_text plan.now.id }
    requires asked { AreAskedOf plan.now.area (map (λ bytes. bytes.items) asked.now) }
    requires canon { AreCanonOf plan.now.area (map (λ bytes. bytes.items) canon.now) }
    ensures volumes { IfOk result (λ rows. map volume_row_in rows.items
        ≡ area_rows (filed_by operator.now plan.now)) }
    ensures covers { IfOk result (λ rows. map cover_of rows.items
        ≡ area_covers (filed_by operator.now plan.now)) }
{
    let volumes = plan.area.volumes();
    let mut rows = Vec::new(alloc);
    let mut place = 0u32;
    for volume in volumes {
        let at = place as usize;
        rows.push(volume_row(operator, id, place, volume, &asked[at], &canon[at]))?;
        place += 1;
    }
    Ok(rows)
}

// The row of `volume`, which is at `place` in the plan `id` of `operator`; `asked` and `canon` are the bytes
// of its footprint and canonical cover.
fn volume_row<'a>(
    operator: &'a str,
    id: &'a str,
    place: u32,
    volume: &Volume,
    asked: &'a [u8],
    canon: &'a [u8],
) -> VolumeRecord<'a>
    ensures volume { volume_row_in result
        ≡ volume_record operator.now id.now place volume.now.window asked.now }
    ensures cover { cover_of result ≡ cover_row operator.now id.now place canon.now }
{
    let window = volume.window();
    VolumeRecord {
        operator,
        id,
        place,
        lower: i64::from(window.lower()),
        upper: i64::from(window.upper()),
        start: window.start(),
        stop: window.end(),
        asked,
        canon,
    }
}

/// The rows of `span2` for `plan`: one for each range of leaves of each volume if the plan is live, and none
/// if it is closed. `operator` is the name of the plan's operator, and `id` the plan's id as text.
///
/// # Errors
///
/// `AllocError` if memory runs out.
pub fn span_rows<'a>(
    alloc: Global,
    operator: &'a str,
    id: &'a str,
    plan: &PlanRow,
) -> Result<Vec<SpanRecord<'a>>, AllocError>
    requires { id.now ≡ id_text plan.now.id }
    ensures { IfOk result (λ rows. ArePlanSpanRows (filed_by operator.now plan.now)
        (map span_row_in rows.items)) }
{
    if plan.usage.is_live() {
        area_spans(alloc, operator, id, plan)
    } else {
        Ok(Vec::new(alloc))
    }
}

// The rows of `span2` for `plan`, as if it is live: one for each range of leaves of each volume. `operator`
// and `id` are as in `span_rows`.
fn area_spans<'a>(
    alloc: Global,
    operator: &'a str,
    id: &'a str,
    plan: &PlanRow,
) -> Result<Vec<SpanRecord<'a>>, AllocError>
    requires { id.now ≡ id_text plan.now.id }
    ensures { IfOk result (λ rows. AreSpanRowsFrom (filed_by operator.now plan.now) 0 plan.now.area
        (map span_row_in rows.items)) }
{
    let volumes = plan.area.volumes();
    let mut rows = Vec::new(alloc);
    let mut place: u32 = 0;
    for volume in volumes {
        let slabs = volume.slabs()?;
        rows.extend_from_slice(&slab_rows(alloc, operator, id, place, plan.priority, &slabs)?)?;
        place += 1;
    }
    Ok(rows)
}

// The rows of `slabs`, those of the volume at `place` in `operator`'s plan `id`; `priority` is the plan's.
fn slab_rows<'a>(
    alloc: Global,
    operator: &'a str,
    id: &'a str,
    place: u32,
    priority: u32,
    slabs: &[Slab],
) -> Result<Vec<SpanRecord<'a>>, AllocError>
    ensures { IfOk result (λ rows. map span_row_in rows.items
        ≡ map (slab_record operator.now id.now place priority) slabs.now) }
{
    let mut rows = Vec::new(alloc);
    for slab in slabs {
        rows.push(slab_row(operator, id, place, priority, slab))?;
    }
    Ok(rows)
}

// The row of `slab`, one of the volume at `place` in `operator`'s plan `id`; `priority` is the plan's.
fn slab_row<'a>(
    operator: &'a str,
    id: &'a str,
    place: u32,
    priority: u32,
    slab: &Slab,
) -> SpanRecord<'a>
    ensures { span_row_in result ≡ slab_record operator.now id.now place priority slab.now }
{
    SpanRecord {
        operator,
        id,
        place,
        first: slab.first as i64,
        last: slab.last as i64,
        lower: i64::from(slab.lower),
        upper: i64::from(slab.upper),
        start: slab.start,
        stop: slab.end,
        priority,
    }
}

/// Bounds that hold for each span for which `span_bounds` hold, and for the spans of the rows `spans`.
pub fn bounds_with_rows(span_bounds: &SpanBounds, spans: &[SpanRecord<'_>]) -> SpanBounds
    ensures kept { Keeps span_bounds.now result }
    ensures known { AllByRecursion (IsKnownRow result) (map span_row_in spans.now) }
{
    let mut after = *span_bounds;
    for span in spans {
        after = with_span_row(&after, span);
    }
    after
}

// Bounds that hold for each span for which `span_bounds` hold, and for the span of the row `span`.
fn with_span_row(span_bounds: &SpanBounds, span: &SpanRecord<'_>) -> SpanBounds
    ensures kept { Keeps span_bounds.now result }
    ensures known { IsKnownRow result (span_row_in span.now) }
{
    span_bounds.with(span.first, span.last)
}
