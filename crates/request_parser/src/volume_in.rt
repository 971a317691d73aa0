//! The volumes of requests, from their JSON. A volume is ground (S2 cells by their tokens, or a rectangle on
//! a face of S2's cube) with altitudes and times.
ghost use Rattle.std.specs.Prelude.{◌≡◌, option_map};
ghost use Rattle.std.specs.{Int.is_in_range, Result.result_ok};
ghost use Rattle.s2_cover.specs.Covers.{rect_or_fault};
ghost use Rattle.volume4d.specs.{VolumeLimits.max_volumes, Volume.window_or_fault, Footprint.shape_of};
ghost use Rattle.serde_json.specs.View.{view, items_view};
ghost use Rattle.request_parser.specs.{Messages.GivesIfRoom, Requests.each};
ghost use Rattle.request_parser.specs.Requests as spec;

use crate::json_in::{integer_at, non_null_at, text_at};
use crate::times::{parse_end, parse_start};
use crate::wire_fault::{ReadError, WireFault};
use s2_cellid::CellId;
use s2_cover::Rect;
use serde_json::Value;
use std::alloc::Global;
use volume4d::{Area, Footprint, MAX_VOLUMES, Volume, VolumeFault, Window};

/// Reads the area of a plan from `items`, its 1 to 32 volumes as JSON.
///
/// # Errors
///
/// `OutOfMemory` if memory runs out. Else `BadVolume` if there are too few or too many volumes; else the
/// fault of the first volume that has one.
pub fn read_area(alloc: Global, items: &[Value]) -> Result<Area, ReadError>
    ensures { GivesIfRoom (λ area. area) result (spec.area_of (items_view items.now)) }
{
    if !is_volume_count(items.len()) {
        return Err(ReadError::Fault(WireFault::BadVolume));
    }
    let volumes = read_volumes(alloc, items)?;
    Area::try_new(volumes).ok_or(ReadError::Fault(WireFault::BadVolume))
}

// Whether an area may have `count` volumes: 1 to 32.
fn is_volume_count(count: usize) -> bool
    ensures { result ≡ is_in_range 1 max_volumes count }
{
    (1..=MAX_VOLUMES).contains(&count)
}

// Reads a volume from each of `items`, in their order. The error is that of the first volume that has one.
fn read_volumes(alloc: Global, items: &[Value]) -> Result<Vec<Volume>, ReadError>
    ensures { GivesIfRoom (λ v. v.items) result (each spec.volume_of (items_view items.now)) }
{
    let mut volumes = Vec::new(alloc);
    for item in items {
        volumes.push(read_volume(alloc, item)?)?;
    }
    Ok(volumes)
}

/// Reads a volume from `value`, its JSON: a footprint with altitudes and times.
///
/// # Errors
///
/// `OutOfMemory` if memory runs out. Else `BadVolume` if the volume is malformed or out of its limits; else
/// `TooManyCells` if the cover of its rectangle has more than 1,024 cells.
#[tactic(auto, unfolding(crate::specs::Requests::volume_of))]
pub fn read_volume(alloc: Global, value: &Value) -> Result<Volume, ReadError>
    ensures { GivesIfRoom (λ volume. volume) result (spec.volume_of (view value.now)) }
{
    let shape = value.get("volume").ok_or(WireFault::BadVolume)?;
    let window = read_window(value, shape)?;
    let footprint = read_footprint(alloc, shape)?;
    make_volume(alloc, footprint, window)
}

// Makes a volume of a footprint and a window. `BadVolume` if a cell list does not have 1 to 64 cells,
// `TooManyCells` if the cover of a rectangle has more than 1,024, `OutOfMemory` if memory runs out.
#[tactic(auto, unfolding(crate::specs::Requests::volume_over))]
fn make_volume(alloc: Global, footprint: Footprint, window: Window) -> Result<Volume, ReadError>
    ensures { GivesIfRoom (λ volume. volume) result (spec.volume_over (shape_of footprint) window) }
{
    match Volume::try_new(alloc, footprint, window) {
        Ok(volume) => Ok(volume),
        Err(VolumeFault::Cells) => Err(ReadError::Fault(WireFault::BadVolume)),
        Err(VolumeFault::TooManyCells) => Err(ReadError::Fault(WireFault::TooManyCells)),
        Err(VolumeFault::OutOfMemory) => Err(ReadError::OutOfMemory),
    }
}

// Reads the footprint from `shape`, the member `volume` of a volume: its `cells` or its `rectangle`.
// `BadVolume` unless just one of them is there and not null, and is well-formed. How many cells there are is
// not checked.
#[tactic(auto, unfolding(crate::specs::Requests::footprint_of))]
fn read_footprint(alloc: Global, shape: &Value) -> Result<Footprint, ReadError>
    ensures { GivesIfRoom shape_of result (spec.footprint_of (view shape.now)) }
{
    match (non_null_at(shape, "cells"), non_null_at(shape, "rectangle")) {
        (Some(list), None) => Ok(Footprint::Cells(read_cells(alloc, list)?)),
        (None, Some(parts)) => Ok(Footprint::Rectangle(read_rectangle(parts)?)),
        _ => Err(ReadError::Fault(WireFault::BadVolume)),
    }
}

// Reads `list`, the value of `cells`: an array of S2 tokens, maybe empty. `BadVolume` if it is not an array,
// or one of them is not a token.
#[tactic(auto, unfolding(crate::specs::Requests::cells_of))]
fn read_cells(alloc: Global, list: &Value) -> Result<Vec<CellId>, ReadError>
    ensures { GivesIfRoom (λ v. v.items) result (spec.cells_of (view list.now)) }
{
    let items = list.as_array().ok_or(WireFault::BadVolume)?;
    read_tokens(alloc, items)
}

// Reads `value`, the value of `rectangle`: the leaves of a face by their least and greatest coordinates.
// `BadVolume` if a number is missing, or the numbers are not those of a rectangle.
#[tactic(auto, unfolding(crate::specs::Requests::rectangle_of))]
fn read_rectangle(value: &Value) -> Result<Rect, WireFault>
    ensures { result ≡ spec.rectangle_of (view value.now) }
{
    let face = natural_at(value, "face").ok_or(WireFault::BadVolume)?;
    let i_min = natural_at(value, "i_min").ok_or(WireFault::BadVolume)?;
    let i_max = natural_at(value, "i_max").ok_or(WireFault::BadVolume)?;
    let j_min = natural_at(value, "j_min").ok_or(WireFault::BadVolume)?;
    let j_max = natural_at(value, "j_max").ok_or(WireFault::BadVolume)?;
    let level = natural_at(value, "level").ok_or(WireFault::BadVolume)?;
    checked_rect(face, i_min, i_max, j_min, j_max, level).ok_or(WireFault::BadVolume)
}

// The rectangle of the leaves of `face` (0 to 5) from `i_min` to `i_max` and from `j_min` to `j_max`, all
// included (0 to `2^30 - 1`), with squares of `level` (8 to 24). `None` if a number is out of range, or a
// minimum is above its maximum.
fn checked_rect(
    face: u64,
    i_min: u64,
    i_max: u64,
    j_min: u64,
    j_max: u64,
    level: u64,
) -> Option<Rect>
    ensures { result ≡ result_ok (rect_or_fault (record {
      face = face;
      i_min = i_min;
      i_max = i_max;
      j_min = j_min;
      j_max = j_max;
      level = level;
    })) }
{
    let face = u8::try_from(face).ok()?;
    let i_min = u32::try_from(i_min).ok()?;
    let i_max = u32::try_from(i_max).ok()?;
    let j_min = u32::try_from(j_min).ok()?;
    let j_max = u32::try_from(j_max).ok()?;
    let level = u8::try_from(level).ok()?;
    Rect::try_new(face, i_min, i_max, j_min, j_max, level).ok()
}

// The member `key` of `value`, if that is an object and the member an integer from 0 to `i64::MAX`; else
// `None`.
fn natural_at(value: &Value, key: &str) -> Option<u64>
    ensures { result ≡ spec.natural_at key.now (view value.now) }
{
    u64::try_from(integer_at(value, key)?).ok()
}

// Reads a cell from each of `items`, S2 tokens, in their order. `BadVolume` if one of them is not a token.
fn read_tokens(alloc: Global, items: &[Value]) -> Result<Vec<CellId>, ReadError>
    ensures { GivesIfRoom (λ v. v.items) result (each spec.token_of (items_view items.now)) }
{
    let mut cells = Vec::new(alloc);
    for item in items {
        cells.push(read_cell(item)?)?;
    }
    Ok(cells)
}

// Reads a cell from `value`, its S2 token as a JSON string. `BadVolume` for every other value.
fn read_cell(value: &Value) -> Result<CellId, WireFault>
    ensures { result ≡ spec.token_of (view value.now) }
{
    let text = value.as_str().ok_or(WireFault::BadVolume)?;
    CellId::from_token(text.as_bytes()).map_err(|_| WireFault::BadVolume)
}

// Reads the altitudes of a volume from `shape`, its member `volume`, and its times from `value`, the volume
// itself. `BadVolume` if one of them is missing, malformed or out of its limits.
#[tactic(auto, unfolding(crate::specs::Requests::window_of))]
fn read_window(value: &Value, shape: &Value) -> Result<Window, WireFault>
    ensures { result ≡ spec.window_of (view value.now) (view shape.now) }
{
    let lower = integer_at(shape, "altitude_lower").ok_or(WireFault::BadVolume)?;
    let upper = integer_at(shape, "altitude_upper").ok_or(WireFault::BadVolume)?;
    let start = read_start(value).ok_or(WireFault::BadVolume)?;
    let end = read_end(value).ok_or(WireFault::BadVolume)?;
    checked_window(lower, upper, start, end).ok_or(WireFault::BadVolume)
}

// The window of the altitudes `lower <= a < upper`, in decimetres, and the Unix seconds `start <= t < end`.
// `None` if it is empty or too long, or one of the numbers is out of range.
fn checked_window(lower: i64, upper: i64, start: i64, end: i64) -> Option<Window>
    ensures { result ≡ result_ok
        (window_or_fault (record { lower = lower; upper = upper; start = start; end = end })) }
{
    let lower = i32::try_from(lower).ok()?;
    let upper = i32::try_from(upper).ok()?;
    Window::try_new(lower, upper, start, end).ok()
}

// The `time_start` of `value`, a volume, rounded down to a Unix second. `None` if it is missing or malformed.
fn read_start(value: &Value) -> Option<i64>
    ensures { result ≡ spec.start_at (view value.now) }
{
    parse_start(time_at(value, "time_start")?.as_bytes())
}

// The `time_end` of `value`, a volume, rounded up to a Unix second. `None` if it is missing or malformed.
fn read_end(value: &Value) -> Option<i64>
    ensures { result ≡ spec.end_at (view value.now) }
{
    parse_end(time_at(value, "time_end")?.as_bytes())
}

// The text of the time that is the member `key` of `value`, an object: the time's own member `value`, if its
// `format` is `RFC3339`. `None` if the time, or one of its members, is missing or malformed. The text is not
// parsed.
#[tactic(auto, unfolding(crate::specs::Requests::time_text))]
fn time_at<'a>(value: &'a Value, key: &str) -> Option<&'a str>
    ensures { option_map (λ s. s.now) result ≡ spec.time_at key.now (view value.now) }
{
    let time = value.get(key)?;
    if text_at(time, "format")? == "RFC3339" {
        text_at(time, "value")
    } else {
        None
    }
}
