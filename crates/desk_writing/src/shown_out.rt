//! Plans as JSON, as List and Show return them. Each function fails only if memory runs out. The members of
//! objects are in alphabetical order.

ghost use Rattle.std.specs.Prelude.{◌≡◌, IfOk, codes};
ghost use Rattle.serde_json.specs.{Data.object, Data.member, View.view};
ghost use Rattle.desk_writing.specs.ReplyText.{area_data, cells_data, plans_data, rectangle_data, row_members, shown_data, volume_data, volume_with};

use crate::json_out::conflict_value;
use crate::words::{aircraft_word, status_word, usage_word};
use desk_rules::reply::Shown;
use s2_cellid::CellId;
use s2_cover::Rect;
use serde_json::{Value, json};
use std::alloc::{AllocError, Global};
use volume4d::{Area, Footprint, Volume, Window};

/// The JSON body that lists `plans`, in their order.
pub fn plans_value(alloc: Global, plans: &[Shown]) -> Result<Value, AllocError>
    ensures { IfOk result (λ v. view v ≡ plans_data plans.now) }
{
    let mut values = Vec::new(alloc);
    for shown in plans {
        values.push(shown_value(alloc, shown)?)?;
    }
    json!(in alloc; {"flight_plans": values})
}

/// The JSON of a plan as it is shown, with the member `conflict` if it has a conflict.
pub fn shown_value(alloc: Global, shown: &Shown) -> Result<Value, AllocError>
    ensures { IfOk result (λ v. view v ≡ shown_data shown.now) }
{
    let area = area_value(alloc, &shown.row.area)?;
    match shown.conflict {
        Some(meeting) => {
            plan_with_conflict_value(alloc, shown, area, conflict_value(alloc, meeting)?)
        }
        None => plan_value(alloc, shown, area),
    }
}

// The JSON of a plan without a conflict; `area` is the plan's area as JSON. In the body, `buffer` is for the
// text of the plan's id, a UUID in 36 characters.
fn plan_value(alloc: Global, shown: &Shown, area: Value) -> Result<Value, AllocError>
    ensures { IfOk result (λ v. view v
        ≡ object (member (codes "area") (view area) (row_members shown.now))) }
{
    let mut buffer = [0u8; 36];
    json!(in alloc; {
        "area": area,
        "flight_plan_id": shown.row.id.encode(&mut buffer),
        "flight_plan_status": status_word(shown.status),
        "priority": shown.row.priority,
        "uas_state": aircraft_word(shown.row.aircraft),
        "usage_state": usage_word(shown.row.usage)
    })
}

// The JSON of a plan with a conflict; `area` is the plan's area as JSON, and `conflict` its conflict. In the
// body, `buffer` is for the text of the plan's id, a UUID in 36 characters.
fn plan_with_conflict_value(
    alloc: Global,
    shown: &Shown,
    area: Value,
    conflict: Value,
) -> Result<Value, AllocError>
    ensures { IfOk result (λ v. view v ≡ object (member (codes "area") (view area)
        (member (codes "conflict") (view conflict) (row_members shown.now)))) }
{
    let mut buffer = [0u8; 36];
    json!(in alloc; {
        "area": area,
        "conflict": conflict,
        "flight_plan_id": shown.row.id.encode(&mut buffer),
        "flight_plan_status": status_word(shown.status),
        "priority": shown.row.priority,
        "uas_state": aircraft_word(shown.row.aircraft),
        "usage_state": usage_word(shown.row.usage)
    })
}

// The volumes of `area` as a JSON array, in their order.
fn area_value(alloc: Global, area: &Area) -> Result<Value, AllocError>
    ensures { IfOk result (λ v. view v ≡ area_data area.now) }
{
    let mut values = Vec::new(alloc);
    for volume in area.volumes() {
        values.push(volume_value(alloc, volume)?)?;
    }
    Ok(Value::Array(values))
}

// A volume as JSON: its footprint as it was requested, its altitudes in decimetres, and its times as Unix
// seconds.
fn volume_value(alloc: Global, volume: &Volume) -> Result<Value, AllocError>
    ensures { IfOk result (λ v. view v ≡ volume_data volume.now) }
{
    match volume.footprint() {
        Footprint::Cells(cells) => {
            cells_volume_value(alloc, volume.window(), cells_value(alloc, cells)?)
        }
        Footprint::Rectangle(rect) => {
            rectangle_volume_value(alloc, volume, rectangle_value(alloc, rect)?)
        }
    }
}

// The S2 tokens of `cells` as a JSON array, in their order.
fn cells_value(alloc: Global, cells: &[CellId]) -> Result<Value, AllocError>
    ensures { IfOk result (λ v. view v ≡ cells_data cells.now) }
{
    let mut values = Vec::new(alloc);
    for cell in cells {
        values.push(json!(in alloc; cell.token().as_str())?)?;
    }
    Ok(Value::Array(values))
}

// The JSON of a volume over a list of cells: `window` has the volume's altitudes and seconds, and `cells` is
// the list as JSON.
fn cells_volume_value(alloc: Global, window: Window, cells: Value) -> Result<Value, AllocError>
    ensures { IfOk result (λ v. view v
        ≡ volume_with window (member (codes "cells") (view cells))) }
{
    json!(in alloc; {
        "altitude_lower": window.lower(),
        "altitude_upper": window.upper(),
        "cells": cells,
        "second_end": window.end(),
        "second_start": window.start()
    })
}

// The rectangle `rect` as JSON, as it was requested: its face, its coordinates, and the level of its squares.
fn rectangle_value(alloc: Global, rect: &Rect) -> Result<Value, AllocError>
    ensures { IfOk result (λ v. view v ≡ rectangle_data rect.now) }
{
    json!(in alloc; {
        "face": rect.face(),
        "i_max": rect.i_max(),
        "i_min": rect.i_min(),
        "j_max": rect.j_max(),
        "j_min": rect.j_min(),
        "level": rect.level()
    })
}

// The JSON of a volume over a rectangle: `volume` has the altitudes and seconds, and `rectangle` is the
// rectangle as JSON.
fn rectangle_volume_value(
    alloc: Global,
    volume: &Volume,
    rectangle: Value,
) -> Result<Value, AllocError>
    ensures { IfOk result (λ v. view v
        ≡ volume_with volume.now.window (member (codes "rectangle") (view rectangle))) }
{
    json!(in alloc; {
        "altitude_lower": volume.window().lower(),
        "altitude_upper": volume.window().upper(),
        "rectangle": rectangle,
        "second_end": volume.window().end(),
        "second_start": volume.window().start()
    })
}
