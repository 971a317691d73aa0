//! Values read from the columns of rows, which are counted from 0. A value that no store writes is reported
//! as `StoreFault::Store`, and failed allocations as `StoreFault::OutOfMemory`.

ghost use Rattle.std.specs.Prelude.{◌≡◌, ◌≢◌, ◌≤◌, ◌<◌, ◌^◌, ℕ, ℤ, List, [], pos, IsTrue, IsUtf8, FitsSigned, IfOk, IfErr};
ghost use Rattle.std.specs.{Int.w32, List.AllByRecursion, List.AllZip, String.string_bytes};
ghost use Rattle.sqlite_value.specs.declared.value.Value.TheVariants.{Int, Text, Blob};
ghost use Rattle.sqlite_value.specs.Order.{column};
ghost use Rattle.volume4d.specs.Volume.{Block, is_area};
ghost use Rattle.desk_rules.specs.declared.{plan.PlanRow.PlanRow as Plan, words.Usage.Usage as Use, words.Aircraft.Aircraft as State};
ghost use Rattle.row_codec.specs.{Tables.id_text, Tables.usage_number, Tables.aircraft_number, Tables.AreNumbersOf, RowsRead.IsVolumeAt, RowsRead.IsHead, RowsRead.plan_with, RowsRead.IsReportedAs};
ghost use Rattle.desk_store.specs.World.{IsId, IsValidVolume};

use desk_rules::plan::PlanRow;
use desk_rules::plan_id::PlanId;
use desk_rules::words::{Aircraft, Usage};
use desk_store::StoreFault;
use sqlite::{Error, ErrorCode, Row};
use std::alloc::Global;
use volume4d::laws::one_shape;
use volume4d::{Area, Footprint, Volume, VolumeFault, Window};

/// The store's fault for an error of SQLite: `OutOfMemory` if memory ran out, else `Store`. The contract says
/// only that it isn't `Store` if memory ran out.
pub(crate) fn fault_of(error: Error) -> StoreFault
    ensures { result ≡ StoreFault.Store → error ≢ Error.SqliteFailure ErrorCode.OutOfMemory }
{
    fault_reported(error, StoreFault::Store)
}

/// The store's fault for an error of SQLite: `OutOfMemory` if memory ran out, `reported` for an I/O error,
/// and else `Store`. A store in memory passes `OutOfMemory` as `reported`: its I/O fails for no other cause.
/// The contract says only that it isn't `Store` if memory ran out, and that it is for the error `Closed`.
pub fn fault_reported(error: Error, reported: StoreFault) -> StoreFault
    ensures store { result ≡ StoreFault.Store → error ≢ Error.SqliteFailure ErrorCode.OutOfMemory }
    ensures closed { error ≡ Error.SqliteFailure ErrorCode.Closed → result ≡ StoreFault.Store }
{
    match error {
        Error::SqliteFailure(ErrorCode::OutOfMemory) => StoreFault::OutOfMemory,
        Error::SqliteFailure(ErrorCode::SystemIoFailure) => reported,
        _ => StoreFault::Store,
    }
}

/// The value of `answer`, or, if that is an error of SQLite, the store's fault that `fault_reported` gives.
pub fn or_fault<T>(answer: Result<T, Error>, reported: StoreFault) -> Result<T, StoreFault>
    ensures { IsReportedAs answer result }
{
    match answer {
        Ok(value) => Ok(value),
        Err(e) => Err(fault_reported(e, reported)),
    }
}

/// The signed integer of 32 bits in the column `at`; `Store` if the column isn't such an integer.
pub(crate) fn i32_at(row: &Row, at: usize) -> Result<i32, StoreFault>
    ensures value { IfOk result (λ n. column row.now at ≡ Int n) }
    ensures refused { IfErr result (λ e. e ≡ StoreFault.Store →
        (n : ℤ) → FitsSigned w32 n → column row.now at ≢ Int n) }
{
    row.get(at).map_err(|e| fault_of(e))
}

/// The integer in the column `at`; `Store` if the column isn't an integer.
pub(crate) fn i64_at(row: &Row, at: usize) -> Result<i64, StoreFault>
    ensures value { IfOk result (λ n. column row.now at ≡ Int n) }
    ensures refused { IfErr result (λ e. e ≡ StoreFault.Store → (n : ℤ) → column row.now at ≢ Int n) }
{
    row.get(at).map_err(|e| fault_of(e))
}

// The bytes in the column `at`; `Store` if the column isn't a blob, `OutOfMemory` if memory runs out.
fn blob_at(row: &Row, at: usize) -> Result<Vec<u8>, StoreFault>
    ensures value { IfOk result (λ bytes. column row.now at ≡ Blob bytes.items) }
    ensures refused { IfErr result (λ e. e ≡ StoreFault.Store →
        (bytes : List ℕ) → column row.now at ≢ Blob bytes) }
{
    row.get(at).map_err(|e| fault_of(e))
}

/// The volume in the five columns from `at` on: `lower` and `upper` in decimetres, `start` and `stop` in Unix
/// seconds, and `asked`, the bytes of its footprint.
///
/// # Errors
///
/// `OutOfMemory` if memory runs out. `Store` if these columns aren't those of a valid volume.
pub fn volume_in(alloc: Global, row: &Row, at: usize) -> Result<Volume, StoreFault>
    requires { at ≤ 6 }
    ensures value { IfOk result (λ volume. (v : Block) → IsValidVolume v → IsVolumeAt row.now at v
        → volume ≡ v) }
    ensures valid { IfOk result (λ volume. IsValidVolume volume × IsVolumeAt row.now at volume) }
    ensures refused { IfErr result (λ e. e ≡ StoreFault.Store →
        (v : Block) → IsValidVolume v → ¬ IsVolumeAt row.now at v) }
{
    // A law, which changes nothing: footprints with the same bytes are the same.
    one_shape();
    let lower = i32_at(row, at)?;
    let upper = i32_at(row, at + 1)?;
    let start = i64_at(row, at + 2)?;
    let end = i64_at(row, at + 3)?;
    let asked = blob_at(row, at + 4)?;
    let Ok(window) = Window::try_new(lower, upper, start, end) else {
        return Err(StoreFault::Store);
    };
    let Some(footprint) = Footprint::from_bytes(alloc, &asked)? else {
        return Err(StoreFault::Store);
    };
    match Volume::try_new(alloc, footprint, window) {
        Ok(volume) => Ok(volume),
        Err(e) => Err(fault_of_volume(e)),
    }
}

// The store's fault for a row whose volume was refused for `fault`: `OutOfMemory` if memory ran out, else
// `Store`.
fn fault_of_volume(fault: VolumeFault) -> StoreFault
    ensures { result ≡ StoreFault.Store → fault ≢ VolumeFault.OutOfMemory }
{
    match fault {
        VolumeFault::OutOfMemory => StoreFault::OutOfMemory,
        _ => StoreFault::Store,
    }
}

/// The area of the volumes in `rows`: one in each row, in the five columns from `at` on, as by `volume_in`.
///
/// # Errors
///
/// `OutOfMemory` if memory runs out. `Store` if a row has no valid volume, or if there are no rows or more
/// than 32.
pub fn area_in(alloc: Global, rows: &[Row], at: usize) -> Result<Area, StoreFault>
    requires { at ≤ 6 }
    ensures value { IfOk result (λ area. (vs : List Block) → AllByRecursion IsValidVolume vs
        → AllZip (λ row v. IsVolumeAt row at v) rows.now vs → area ≡ vs) }
    ensures valid { IfOk result (λ area. AllByRecursion IsValidVolume area
        × AllZip (λ row v. IsVolumeAt row at v) rows.now area) }
    ensures refused { IfErr result (λ e. e ≡ StoreFault.Store →
        (vs : List Block) → IsTrue (is_area vs) → AllByRecursion IsValidVolume vs
        → ¬ AllZip (λ row v. IsVolumeAt row at v) rows.now vs) }
{
    let mut volumes = Vec::new(alloc);
    for row in rows {
        volumes.push(volume_in(alloc, row, at)?)?;
    }
    match Area::try_new(volumes) {
        Some(area) => Ok(area),
        None => Err(StoreFault::Store),
    }
}

/// The unsigned number of 32 bits in the column `at`.
///
/// # Errors
///
/// `OutOfMemory` if memory runs out. `Store` if the column isn't such a number.
pub fn count_at(row: &Row, at: usize) -> Result<u32, StoreFault>
    ensures value { IfOk result (λ n. column row.now at ≡ Int (pos n)) }
    ensures refused { IfErr result (λ e. e ≡ StoreFault.Store →
        (n : ℕ) → n < 2 ^ 32 → column row.now at ≢ Int (pos n)) }
{
    row.get(at).map_err(|e| fault_of(e))
}

// The text in the column `at`; `Store` if the column isn't a text in UTF-8, `OutOfMemory` if memory runs out.
fn text_at(row: &Row, at: usize) -> Result<String, StoreFault>
    ensures value { IfOk result (λ text. column row.now at ≡ Text (string_bytes text)) }
    ensures refused { IfErr result (λ e. e ≡ StoreFault.Store →
        (text : List ℕ) → IsUtf8 text → column row.now at ≢ Text text) }
{
    row.get(at).map_err(|e| fault_of(e))
}

/// The plan id in the column `id` (column 1) of `row`, a row of `plan`. The text may have any form of a UUID:
/// that it has the form that a store writes (hyphenated, in lower case) is checked by `is_keyed`, not here.
///
/// # Errors
///
/// `OutOfMemory` if memory runs out. `Store` if the column isn't a text in one of these forms.
pub fn id_in(row: &Row) -> Result<PlanId, StoreFault>
    ensures value { IfOk result (λ found. (id : List ℕ) → IsId id
        → column row.now 1 ≡ Text (id_text id) → found ≡ id) }
    ensures valid { IfOk result (λ found. IsId found) }
    ensures refused { IfErr result (λ e. e ≡ StoreFault.Store →
        (id : List ℕ) → IsId id → column row.now 1 ≢ Text (id_text id)) }
{
    let text = text_at(row, 1)?;
    match PlanId::try_parse(&text) {
        Some(id) => Ok(id),
        None => Err(StoreFault::Store),
    }
}

// The usage whose number is in `usage` (column 3) of a row of `plan`; `Store` if it isn't the number of one.
fn usage_in(row: &Row) -> Result<Usage, StoreFault>
    ensures value { IfOk result (λ usage. column row.now 3 ≡ Int (pos (usage_number usage))) }
    ensures refused { IfErr result (λ e. e ≡ StoreFault.Store →
        (usage : Use) → column row.now 3 ≢ Int (pos (usage_number usage))) }
{
    match count_at(row, 3)? {
        0 => Ok(Usage::Planned),
        1 => Ok(Usage::InUse),
        2 => Ok(Usage::Closed),
        _ => Err(StoreFault::Store),
    }
}

// The state of the aircraft whose number is in `aircraft` (column 4) of a row of `plan`; `Store` if it isn't
// the number of one.
fn aircraft_in(row: &Row) -> Result<Aircraft, StoreFault>
    ensures value { IfOk result (λ aircraft. column row.now 4 ≡ Int (pos (aircraft_number aircraft))) }
    ensures refused { IfErr result (λ e. e ≡ StoreFault.Store →
        (aircraft : State) → column row.now 4 ≢ Int (pos (aircraft_number aircraft))) }
{
    match count_at(row, 4)? {
        0 => Ok(Aircraft::Nominal),
        1 => Ok(Aircraft::OffNominal),
        2 => Ok(Aircraft::Contingent),
        _ => Err(StoreFault::Store),
    }
}

/// A plan without its area.
#[derive(Clone, Copy)]
pub struct PlanHead {
    id: PlanId,
    priority: u32,
    usage: Usage,
    aircraft: Aircraft,
}

impl PlanHead {
    /// The plan with this head and the area `area`.
    pub fn with(self, area: Area) -> PlanRow
        ensures { result ≡ plan_with self area }
    {
        PlanRow {
            id: self.id,
            priority: self.priority,
            usage: self.usage,
            aircraft: self.aircraft,
            area,
        }
    }
}

/// The plan without its area, from columns 1 to 4 of `row`: `id`, `priority`, `usage`, `aircraft`. Any
/// priority of 32 bits is read: the limit of 1,000 isn't checked.
///
/// # Errors
///
/// `OutOfMemory` if memory runs out. `Store` if these columns aren't those of a plan.
pub fn head_in(row: &Row) -> Result<PlanHead, StoreFault>
    ensures value { IfOk result (λ head. (p : Plan) → IsId p.id → IsHead row.now p
        → plan_with head p.area ≡ p) }
    ensures valid { IfOk result (λ head. IsId head.id × AreNumbersOf row.now (plan_with head [])) }
    ensures refused { IfErr result (λ e. e ≡ StoreFault.Store →
        (p : Plan) → IsId p.id → p.priority < 2 ^ 32 → ¬ IsHead row.now p) }
{
    Ok(PlanHead {
        id: id_in(row)?,
        priority: count_at(row, 2)?,
        usage: usage_in(row)?,
        aircraft: aircraft_in(row)?,
    })
}

/// The plan that `head_in` reads from `row`, with the area `area`.
///
/// # Errors
///
/// Those of `head_in`.
pub fn plan_in(row: &Row, area: Area) -> Result<PlanRow, StoreFault>
    ensures value { IfOk result (λ plan. (p : Plan) → IsId p.id → IsHead row.now p
        → area ≡ p.area → plan ≡ p) }
    ensures valid { IfOk result (λ plan. IsId plan.id × (plan.area ≡ area)
        × AreNumbersOf row.now plan) }
    ensures refused { IfErr result (λ e. e ≡ StoreFault.Store →
        (p : Plan) → IsId p.id → p.priority < 2 ^ 32 → ¬ IsHead row.now p) }
{
    let head = head_in(row)?;
    Ok(head.with(area))
}
