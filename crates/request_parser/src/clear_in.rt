//! Requests to clear an area, from the JSON of their bodies.

ghost use Rattle.serde_json.specs.View.{view};
ghost use Rattle.request_parser.specs.Messages.{GivesIfRoom};
ghost use Rattle.request_parser.specs.Requests as spec;

use crate::json_in::read_json;
use crate::volume_in::read_volume;
use crate::wire_fault::{ReadError, WireFault};
use serde_json::Value;
use std::alloc::Global;
use volume4d::Volume;

/// Parses `body`, the JSON body of a request to clear: the volume whose plans are to be removed.
///
/// # Errors
///
/// `OutOfMemory` if memory runs out. Else the first that applies of `BadJson`, `BadMember`, `BadVolume` and
/// `TooManyCells`.
#[tactic(auto, unfolding(crate::specs::Requests::clear_in))]
pub fn read_clear(alloc: Global, body: &[u8]) -> Result<Volume, ReadError>
    ensures { GivesIfRoom (λ volume. volume) result (spec.clear_in body.now) }
{
    let value = read_json(alloc, body)?;
    read_extent(alloc, &value)
}

// Reads the volume of a request to clear from `value`, the JSON of its body: the member `extent`. `BadMember`
// if that is missing or not an object; else the fault of the volume.
#[tactic(auto, unfolding(crate::specs::Requests::clear_of))]
fn read_extent(alloc: Global, value: &Value) -> Result<Volume, ReadError>
    ensures { GivesIfRoom (λ volume. volume) result (spec.clear_of (view value.now)) }
{
    let extent = value.get("extent").ok_or(WireFault::BadMember)?;
    if !extent.is_object() {
        return Err(ReadError::Fault(WireFault::BadMember));
    }
    read_volume(alloc, extent)
}
