//! Bodies as JSON values, and the members of these.
ghost use Rattle.std.specs.Prelude.{◌≡◌, option_map};
ghost use Rattle.serde_json.specs.View.{view, items_view};
ghost use Rattle.request_parser.specs.{Messages.GivesIfRoom, Requests.body_value};
ghost use Rattle.request_parser.specs.Requests as spec;

use crate::wire_fault::{ReadError, WireFault};
use serde_json::Value;
use std::alloc::Global;

/// Parses `body` as JSON. `BadJson` if it is not JSON, or not UTF-8; `OutOfMemory` if memory runs out.
#[tactic(auto, unfolding(crate::specs::Requests::body_value))]
pub fn read_json(alloc: Global, body: &[u8]) -> Result<Value, ReadError>
    ensures { GivesIfRoom view result (body_value body.now) }
{
    match Value::from_slice(alloc, body) {
        Ok(value) => Ok(value),
        Err(error) if error.is_memory() => Err(ReadError::OutOfMemory),
        Err(_) => Err(ReadError::Fault(WireFault::BadJson)),
    }
}

/// The member `key` of `value`, if `value` is an object and the member a string; else `None`.
pub fn text_at<'a>(value: &'a Value, key: &str) -> Option<&'a str>
    ensures { option_map (λ s. s.now) result ≡ spec.text_at key.now (view value.now) }
{
    value.get(key)?.as_str()
}

/// The member `key` of `value`, if `value` is an object and the member an integer that fits an `i64`; else
/// `None`.
pub fn integer_at(value: &Value, key: &str) -> Option<i64>
    ensures { result ≡ spec.integer_at key.now (view value.now) }
{
    value.get(key)?.as_i64()
}

/// The member `key` of `value`, if `value` is an object that has it and it isn't null; else `None`.
pub fn non_null_at<'a>(value: &'a Value, key: &str) -> Option<&'a Value>
    ensures { option_map (λ v. view v.now) result ≡ spec.present key.now (view value.now) }
{
    let member = value.get(key)?;
    if member.is_null() { None } else { Some(member) }
}

/// The items of the member `key` of `value`, if `value` is an object and the member an array; else `None`.
pub fn array_at<'a>(value: &'a Value, key: &str) -> Option<&'a [Value]>
    ensures { option_map (λ items. items_view items.now) result
        ≡ spec.array_at key.now (view value.now) }
{
    Some(value.get(key)?.as_array()?.as_slice())
}
