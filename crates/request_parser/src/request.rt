//! Requests: from bytes to the operator and its call.

ghost use Rattle.std.specs.Prelude.{◌≡◌};
ghost use Rattle.request_parser.specs.{Requests.address_shown, Requests.asked, Requests.asked_at, Requests.asked_by, Requests.id_of, Messages.GivesIfRoom, Messages.message_shown};

use crate::address::{Address, read_address};
use crate::clear_in::read_clear;
use crate::message::{Message, read_message};
use crate::put_in::read_put;
use crate::resource::Action;
use crate::wire_fault::{ReadError, WireFault};
use desk_rules::call::{Asked, Call};
use desk_rules::plan_id::PlanId;
use std::alloc::Global;

/// Parses `text`, the bytes of one whole request: which operator makes which call.
///
/// # Errors
///
/// `OutOfMemory` if memory runs out. Else the first fault: that of `read_message`, or if the message has
/// none, that of `parse_message`.
#[tactic(auto, unfolding(crate::specs::Requests::asked))]
pub fn read_request(alloc: Global, text: &[u8]) -> Result<Asked, ReadError>
    ensures { GivesIfRoom (λ asked. asked) result (asked text.now) }
{
    let message = read_message(text)?;
    parse_message(alloc, &message)
}

/// Parses `message`, a request that is split into head and body already: which operator makes which call.
///
/// # Errors
///
/// `OutOfMemory` if memory runs out. Else the first fault: of the path, then the method, the operator, the
/// plan id, and the body.
#[tactic(auto, unfolding(crate::specs::Requests::asked_by))]
pub fn parse_message(alloc: Global, message: &Message<'_>) -> Result<Asked, ReadError>
    ensures { GivesIfRoom (λ asked. asked) result (asked_by (message_shown message.now)) }
{
    match read_address(&message.head) {
        Ok(address) => read_call(alloc, &address, message.body),
        Err(fault) => Err(ReadError::Fault(fault)),
    }
}

// The operator of `address`, and the call that its action is. The plan id is checked before the body. Only a
// PUT and a clear read `body`; any other call ignores it.
fn read_call(alloc: Global, address: &Address<'_>, body: &[u8]) -> Result<Asked, ReadError>
    ensures { GivesIfRoom (λ asked. asked) result (asked_at (address_shown address.now) body.now) }
{
    let operator = address.operator;
    let call = match address.action {
        Action::Status => Call::Status,
        Action::List => Call::List,
        Action::Show => Call::Show(read_plan_id(address.id)?),
        Action::Delete => Call::Delete(read_plan_id(address.id)?),
        Action::Put => Call::Put(read_put(alloc, read_plan_id(address.id)?, body)?),
        Action::Clear => Call::Clear(read_clear(alloc, body)?),
    };
    Ok(Asked { operator, call })
}

// Parses the id of a flight plan. `BadPlanId` if `text` is not a UUID.
fn read_plan_id(text: &str) -> Result<PlanId, WireFault>
    ensures { result ≡ id_of text.now }
{
    PlanId::try_parse(text).ok_or(WireFault::BadPlanId)
}
