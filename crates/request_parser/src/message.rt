//! Messages: one request, split into its head and its body.

ghost use Rattle.std.specs.Prelude.{◌≡◌, codes};
ghost use Rattle.request_parser.specs.Messages.{Gives, body_len, front_in, front_shown, message_in, message_read, unended};
ghost use Rattle.request_parser.specs.Heads.{count_in, length_of};

use crate::fields::{Occurrence, read_decimal};
use crate::framing::{HEAD_ROOM, head_length};
use crate::head::{Head, read_head};
use crate::wire_fault::WireFault;

/// The maximum length of a body, in bytes.
const MAX_BODY_LEN: u64 = 131_072;

/// One request, split into its head and its body.
#[derive(Drop)]
pub struct Message<'t> {
    pub head: Head<'t>,
    /// The bytes after the head.
    pub body: &'t [u8],
}

/// A head, and the length of the body that follows it.
#[derive(Drop)]
pub struct Front<'t> {
    pub head: Head<'t>,
    /// In bytes, at most `MAX_BODY_LEN`.
    pub size: u64,
}

/// Splits `text`, one whole request, into its head and its body (RFC 9112, section 2.1).
///
/// # Errors
///
/// The first that applies: `HeadTooLarge` if no head ends in the first 16,384 bytes; `BadHead` if `text` is
/// shorter and has no whole head, or if the head is malformed; `TransferEncoding`; `ContentLength`;
/// `BodyTooLarge`; `BadHead` if the body is shorter or longer than the head says.
#[tactic(auto, unfolding(crate::specs::Messages::message_in))]
pub fn read_message(text: &[u8]) -> Result<Message<'_>, WireFault>
    ensures { message_read result ≡ message_in text.now }
{
    let end = head_length(text).ok_or(unended_fault(text))?;
    let (head, body) = text.split_at(end);
    let front = read_front(head)?;
    if body.len() as u64 != front.size {
        return Err(WireFault::BadHead);
    }
    Ok(Message {
        head: front.head,
        body,
    })
}

/// Parses `text` as one whole head, and finds the length of the body that is to follow.
///
/// # Errors
///
/// The first that applies: `BadHead` if `text` is not one whole head; `TransferEncoding`; `ContentLength`;
/// `BodyTooLarge`.
#[tactic(auto, unfolding(crate::specs::Messages::front_in))]
pub fn read_front(text: &[u8]) -> Result<Front<'_>, WireFault>
    ensures { Gives front_shown result (front_in text.now) }
{
    let head = read_head(text).ok_or(WireFault::BadHead)?;
    let size = read_body_length(&head)?;
    Ok(Front { head, size })
}

// The fault of `text`, in whose first `HEAD_ROOM` bytes no head ends: `HeadTooLarge` if it has `HEAD_ROOM`
// bytes or more, and else `BadHead`, since the head is incomplete.
fn unended_fault(text: &[u8]) -> WireFault
    ensures { result ≡ unended text.now }
{
    if text.len() < HEAD_ROOM {
        WireFault::BadHead
    } else {
        WireFault::HeadTooLarge
    }
}

// The length of the body that is to follow `head`, in bytes; 0 if the head names none. Errors, in this order:
// `TransferEncoding` if there is such a field, `ContentLength` if the length is repeated or malformed,
// `BodyTooLarge` if it is above 131,072.
#[tactic(auto, unfolding(crate::specs::Messages::body_len))]
fn read_body_length(head: &Head<'_>) -> Result<u64, WireFault>
    ensures { result ≡ body_len head.now.fields }
{
    if !matches!(head.field(b"transfer-encoding"), Occurrence::Absent) {
        return Err(WireFault::TransferEncoding);
    }
    let size = read_content_length(head).ok_or(WireFault::ContentLength)?;
    if size > MAX_BODY_LEN {
        return Err(WireFault::BodyTooLarge);
    }
    Ok(size)
}

// The value of the field content-length; 0 if there is no such field. `None` if it occurs more than once, or
// isn't 1 to 19 digits.
fn read_content_length(head: &Head<'_>) -> Option<u64>
    ensures { result ≡ length_of (count_in (codes "content-length") head.now.fields) }
{
    match head.field(b"content-length") {
        Occurrence::Absent => Some(0),
        Occurrence::Value(digits) => read_decimal(digits),
        Occurrence::More => None,
    }
}
