//! Request heads: RFC 9112, sections 2 to 5, as `httparse` reads them. A span, from `httparse`, says at which
//! bytes of the head a part of it is.

ghost use Rattle.std.specs.Prelude.{◌≡◌, option_map};
ghost use Rattle.httparse.specs.Spans.{IsRequestWithin};
ghost use Rattle.request_parser.specs.Heads.{count_in, count_shown, HeadParts, head_parts, head_within, parts_at};
ghost use Rattle.request_parser.specs.WireLimits.{field_room};

use crate::fields::{Occurrence, find_field};
use httparse::Status;
use httparse::spans::{EMPTY_HEADER_SPAN, HeaderSpan, RequestSpans, parse_request};
use std::marker::Model;

/// The maximum number of fields of a head.
const MAX_FIELDS: usize = 64;

/// A request head: its text, and the spans of its parts in it.
#[derive(Drop)]
pub struct Head<'t> {
    text: &'t [u8],
    spans: RequestSpans,
    /// The first `spans.headers` of these are the spans of its fields.
    headers: [HeaderSpan; MAX_FIELDS],
}

impl<'t> Model for Head<'t> {
    ghost Value = { HeadParts };

    ghost view = { λ h. parts_at h.text.now h.spans h.headers };

    ghost invariant = { λ h. IsRequestWithin h.text.now h.headers h.spans };
}

impl<'t> Head<'t> {
    /// The method, as it was sent: `GET`, for example.
    pub fn method(&self) -> &'t [u8]
        ensures { result.now ≡ self.now.method }
    {
        self.spans.method.of(self.text)
    }

    /// The request target, as it was sent: the path, and the query if there is one.
    pub fn target(&self) -> &'t [u8]
        ensures { result.now ≡ self.now.target }
    {
        self.spans.path.of(self.text)
    }

    /// How often the field `name` occurs, and its value if it occurs once. Names are compared in any case of
    /// letters.
    pub fn field(&self, name: &[u8]) -> Occurrence<'t>
        ensures { count_shown result ≡ count_in name.now self.now.fields }
    {
        find_field(self.text, &self.headers[..self.spans.headers], name)
    }
}

/// Parses `text` as one whole head. `None` if it is malformed, incomplete, followed by other bytes, or has
/// more than 64 fields.
pub fn read_head(text: &[u8]) -> Option<Head<'_>>
    ensures { result ≡ option_map head_parts (head_within field_room text.now) }
{
    let mut headers = [EMPTY_HEADER_SPAN; MAX_FIELDS];
    let Ok(Status::Complete(spans)) = parse_request(text, &mut headers) else {
        return None;
    };
    if spans.len != text.len() {
        return None;
    }
    Some(Head {
        text,
        spans,
        headers,
    })
}
