//! The ids of plans.

ghost use Rattle.std.specs.Prelude.{◌≡◌, Some};
ghost use Rattle.uuid.specs.Text.{parsed, hyphenated_text, lower};

use std::fmt;
use std::marker::Model;
use uuid::Uuid;
use uuid::fmt::Hyphenated;

/// The id of a plan, chosen by its operator: a UUID (RFC 9562). Ids are ordered as 128-bit numbers.
#[derive(Clone, Copy, Debug, PartialEq, Eq, PartialOrd, Ord, Hash)]
pub struct PlanId {
    uuid: Uuid,
}

impl Model for PlanId {
    ghost use Rattle.std.specs.Prelude.{ℕ, List};

    // the sixteen bytes, the most significant first
    ghost Value = { List ℕ };

    ghost view = { λ id. id.uuid };

    ghost inverse = { λ bytes. record { uuid = bytes } };
}

impl PlanId {
    /// The id that `text` writes, in either case. `None` if `text` has none of the four forms of a UUID:
    /// hyphenated, plain, in braces, or as a URN.
    pub fn try_parse(text: &str) -> Option<PlanId>
        ensures { result ≡ parsed text.now }
    {
        match Uuid::parse_str(text) {
            Ok(uuid) => Some(PlanId { uuid }),
            Err(_) => None,
        }
    }

    /// Writes the id to `buffer` as text and returns the text: 36 bytes, hyphenated, in lower case (RFC
    /// 9562). `try_parse` of this text gives the id again.
    pub fn encode<'b>(&self, buffer: &'b mut [u8; 36]) -> &'b str
        ensures text { result.now ≡ hyphenated_text lower self.now }
        ensures parsed { Some self.now ≡ parsed result.now }
    {
        Hyphenated::from_uuid(self.uuid).encode_lower(buffer)
    }
}

impl fmt::Display for PlanId {
    ghost use Rattle.std.specs.Prelude.{Some};
    ghost use Rattle.uuid.specs.Text.{hyphenated_text, lower};

    ghost output = { λ id. Some (hyphenated_text lower id) };

    // The id as text: 36 bytes, hyphenated, in lower case.
    fn fmt<W: fmt::Write>(&self, f: &mut fmt::Formatter<W>) -> fmt::Result {
        write!(f, "{}", self.uuid)
    }
}
