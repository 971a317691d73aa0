//! The kinds of journal entries.

ghost use Rattle.std.specs.Prelude.{◌≡◌};
ghost use Rattle.desk_record.specs.Record.{word, kind_of};

/// What a journal entry reports. Each comment says what the entry's number is, and what its bytes are.
#[derive(Clone, Copy, Debug, PartialEq, Eq)]
pub enum Kind {
    /// A journal file begins. Number: that of the file in its folder. Bytes: the version of the format.
    Record,
    /// A permitted priority: plans of equal priority may overlap. Number: the priority. No bytes.
    Permitted,
    /// A limit on the spans of an operator's live plans. Number: the limit. No bytes.
    Spans,
    /// A limit on the cells of all plans of an operator. Number: the limit. No bytes.
    Cells,
    /// An operator is enrolled. Number: its ceiling, the maximum priority. Bytes: its name.
    Operator,
    /// A request is received. Number: the Unix second at which it is decided. Bytes: the request as it came.
    Request,
    /// The last request is answered. Number: that request's Unix second. Bytes: the answer as it is sent.
    Answer,
}

impl Kind {
    /// The word for this kind in an entry's line, padded with blanks to nine bytes.
    pub fn word(self) -> &'static [u8]
        ensures { result.now ≡ word self }
    {
        match self {
            Kind::Record => b"record   ",
            Kind::Permitted => b"permitted",
            Kind::Spans => b"spans    ",
            Kind::Cells => b"cells    ",
            Kind::Operator => b"operator ",
            Kind::Request => b"request  ",
            Kind::Answer => b"answer   ",
        }
    }
}

/// The kind whose word, padded to nine bytes, is `text`; `None` for any other text.
pub fn parse_kind(text: &[u8]) -> Option<Kind>
    ensures { result ≡ kind_of text.now }
{
    if text == b"record   ".as_slice() {
        Some(Kind::Record)
    } else if text == b"permitted".as_slice() {
        Some(Kind::Permitted)
    } else if text == b"spans    ".as_slice() {
        Some(Kind::Spans)
    } else if text == b"cells    ".as_slice() {
        Some(Kind::Cells)
    } else if text == b"operator ".as_slice() {
        Some(Kind::Operator)
    } else if text == b"request  ".as_slice() {
        Some(Kind::Request)
    } else if text == b"answer   ".as_slice() {
        Some(Kind::Answer)
    } else {
        None
    }
}
