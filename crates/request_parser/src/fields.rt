//! Fields of a head: found by their names, in any case of letters, and read as numbers. A span, from
//! `httparse`, says at which bytes of the head a part of it is.

ghost use Rattle.std.specs.Prelude.{◌≡◌, length, map, All};
ghost use Rattle.httparse.specs.Spans.{IsHeaderWithin, header_bytes};
ghost use Rattle.request_parser.specs.Heads.{count_in, count_shown, decimal_of};

use httparse::spans::HeaderSpan;

/// The maximum number of digits that `read_decimal` takes: every number of 19 digits fits a `u64`.
const MAX_DIGITS: usize = 19;

/// How often a field occurs in a head, and its value if it occurs once.
#[derive(Clone, Copy, Debug, PartialEq, Eq)]
pub enum Occurrence<'t> {
    /// Never.
    Absent,
    /// Once, with this value.
    Value(&'t [u8]),
    /// More than once.
    More,
}

/// How often the field `name` occurs in the head `text`, and its value if it occurs once. Names are compared
/// in any case of letters. `headers` are the spans of all fields in `text`.
pub fn find_field<'t>(text: &'t [u8], headers: &[HeaderSpan], name: &[u8]) -> Occurrence<'t>
    requires { All (IsHeaderWithin (length text.now)) headers.now }
    ensures { count_shown result ≡ count_in name.now (map (header_bytes text.now) headers.now) }
{
    let mut found = Occurrence::Absent;
    for header in headers {
        if header.name.of(text).eq_ignore_ascii_case(name) {
            found = match found {
                Occurrence::Absent => Occurrence::Value(header.value.of(text)),
                _ => Occurrence::More,
            };
        }
    }
    found
}

/// The number that `digits` write: 1 to 19 decimal digits, which may begin with zeros. `None` for every other
/// text.
pub fn read_decimal(digits: &[u8]) -> Option<u64>
    ensures { result ≡ decimal_of digits.now }
{
    if digits.is_empty() || digits.len() > MAX_DIGITS {
        return None;
    }
    let mut total = 0;
    for digit in digits {
        if !digit.is_ascii_digit() {
            return None;
        }
        total = total * 10 + u64::from(*digit - b'0');
    }
    Some(total)
}
