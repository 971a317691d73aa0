//! Times of RFC 3339 (`YYYY-MM-DDTHH:MM:SS`, maybe a fraction, and an offset from UTC), parsed to Unix
//! seconds. The library `jiff` knows the calendar.
ghost use Rattle.std.specs.Prelude.{◌≡◌, ◌+◌, ◌≤◌, ◌<◌, ◌^◌, length, IsTrue, IfSome, is_some, option_and_then};
ghost use Rattle.request_parser.specs.Times as spec;
ghost use Rattle.request_parser.specs.Times.{IsInDigits, IsOffset, IsWritten, IsShownBy, is_civil, is_instant};

use jiff::civil::DateTime;
use jiff::tz::Offset;

// The maximum length of a time's text, in bytes.
const MAX_TIME_LEN: usize = 64;

// The length of a date and a time of day, `YYYY-MM-DDTHH:MM:SS`, in bytes.
const CIVIL_LEN: usize = 19;

// A date and a time of day, as they are written: not yet checked against the calendar.
#[derive(Clone, Copy)]
struct CivilTime {
    year: u16,
    month: u16,
    day: u16,
    hour: u16,
    minute: u16,
    second: u16,
}

// A time with its offset, as it is written.
#[derive(Clone, Copy)]
struct WrittenTime {
    civil: CivilTime,
    // Whether its fraction of a second is above zero.
    has_fraction: bool,
    // The offset of local time from UTC, in seconds.
    offset: i32,
}

/// Parses the start of a volume to a Unix second; a fraction is rounded down. `None` if `text` isn't a
/// `date-time` of RFC 3339 of at most 64 bytes, or there is no such date or time, or it is after
/// 9999-12-30T22:00:00Z, the last that `jiff` has.
#[tactic(auto, unfolding(crate::specs::Times::start_of))]
pub fn parse_start(text: &[u8]) -> Option<i64>
    ensures { result ≡ spec.start_of text.now }
{
    unix_second(parse_time(text)?)
}

/// Parses the end of a volume to a Unix second, as `parse_start` does, but a fraction above zero is rounded
/// up.
#[tactic(auto, unfolding(crate::specs::Times::end_of))]
pub fn parse_end(text: &[u8]) -> Option<i64>
    ensures { result ≡ spec.end_of text.now }
{
    let time = parse_time(text)?;
    let second = unix_second(time)?;
    Some(second + i64::from(time.has_fraction))
}

// Parses a `date-time` of RFC 3339 of at most `MAX_TIME_LEN` bytes; `None` for every other text. The date and
// the time are not checked against the calendar yet: month 13 passes.
#[tactic(auto, unfolding(crate::specs::Times::time_of))]
fn parse_time(text: &[u8]) -> Option<WrittenTime>
    ensures parsed { result ≡ spec.time_of text.now }
    ensures in_range { IfSome result IsWritten }
{
    if text.len() <= CIVIL_LEN || text.len() > MAX_TIME_LEN || !has_marks(text) {
        return None;
    }
    let civil = parse_civil(text)?;
    let (_, rest) = text.split_at(CIVIL_LEN);
    parse_time_rest(civil, rest)
}

// Parses `rest`, the fraction (if there is one) and the offset that follow `civil`, a date and a time of day.
// `None` if `rest` is anything else.
#[tactic(auto, unfolding(crate::specs::Times::time_with))]
fn parse_time_rest(civil: CivilTime, rest: &[u8]) -> Option<WrittenTime>
    requires in_digits { IsInDigits civil }
    requires not_empty { 0 < length rest.now }
    ensures parsed { result ≡ spec.time_with civil rest.now }
    ensures in_range { IfSome result IsWritten }
{
    let (secfrac, zone) = rest.split_at(fraction_len(rest)?);
    let offset = parse_offset(zone)?;
    Some(WrittenTime {
        civil,
        has_fraction: is_above_zero(secfrac),
        offset,
    })
}

// Whether the separators of `YYYY-MM-DDTHH:MM:SS` are at their places in `text`. The `T` may be in lower
// case. The other bytes are not looked at.
#[tactic(auto, unfolding(crate::specs::Times::has_marks))]
fn has_marks(text: &[u8]) -> bool
    requires { 19 ≤ length text.now }
    ensures { result ≡ spec.has_marks text.now }
{
    text[4] == b'-'
        && text[7] == b'-'
        && text[10].to_ascii_uppercase() == b'T'
        && text[13] == b':'
        && text[16] == b':'
}

// Parses the six numbers of `YYYY-MM-DDTHH:MM:SS`, with which `text` begins. `None` if a byte of them is not
// a digit. The separators are not looked at, and the numbers not compared with the calendar.
#[tactic(auto, unfolding(crate::specs::Times::civil_of))]
fn parse_civil(text: &[u8]) -> Option<CivilTime>
    requires { 19 ≤ length text.now }
    ensures parsed { result ≡ spec.civil_of text.now }
    ensures in_digits { IfSome result IsInDigits }
{
    Some(CivilTime {
        year: parse_number(&text[..4])?,
        month: parse_number(&text[5..7])?,
        day: parse_number(&text[8..10])?,
        hour: parse_number(&text[11..13])?,
        minute: parse_number(&text[14..16])?,
        second: parse_number(&text[17..19])?,
    })
}

// Parses `digits`, up to four bytes, and returns the number that these decimal digits write. It is 0 if there
// are none. `None` if a byte isn't an ASCII digit, so also for a sign, a space or a point.
#[tactic(auto, unfolding(crate::specs::Times::number_written))]
fn parse_number(digits: &[u8]) -> Option<u16>
    requires { length digits.now ≤ 4 }
    ensures parsed { result ≡ spec.number_written digits.now }
    ensures bound { IfSome result (λ n. n < 10 ^ length digits.now) }
{
    let mut number = 0;
    for digit in digits {
        if !digit.is_ascii_digit() {
            return None;
        }
        number = number * 10 + u16::from(digit - b'0');
    }
    Some(number)
}

// The length in bytes of the fraction that `text` begins with, its point included; 0 if `text` doesn't begin
// with a point. `None` if no digit follows the point.
#[tactic(auto, unfolding(crate::specs::Times::secfrac_len))]
fn fraction_len(text: &[u8]) -> Option<usize>
    requires { 0 < length text.now }
    ensures len { result ≡ spec.secfrac_len text.now }
    ensures within { IfSome result (λ len. len ≤ length text.now) }
{
    if text[0] != b'.' {
        return Some(0);
    }
    match count_leading_digits(text.split_at(1).1) {
        0 => None,
        count => Some(count + 1),
    }
}

// How many decimal digits `text` begins with.
fn count_leading_digits(text: &[u8]) -> usize
    ensures count { result ≡ spec.digit_count text.now }
    ensures within { result ≤ length text.now }
{
    text.iter().take_while(|byte| byte.is_ascii_digit()).count()
}

// Whether the fraction `secfrac`, a point and digits, is greater than zero; false if it is empty.
fn is_above_zero(secfrac: &[u8]) -> bool
    ensures { result ≡ spec.is_above_zero secfrac.now }
{
    secfrac.iter().any(|byte| b'1' <= *byte && *byte <= b'9')
}

// Parses an offset from UTC, `Z` (in either case), `+HH:MM` or `-HH:MM`, to seconds. `None` for every other
// text, and for an hour above 23 or a minute above 59.
#[tactic(auto, unfolding(crate::specs::Times::offset_of, crate::specs::Times::numoffset_of))]
fn parse_offset(text: &[u8]) -> Option<i32>
    ensures parsed { result ≡ spec.offset_of text.now }
    ensures range { IfSome result IsOffset }
{
    if text.eq_ignore_ascii_case(b"Z") {
        return Some(0);
    }
    if !has_offset_marks(text) {
        return None;
    }
    let hour = parse_number(&text[1..3])?;
    let minute = parse_number(&text[4..6])?;
    offset_seconds(text[0] == b'-', hour, minute)
}

// Whether `text` is as long as a numeric offset (`+HH:MM`), with a sign and a colon at their places.
#[tactic(auto, unfolding(crate::specs::Times::has_offset_marks))]
fn has_offset_marks(text: &[u8]) -> bool
    ensures marks { result ≡ spec.has_offset_marks text.now }
    ensures len { IsTrue result → length text.now ≡ 6 }
{
    text.len() == 6 && (text[0] == b'+' || text[0] == b'-') && text[3] == b':'
}

// The offset of `hour` and `minute`, in seconds; negative if local time is behind UTC (`is_behind`). `None`
// if the hour is above 23 or the minute above 59.
fn offset_seconds(is_behind: bool, hour: u16, minute: u16) -> Option<i32>
    ensures seconds { result ≡ spec.offset_by is_behind hour minute }
    ensures range { IfSome result IsOffset }
{
    if hour > 23 || minute > 59 {
        return None;
    }
    let seconds = i32::from(hour) * 3600 + i32::from(minute) * 60;
    Some(if is_behind { -seconds } else { seconds })
}

// The Unix second in which `time` lies; its fraction is ignored. `None` if there is no such date or time, or
// `jiff` has no such instant.
#[tactic(auto, unfolding(crate::specs::Times::second_of))]
fn unix_second(time: WrittenTime) -> Option<i64>
    requires { IsWritten time }
    ensures second { result ≡ spec.second_of time }
    ensures range { IfSome result (λ second. IsTrue (is_instant second)) }
{
    let shown = to_date_time(time.civil)?;
    let offset = Offset::from_seconds(time.offset).ok()?;
    let instant = offset.to_timestamp(shown).ok()?;
    Some(instant.as_second())
}

// The date and time as `jiff` has them. `None` if they do not exist: month 13, February 30, hour 24, second
// 60. The casts lose nothing, since the year has four digits and every other number two.
fn to_date_time(civil: CivilTime) -> Option<DateTime>
    requires { IsInDigits civil }
    ensures exists { is_some result ≡ is_civil civil }
    ensures as_written { IfSome result (IsShownBy civil) }
{
    DateTime::new(
        civil.year as i16,
        civil.month as i8,
        civil.day as i8,
        civil.hour as i8,
        civil.minute as i8,
        civil.second as i8,
        0,
    )
    .ok()
}
