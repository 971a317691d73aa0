//! Lines of the journal: the fixed-length line with which each entry begins.

ghost use Rattle.std.specs.Prelude.{◌≡◌, ◌++◌, IfOk, OnOk, length};
ghost use Rattle.std.specs.Option.{option_map};
ghost use Rattle.desk_record.specs.Record.{line_fields, line, sum, parsed_line, parsed_line_fields, line_of_parts, line_parts};

use crate::kind::{Kind, parse_kind};
use crate::numbers::{parse_number, write_number};
use crate::sums::checksum;
use std::alloc::{AllocError, Global};

/// The length of a line, in bytes.
pub const LINE_LEN: usize = 86;

/// The fields of a line, without the line's own checksum.
#[derive(Drop)]
pub struct Line {
    pub kind: Kind,
    pub number: u64,
    /// How many bytes of its own the entry has.
    pub size: u64,
    /// The checksum of these bytes, as sixteen hexadecimal digits.
    pub sum: Vec<u8>,
}

/// The text of a line: its fields, the checksum of their text, a line feed.
///
/// # Errors
///
/// `AllocError` if memory runs out.
#[tactic(auto, unfolding(crate::specs::Record::line))]
pub fn line_text(alloc: Global, line: &Line) -> Result<Vec<u8>, AllocError>
    ensures { IfOk result (λ text. text.items ≡ line_of_parts (line_parts line.now)) }
{
    let mut text = Vec::with_capacity(alloc, LINE_LEN)?;
    write_line_fields(&mut text, line)?;
    let sum = checksum(alloc, &text)?;
    text.extend_from_slice(&sum)?;
    text.extend_from_slice(b"\n")?;
    Ok(text)
}

// Appends the fields of `line` to `text`, a blank after each: all that stands before the line's own checksum.
// If memory runs out, a part of them may be appended.
fn write_line_fields(text: &mut Vec<u8>, line: &Line) -> Result<(), AllocError>
    ensures { OnOk result (text.new.items ≡ text.old.items
        ++ line_fields line.now.kind line.now.number line.now.size line.now.sum.items) }
{
    text.extend_from_slice(line.kind.word())?;
    text.extend_from_slice(b" ")?;
    write_number(text, line.number)?;
    text.extend_from_slice(b" ")?;
    write_number(text, line.size)?;
    text.extend_from_slice(b" ")?;
    text.extend_from_slice(&line.sum)?;
    text.extend_from_slice(b" ")?;
    Ok(())
}

/// Parses the 86 `bytes` of a line and checks the line's own checksum. `None` if they aren't a line: only the
/// text that `line_text` makes of the fields is one.
///
/// # Errors
///
/// `AllocError` if memory runs out.
#[tactic(auto, unfolding(crate::specs::Record::parsed_line))]
pub fn read_line(alloc: Global, bytes: &[u8]) -> Result<Option<Line>, AllocError>
    requires { length bytes.now ≡ 86 }
    ensures { IfOk result (λ found. option_map line_parts found ≡ parsed_line bytes.now) }
{
    let Some(line) = parse_line_fields(alloc, bytes)? else {
        return Ok(None);
    };
    if line_text(alloc, &line)?.as_slice() == bytes {
        Ok(Some(line))
    } else {
        Ok(None)
    }
}

// Parses the fields of a line by their places: the kind at byte 0, the number at 10, the size at 31 and the
// entry's checksum at 52. The line's own checksum and its blanks aren't checked here. `None` if the kind or
// one of the numbers is invalid.
#[tactic(auto, unfolding(crate::specs::Record::parsed_line_fields))]
fn parse_line_fields(alloc: Global, bytes: &[u8]) -> Result<Option<Line>, AllocError>
    requires { length bytes.now ≡ 86 }
    ensures { IfOk result (λ found. option_map line_parts found ≡ parsed_line_fields bytes.now) }
{
    let Some(kind) = parse_kind(&bytes[..9]) else {
        return Ok(None);
    };
    let Some(number) = parse_number(&bytes[10..30]) else {
        return Ok(None);
    };
    let Some(size) = parse_number(&bytes[31..51]) else {
        return Ok(None);
    };
    let sum = Vec::from_slice(alloc, &bytes[52..68])?;
    Ok(Some(Line {
        kind,
        number,
        size,
        sum,
    }))
}
