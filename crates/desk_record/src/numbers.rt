//! The numbers of a line: twenty decimal digits each.

ghost use Rattle.std.specs.Prelude.{◌≡◌, ◌++◌, OnOk};
ghost use Rattle.desk_record.specs.Record as record_text;
ghost use Rattle.desk_record.specs.Record.{digits, next_digit, number_from};

use std::alloc::AllocError;

/// Appends `number` to `out` as twenty decimal digits, with leading zeros.
///
/// # Errors
///
/// `AllocError` if memory runs out: some of the digits may be appended.
#[tactic(auto, unfolding(crate::specs::Record::number))]
pub fn write_number(out: &mut Vec<u8>, number: u64) -> Result<(), AllocError>
    ensures { OnOk result (out.new.items ≡ out.old.items ++ record_text.number number) }
{
    write_digits(out, 20, number)
}

// Appends the last `width` decimal digits of `number` to `out`, with leading zeros. If memory runs out, some
// of them may be appended.
#[tactic(auto, using(crate::proofs::DigitLemmas::one_digit), unfolding(crate::specs::Record::digits))]
fn write_digits(out: &mut Vec<u8>, width: u32, number: u64) -> Result<(), AllocError>
    ensures { OnOk result (out.new.items ≡ out.old.items ++ digits width number) }
{
    if width == 0 {
        return Ok(());
    }
    write_digits(out, width - 1, number / 10)?;
    out.extend_from_slice(&[b'0' + (number % 10) as u8])?;
    Ok(())
}

/// Parses decimal digits, and returns their number. Leading zeros are allowed, and an empty `text` is 0.
/// `None` if a byte isn't an ASCII digit, so also for a sign or a space, or if the number is 2^64 or more.
pub fn parse_number(text: &[u8]) -> Option<u64>
    ensures { result ≡ number_from 0 text.now }
{
    let mut number = 0;
    for digit in text {
        number = append_digit(number, *digit)?;
    }
    Some(number)
}

// `number` with the decimal digit `digit` (an ASCII byte) appended. `None` if the byte isn't a digit or the
// result is 2^64 or more.
fn append_digit(number: u64, digit: u8) -> Option<u64>
    ensures { result ≡ next_digit number digit }
{
    if !digit.is_ascii_digit() {
        return None;
    }
    number.checked_mul(10)?.checked_add(u64::from(digit - b'0'))
}
