//! Tokens: the texts of cell ids (S2's `ToToken` and `FromToken`). A token is the id in base 16 without the
//! zeros at its end.

ghost use Rattle.std.specs.Prelude.{◌≡◌, ◌-◌, ◌<◌, ◌≤◌, ◌↔◌, ℕ, length, IsTrue, List, Ok, Some};
ghost use Rattle.std.specs.{Char.digit_char, Char.digit_value, List.suffix_len, Option.SomeIff};
ghost use Rattle.s2_cellid.specs.Cell.{IsCellId, is_hex, id_digits, zero_padded_value, IsSpelling, IsInPrintedForm, read_token, hex_digits, is_zero, token_text};

use crate::CellId;
use std::error::Error;
use std::marker::Model;
use std::{fmt, str};

// How many hex digits an id has.
const DIGITS: usize = 16;

// Does nothing. Its contract proves that the constant is that of the definition in `specs/`.
fn has_the_limit()
    ensures { DIGITS ≡ id_digits }
{}

// Marks a byte in `HEX_VALUES` that is no hex digit.
const NO: u8 = 16;

// The value of each byte as a hex digit of either case.
static HEX_VALUES: [u8; 256] = [
    NO, NO, NO, NO, NO, NO, NO, NO, NO, NO, NO, NO, NO, NO, NO, NO, NO, NO, NO, NO, NO, NO, NO, NO,
    NO, NO, NO, NO, NO, NO, NO, NO, NO, NO, NO, NO, NO, NO, NO, NO, NO, NO, NO, NO, NO, NO, NO, NO,
    0, 1, 2, 3, 4, 5, 6, 7, 8, 9, NO, NO, NO, NO, NO, NO, NO, 10, 11, 12, 13, 14, 15, NO, NO, NO,
    NO, NO, NO, NO, NO, NO, NO, NO, NO, NO, NO, NO, NO, NO, NO, NO, NO, NO, NO, NO, NO, NO, NO, 10,
    11, 12, 13, 14, 15, NO, NO, NO, NO, NO, NO, NO, NO, NO, NO, NO, NO, NO, NO, NO, NO, NO, NO, NO,
    NO, NO, NO, NO, NO, NO, NO, NO, NO, NO, NO, NO, NO, NO, NO, NO, NO, NO, NO, NO, NO, NO, NO, NO,
    NO, NO, NO, NO, NO, NO, NO, NO, NO, NO, NO, NO, NO, NO, NO, NO, NO, NO, NO, NO, NO, NO, NO, NO,
    NO, NO, NO, NO, NO, NO, NO, NO, NO, NO, NO, NO, NO, NO, NO, NO, NO, NO, NO, NO, NO, NO, NO, NO,
    NO, NO, NO, NO, NO, NO, NO, NO, NO, NO, NO, NO, NO, NO, NO, NO, NO, NO, NO, NO, NO, NO, NO, NO,
    NO, NO, NO, NO, NO, NO, NO, NO, NO, NO, NO, NO, NO, NO, NO, NO, NO, NO, NO, NO, NO, NO, NO, NO,
    NO, NO, NO, NO, NO, NO, NO, NO, NO, NO, NO, NO, NO, NO,
];

/// Why a text is no token of a cell. If several reasons apply, the first in this order is reported.
#[derive(Clone, Copy, Debug, PartialEq, Eq)]
pub enum TokenFault {
    /// The text is empty.
    Empty,
    /// The text has more than 16 bytes.
    TooLong,
    /// Some byte is no hex digit.
    NotHex,
    /// The digits, padded with zeros on the right, are no valid id.
    NotACell,
}

impl fmt::Display for TokenFault {
    ghost use Rattle.s2_cellid.specs.Cell.{token_fault_text};

    ghost output = { λ fault. Some (token_fault_text fault) };

    // The fault as a sentence, in lower case and without a full stop.
    fn fmt<W: fmt::Write>(&self, f: &mut fmt::Formatter<W>) -> fmt::Result {
        f.pad(match self {
            TokenFault::Empty => "the token is empty",
            TokenFault::TooLong => "the token has more than 16 digits",
            TokenFault::NotHex => "the token has a byte that is no hex digit",
            TokenFault::NotACell => "the token is not that of a valid cell",
        })
    }
}

impl Error for TokenFault {}

/// The printed token of a cell: 1 to 16 lower-case hex digits, stored without an allocation.
#[derive(Clone, Copy, Debug, PartialEq, Eq)]
pub struct Token {
    // all digits of the id, with its trailing zeros
    digits: [u8; DIGITS],
    // how many of the digits are printed
    printed: usize,
}

impl Model for Token {
    ghost use Rattle.std.specs.Prelude.{ℕ, ◌-◌, ◌++◌, List, length, take, replicate};

    ghost Value = { List ℕ };

    ghost use Rattle.s2_cellid.specs.Cell.{zero_padded, HoldsToken, refilled};

    ghost view = { λ token. take token.printed token.digits };

    ghost invariant = { λ token. HoldsToken token.digits token.printed };

    ghost inverse = { λ text. record { digits = zero_padded text; printed = length text } };

    ghost inverse_ok = { λ token holds. let same = refilled token.digits token.printed holds in
        λ i. record { digits = same.0 i; printed = same.1 i } };
}

impl Token {
    /// The token as text: 1 to 16 hex digits, lower-case.
    pub fn as_str(&self) -> &str
        ensures { result.now ≡ self.now }
    {
        // Hex digits are ASCII, and so UTF-8.
        unsafe { str::from_utf8_unchecked(&self.digits[..self.printed]) }
    }
}

impl fmt::Display for Token {
    ghost output = { λ token. Some token };

    // The token, as `as_str` returns it.
    fn fmt<W: fmt::Write>(&self, f: &mut fmt::Formatter<W>) -> fmt::Result {
        f.pad(self.as_str())
    }
}

impl fmt::Display for CellId {
    ghost output = { λ id. Some (token_text id) };

    // The cell's token.
    fn fmt<W: fmt::Write>(&self, f: &mut fmt::Formatter<W>) -> fmt::Result {
        f.pad(self.token().as_str())
    }
}

impl CellId {
    /// The token of the cell: its id in base 16, lower-case, without trailing zeros.
    pub fn token(&self) -> Token
        ensures value { result ≡ token_text self.now }
        ensures spelling { IsSpelling result self.now }
        ensures printed { IsInPrintedForm result }
        ensures only { (text : List ℕ) → IsSpelling text self.now → IsInPrintedForm text → text ≡ result }
        ensures read_back { read_token result ≡ Ok self.now }
    {
        let id = self.raw();
        Token {
            digits: hex_digits(id),
            printed: printed_length(id),
        }
    }

    /// The cell of a token: 1 to 16 hex digits of either case, which are padded with zeros on the right.
    ///
    /// # Errors
    ///
    /// The first fault that applies, in the order of `TokenFault`.
    pub fn from_token(token: &[u8]) -> Result<CellId, TokenFault>
        ensures value { result ≡ read_token token.now }
        ensures spelling { (id : ℕ) → (result ≡ Ok id) ↔ (IsSpelling token.now id × IsCellId id) }
    {
        if token.is_empty() {
            return Err(TokenFault::Empty);
        }
        if token.len() > DIGITS {
            return Err(TokenFault::TooLong);
        }
        let Some(id) = zero_padded_value(token) else {
            return Err(TokenFault::NotHex);
        };
        CellId::from_raw(id).ok_or(TokenFault::NotACell)
    }
}

// The 16 hex digits of an id as ASCII bytes, lower-case, the highest first.
fn hex_digits(id: u64) -> [u8; DIGITS]
    ensures { result ≡ hex_digits id_digits id }
{
    let mut digits = [b'0'; DIGITS];
    for (place, digit) in digits.iter_mut().enumerate() {
        *digit = hex_digit((id >> (60 - 4 * place)) % 16);
    }
    digits
}

// The ASCII byte of a hex digit, lower-case, by its value, 0 to 15.
fn hex_digit(value: u64) -> u8
    requires { value < 16 }
    ensures { result ≡ digit_char value }
{
    if value < 10 {
        b'0' + value as u8
    } else {
        b'a' + (value - 10) as u8
    }
}

// How many of an id's 16 hex digits are left without the zeros at its end: 1 to 16, since a valid id is never
// 0.
fn printed_length(id: u64) -> usize
    requires { IsCellId id }
    ensures { result ≡ length (hex_digits id_digits id)
        - suffix_len is_zero (hex_digits id_digits id) }
{
    DIGITS - (id.trailing_zeros() / 4) as usize
}

// The value, 0 to 15, of a hex digit of either case; `None` if the byte is no hex digit.
fn hex_value(byte: u8) -> Option<u8>
    ensures { SomeIff result (digit_value byte < 16) (digit_value byte) }
{
    let value = HEX_VALUES[byte as usize];
    if value < NO { Some(value) } else { None }
}

// The number whose 16 hex digits are the 1 to 16 bytes of `token`, and zeros after these. `None` if a byte of
// `token` is no hex digit.
fn zero_padded_value(token: &[u8]) -> Option<u64>
    requires some { 0 < length token.now }
    requires at_most { length token.now ≤ id_digits }
    ensures { SomeIff result (IsTrue (is_hex token.now)) (zero_padded_value token.now) }
{
    let mut value = 0;
    for byte in token {
        value = value * 16 + u64::from(hex_value(*byte)?);
    }
    Some(value << (64 - 4 * token.len()))
}
