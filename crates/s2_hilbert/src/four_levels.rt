//! The curve through a face: from a leaf to its place, and back. The two highest levels are walked one at a
//! step, the other 28 by tables, four at a step. An orientation of the curve, 0 to 3, has a swap bit 1 (`i`
//! and `j` are exchanged) and an invert bit 2 (both are reversed).

ghost use Rattle.std.specs.Prelude.{◌≡◌, ℕ, ◌+◌, ◌*◌, ◌/◌, ◌%◌, ◌^◌, ◌<◌, slice_index};
ghost use Rattle.s2_hilbert.specs.Grid as grid;
ghost use Rattle.s2_hilbert.specs.Curve as curve;

use crate::levels::{LEAF_LEVEL, quadrant_of};
use crate::quadrants::{quadrant_at, step_to, turned};
use crate::tables::{place_four_levels_down, point_four_levels_down};

// The number of steps of four levels below the two highest levels.
const FOURS: u8 = 7;

// Masks the hex digits at even places, the lowest digit among them.
const EVEN_DIGITS: u32 = 0x0f0f_0f0f;

/// The place of the leaf (`i`, `j`) along the curve through a face, counted from 0. `turn` is the orientation
/// of the curve in the whole face. In the body, `row` is the index at which the table's entries for the
/// orientation that was reached begin.
pub fn place_on_face(turn: u8, i: u32, j: u32) -> u64
    requires { turn < 4 }
    ensures value { result ≡ curve.place grid.leaf_level turn i j }
    ensures below { result < curve.leaf_count 0 }
{
    let first = step_to(turn, quadrant_of(LEAF_LEVEL - 1, i, j));
    let second = step_to(first.turn, quadrant_of(LEAF_LEVEL - 2, i, j));
    let digits = paired_digits(i, j);
    let mut place = 4 * u64::from(first.place) + u64::from(second.place);
    let mut row = 256 * usize::from(second.turn);
    for step in 0..FOURS {
        let four = place_four_levels_down(row + pair_at(digits, FOURS - 1 - step));
        place = 256 * place + u64::from(four.place);
        row = usize::from(four.row);
    }
    place
}

/// The coordinates (`i`, `j`) of the leaf at the place `along`, counted from 0, of the curve through a face
/// with the orientation `turn`: the inverse of `place_on_face`. In the body, `half` is the orientation one
/// level down, and `row` the index at which the table's entries for the orientation that was reached begin.
pub fn point_on_face(turn: u8, along: u64) -> (u32, u32)
    requires turn { turn < 4 }
    requires along { along < curve.leaf_count 0 }
    ensures inverse { curve.place grid.leaf_level turn result.0 result.1 ≡ along }
    ensures i_below { result.0 < grid.side_of 0 }
    ensures j_below { result.1 < grid.side_of 0 }
{
    let first = (along >> 58) as u8;
    let second = (along >> 56 & 3) as u8;
    let half = turned(turn, first);
    let outer = quadrant_at(turn, first);
    let inner = quadrant_at(half, second);
    let mut i = 2 * u32::from(outer / 2) + u32::from(inner / 2);
    let mut j = 2 * u32::from(outer % 2) + u32::from(inner % 2);
    let mut row = 256 * usize::from(turned(half, second));
    for step in 0..FOURS {
        let place = (along >> (8 * (FOURS - 1 - step)) & 255) as usize;
        let four = point_four_levels_down(row + place);
        i = 16 * i + u32::from(four.i);
        j = 16 * j + u32::from(four.j);
        row = usize::from(four.row);
    }
    (i, j)
}

// The hex digits of `i` and `j` in pairs: each byte has a digit of `i` in its upper half, and the digit of
// `j` at the same place in its lower half. The first number has the digits at even places, the second the
// others.
fn paired_digits(i: u32, j: u32) -> [u32; 2]
    ensures { (digit : ℕ) → digit < 8 →
        slice_index result (digit % 2) / 2 ^ (8 * (digit / 2)) % 256
        ≡ 16 * (i / 2 ^ (4 * digit) % 16) + j / 2 ^ (4 * digit) % 16 }
{
    [even_digits(i, j), even_digits(i >> 4, j >> 4)]
}

// The hex digits of `i` and `j` at even places (the lowest digit has place 0): each byte has one of `i` in
// its upper half, and one of `j` in its lower half.
fn even_digits(i: u32, j: u32) -> u32
    ensures { (byte : ℕ) → byte < 4 → result / 2 ^ (8 * byte) % 256
        ≡ 16 * (i / 2 ^ (8 * byte) % 16) + j / 2 ^ (8 * byte) % 16 }
{
    16 * (i & EVEN_DIGITS) + (j & EVEN_DIGITS)
}

// The pair of hex digits at the place `digit`, the lowest at 0, from the result `digits` of `paired_digits`:
// 16 times the digit of `i`, plus the digit of `j`.
fn pair_at(digits: [u32; 2], digit: u8) -> usize
    requires { digit < 8 }
    ensures value { result ≡ slice_index digits (digit % 2) / 2 ^ (8 * (digit / 2)) % 256 }
    ensures below { result < 256 }
{
    (digits[usize::from(digit % 2)] >> (8 * (digit / 2)) & 255) as usize
}
