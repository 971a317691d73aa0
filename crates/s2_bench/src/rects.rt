//! Pseudo-random rectangles that lie on whole squares of their level, the same on each run.

ghost use Rattle.std.specs.Prelude.{◌<◌};

use crate::cells::Numbers;
use s2_cover::Rect;
use std::alloc::{AllocError, Global};

// How many leaves a face has along a side.
const FACE_SIDE: u64 = 1 << 30;

// Rectangles have levels from 24 up to 8, that is 0 to 16 above the greatest.
const LEVEL: u64 = 24;

const LEVELS: u64 = 17;

// How many leaves a square of the greatest level has along a side.
const SQUARE_SIDE: u64 = 64;

// The most squares along a side.
const SQUARES: u64 = 24;

// How many squares a row has.
const IN_A_ROW: u64 = 256;

/// What rectangles are made.
#[derive(Clone, Copy)]
pub enum Form {
    /// 1 to 24 squares along each side.
    Any,
    /// A row of 256 squares, each of which is a cell of the cover.
    Row,
}

/// Of so many rectangles those that lie on their face.
pub fn random_rects(alloc: Global, count: u32, form: Form) -> Result<Vec<Rect>, AllocError> {
    let mut numbers = Numbers { state: 2 };
    let mut rects = Vec::new(alloc);
    for _ in 0..count {
        if let Some(rect) = random_rect(&mut numbers, form) {
            rects.push(rect)?;
        }
    }
    Ok(rects)
}

fn random_rect(numbers: &mut Numbers, form: Form) -> Option<Rect> {
    let face = numbers.next() % 6;
    let above = numbers.next() % LEVELS;
    let (wide, high) = match form {
        Form::Any => (1 + numbers.next() % SQUARES, 1 + numbers.next() % SQUARES),
        Form::Row => (1, IN_A_ROW),
    };
    let side = SQUARE_SIDE << above;
    let (i_min, i_max) = coordinates(numbers.next(), wide, side);
    let (j_min, j_max) = coordinates(numbers.next(), high, side);
    Rect::try_new(
        u8::try_from(face).ok()?,
        u32::try_from(i_min).ok()?,
        u32::try_from(i_max).ok()?,
        u32::try_from(j_min).ok()?,
        u32::try_from(j_max).ok()?,
        u8::try_from(LEVEL - above).ok()?,
    )
    .ok()
}

// The least and the greatest coordinate of so many squares, the first of which lies round a place.
fn coordinates(place: u64, squares: u64, side: u64) -> (u64, u64)
    requires { 0 < side }
{
    let place = place % FACE_SIDE;
    let least = place - place % side;
    let greatest = squares
        .wrapping_mul(side)
        .wrapping_add(least)
        .wrapping_sub(1);
    (least, greatest)
}
