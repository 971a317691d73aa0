//! Comparison of the squares of a face with a rectangle: how they overlap.

ghost use Rattle.std.specs.Prelude.{◌≡◌, ◌≢◌, ℕ, ◌+◌, ◌/◌, ◌^◌, ◌<◌, ◌≤◌};
ghost use Rattle.s2_hilbert.specs.Grid.{IsSquare};
ghost use Rattle.s2_cover.specs.Covers.{IsRect, widened, is_along, wide_set, IsRangeOverlap, IsSquareOverlap, IsWide};
ghost use Rattle.s2_cover.specs.Covers as spec;
ghost use Rattle.s2_cover.specs.declared.sight.Overlap.TheVariants.{Across};

use crate::rect::Rect;
use s2_hilbert::{Square, side_of};
use std::marker::Model;

/// A rectangle in coordinates of the squares of its level: the squares that it touches, from (`a_min`,
/// `b_min`) to (`a_max`, `b_max`), both included. `a` is along `i`, `b` along `j`.
#[derive(Clone, Copy, Debug)]
pub(crate) struct Widened {
    face: u8,
    level: u8,
    a_min: u32,
    a_max: u32,
    b_min: u32,
    b_max: u32,
}

/// How the leaves of a square overlap those of a widened rectangle.
#[derive(Clone, Copy, Debug, PartialEq, Eq)]
pub(crate) enum Overlap {
    /// The square has no leaf of the rectangle.
    Outside,
    /// All leaves of the square are in the rectangle.
    Inside,
    /// Some leaves of the square are in the rectangle, others aren't.
    Across,
}

impl Model for Widened {
    ghost use Rattle.s2_cover.specs.Covers.{WideParts, IsWide};

    ghost Value = { WideParts };

    ghost view = { λ w. record {
      face = w.face;
      level = w.level;
      a_min = w.a_min;
      a_max = w.a_max;
      b_min = w.b_min;
      b_max = w.b_max;
    } };

    ghost invariant = { λ w. IsWide (record {
      face = w.face;
      level = w.level;
      a_min = w.a_min;
      a_max = w.a_max;
      b_min = w.b_min;
      b_max = w.b_max;
    }) };

    ghost inverse = { λ parts. record {
      face = parts.face;
      level = parts.level;
      a_min = parts.a_min;
      a_max = parts.a_max;
      b_min = parts.b_min;
      b_max = parts.b_max;
    } };
}

impl Widened {
    /// The squares of the level of `rect` that it touches. The leaf coordinates are divided by the side of
    /// such a square.
    pub(crate) fn of_rect(rect: &Rect) -> Widened
        ensures value { result ≡ widened rect.now }
        ensures valid { IsWide result }
        ensures rect { IsRect rect.now }
    {
        let side = side_of(rect.level());
        Widened {
            face: rect.face(),
            level: rect.level(),
            a_min: rect.i_min() / side,
            a_max: rect.i_max() / side,
            b_min: rect.j_min() / side,
            b_max: rect.j_max() / side,
        }
    }
}

/// How `square` overlaps the squares of `wide`, on the same face; the square's level is at most that of
/// `wide`. Adds one to `looked`, the number of comparisons.
pub(crate) fn compare(wide: &Widened, square: &Square, looked: &mut u64) -> Overlap
    requires wide { IsWide wide.now }
    requires square { IsSquare square.now }
    requires face { square.now.face ≡ wide.now.face }
    requires level { square.now.level ≤ wide.now.level }
    requires room { looked.old + 1 < 2 ^ 64 }
    ensures counted { looked.new ≡ looked.old + 1 }
    ensures is_overlap { IsSquareOverlap (wide_set wide.now) wide.now.level square.now result }
{
    *looked += 1;
    let side = side_of(wide.level);
    combine(
        compare_range(square.i_span(), wide.a_min, wide.a_max, side),
        compare_range(square.j_span(), wide.b_min, wide.b_max, side),
    )
}

// The overlap of a square with a widened rectangle, from those of its range of `i` and of its range of `j`.
fn combine(i_overlap: Overlap, j_overlap: Overlap) -> Overlap
    ensures { result ≡ spec.combined_overlap i_overlap j_overlap }
{
    match (i_overlap, j_overlap) {
        (Overlap::Outside, _) | (_, Overlap::Outside) => Overlap::Outside,
        (Overlap::Inside, Overlap::Inside) => Overlap::Inside,
        _ => Overlap::Across,
    }
}

// How the leaf coordinates `span.0..=span.1` overlap the squares with the coordinates `least..=greatest`,
// along one axis; a square has `side` leaves along a side. They are `Across` only if they lie in more than
// one square.
fn compare_range(span: (u32, u32), least: u32, greatest: u32, side: u32) -> Overlap
    requires span { span.0 ≤ span.1 }
    requires order { least ≤ greatest }
    requires side { 0 < side }
    ensures is_overlap { IsRangeOverlap span.0 span.1 (is_along side least greatest) result }
    ensures apart { result ≡ Across → span.0 / side ≢ span.1 / side }
{
    let low = span.0 / side;
    let high = span.1 / side;
    if high < least {
        return Overlap::Outside;
    }
    if greatest < low {
        return Overlap::Outside;
    }
    if least <= low && high <= greatest {
        return Overlap::Inside;
    }
    Overlap::Across
}
