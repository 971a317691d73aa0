//! Rectangles of leaves on a face of S2's cube. A face is a grid of `2^30` by `2^30` leaves with the
//! coordinates `i` and `j`. Its squares of a level are cells, with `2^(30 - level)` leaves along a side.

ghost use Rattle.std.specs.Prelude.{◌≡◌, ◌&&◌, nat_le};
ghost use Rattle.std.specs.Int.{is_in_range};
ghost use Rattle.s2_cover.specs.Covers.{rect_or_fault, is_coordinate, min_level, max_level, IsRect};

use s2_hilbert::{FACE_SIDE, FACES};
use std::error::Error;
use std::fmt;
use std::marker::Model;

// The least level of a rectangle.
const MIN_LEVEL: u8 = 8;

// The greatest level of a rectangle.
const MAX_LEVEL: u8 = 24;

/// A rectangle of leaves on a face, with a level of squares. Its footprint has all leaves of the face that
/// share a square of that level with a leaf of the rectangle.
#[derive(Clone, Copy, Debug, PartialEq, Eq)]
pub struct Rect {
    face: u8,
    i_min: u32,
    i_max: u32,
    j_min: u32,
    j_max: u32,
    level: u8,
}

/// Why numbers are no rectangle. If several reasons apply, the first in this order is reported.
#[derive(Clone, Copy, Debug, PartialEq, Eq)]
pub enum RectFault {
    /// The face is above 5.
    Face,
    /// A coordinate is above `2^30 - 1`.
    Coordinate,
    /// A least coordinate is above its greatest.
    Order,
    /// The level is not 8 to 24.
    Level,
}

impl fmt::Display for RectFault {
    ghost use Rattle.std.specs.Prelude.{Some};
    ghost use Rattle.s2_cover.specs.Covers.{rect_fault_text};

    ghost output = { λ fault. Some (rect_fault_text fault) };

    // The fault as a sentence, in lower case and without a full stop.
    fn fmt<W: fmt::Write>(&self, f: &mut fmt::Formatter<W>) -> fmt::Result {
        f.pad(match self {
            RectFault::Face => "a face is 0 to 5",
            RectFault::Coordinate => "a coordinate is 0 to 2^30 - 1",
            RectFault::Order => "a least coordinate is above its greatest",
            RectFault::Level => "a rectangle has a level of 8 to 24",
        })
    }
}

impl Error for RectFault {}

impl Model for Rect {
    ghost use Rattle.s2_cover.specs.Covers.{RectParts, IsRect};

    ghost Value = { RectParts };

    ghost view = { λ r. record {
      face = r.face;
      i_min = r.i_min;
      i_max = r.i_max;
      j_min = r.j_min;
      j_max = r.j_max;
      level = r.level;
    } };

    ghost invariant = { λ r. IsRect (record {
      face = r.face;
      i_min = r.i_min;
      i_max = r.i_max;
      j_min = r.j_min;
      j_max = r.j_max;
      level = r.level;
    }) };

    ghost inverse = { λ parts. record {
      face = parts.face;
      i_min = parts.i_min;
      i_max = parts.i_max;
      j_min = parts.j_min;
      j_max = parts.j_max;
      level = parts.level;
    } };
}

impl Rect {
    /// The rectangle of the leaves of `face` (0 to 5) with coordinates `i_min..=i_max` and `j_min..=j_max` (0
    /// to `2^30 - 1`). `level` (8 to 24) is that of the squares that make up its footprint.
    ///
    /// # Errors
    ///
    /// The first fault that applies, in the order of `RectFault`.
    pub fn try_new(
        face: u8,
        i_min: u32,
        i_max: u32,
        j_min: u32,
        j_max: u32,
        level: u8,
    ) -> Result<Rect, RectFault>
        ensures { result ≡ rect_or_fault (record {
          face = face;
          i_min = i_min;
          i_max = i_max;
          j_min = j_min;
          j_max = j_max;
          level = level;
        }) }
    {
        if face >= FACES {
            return Err(RectFault::Face);
        }
        if !are_coordinates(i_min, i_max) || !are_coordinates(j_min, j_max) {
            return Err(RectFault::Coordinate);
        }
        if i_min > i_max || j_min > j_max {
            return Err(RectFault::Order);
        }
        if !(MIN_LEVEL..=MAX_LEVEL).contains(&level) {
            return Err(RectFault::Level);
        }
        Ok(Rect {
            face,
            i_min,
            i_max,
            j_min,
            j_max,
            level,
        })
    }

    /// The face, 0 to 5.
    pub fn face(&self) -> u8
        ensures { result ≡ self.now.face }
    {
        self.face
    }

    /// The least coordinate `i` of a leaf of the rectangle, 0 to `2^30 - 1`.
    pub fn i_min(&self) -> u32
        ensures { result ≡ self.now.i_min }
    {
        self.i_min
    }

    /// The greatest coordinate `i` of a leaf of the rectangle; it is included.
    pub fn i_max(&self) -> u32
        ensures { result ≡ self.now.i_max }
    {
        self.i_max
    }

    /// The least coordinate `j` of a leaf of the rectangle, 0 to `2^30 - 1`.
    pub fn j_min(&self) -> u32
        ensures { result ≡ self.now.j_min }
    {
        self.j_min
    }

    /// The greatest coordinate `j` of a leaf of the rectangle; it is included.
    pub fn j_max(&self) -> u32
        ensures { result ≡ self.now.j_max }
    {
        self.j_max
    }

    /// The level of the squares that make up the footprint, 8 to 24.
    pub fn level(&self) -> u8
        ensures value { result ≡ self.now.level }
        ensures limits { IsRect self.now }
    {
        self.level
    }
}

// Whether both numbers are coordinates in the grid of a face, 0 to `2^30 - 1`; their order doesn't matter.
fn are_coordinates(least: u32, greatest: u32) -> bool
    ensures { result ≡ (is_coordinate least && is_coordinate greatest) }
{
    least < FACE_SIDE && greatest < FACE_SIDE
}
