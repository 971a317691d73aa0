//! The part of a face that a picture shows, and the coordinates of what is drawn there.

ghost use Rattle.std.specs.Prelude.{◌≡◌, ◌<◌, ◌-◌, ◌^◌};
ghost use Rattle.cell_picture.specs.Picture as spec;
ghost use Rattle.cell_picture.specs.Picture.{IsFrame, IsStep, rounded_down, shown_from, shown_to};

use s2_cellid::CellId;
use s2_cover::Rect;
use s2_hilbert::{FACE_SIDE, LEAF_LEVEL, leaf_at};

/// About how many squares of the grid are drawn along the longer side of a rectangle.
const SQUARES: u64 = 32;

/// The width of a picture, in pixels.
pub(crate) const WIDTH: u64 = 720;

/// The part of a face that a picture shows, in leaves: `i` runs to the right, `j` upwards.
#[derive(Clone, Copy)]
pub(crate) struct Frame {
    // The least `i` and the least `j` that are shown.
    pub(crate) i: u64,
    pub(crate) j: u64,
    // How many leaves are shown in each direction.
    pub(crate) width: u64,
    pub(crate) height: u64,
    // The side of a square of the grid, in leaves.
    pub(crate) step: u64,
}

/// A square in a picture, in leaves: `x` leaves are to the left of it, `y` above it, and its side is `side`.
#[derive(Clone, Copy)]
pub(crate) struct GridSquare {
    pub(crate) x: u64,
    pub(crate) y: u64,
    pub(crate) side: u64,
}

impl Frame {
    /// The part of the face that is shown for `rect`. It is the rectangle with a margin of a quarter of its
    /// longer side (the distance of its outermost leaves), or of one square of the grid if that is more,
    /// widened to whole squares of the grid, and cut at the edge of the face.
    pub(crate) fn around(rect: &Rect) -> Frame
        ensures frame { IsFrame rect.now result }
        ensures step { 0 < result.step }
    {
        let i_length = u64::from(rect.i_max().saturating_sub(rect.i_min()));
        let j_length = u64::from(rect.j_max().saturating_sub(rect.j_min()));
        let length = i_length.max(j_length);
        let step = grid_step(length, side_of(rect.level()));
        let margin = (length / 4).max(step);
        let (i, width) = visible_range(rect.i_min(), rect.i_max(), margin, step);
        let (j, height) = visible_range(rect.j_min(), rect.j_max(), margin, step);
        Frame {
            i,
            j,
            width,
            height,
            step,
        }
    }

    /// The square of `cell` in the picture, in leaves. Its `y` counts down from the upper edge, as in SVG,
    /// while `j` goes up.
    pub(crate) fn place_of(&self, cell: &CellId) -> GridSquare
        ensures { result ≡ spec.place_of self.now cell.now }
    {
        let side = side_of(cell.level());
        let leaf = leaf_at(cell.first());
        let i = round_down(u64::from(leaf.i), side);
        let j = round_down(u64::from(leaf.j), side);
        GridSquare {
            x: i.saturating_sub(self.i),
            y: self.depth_of(j.saturating_add(side)),
            side,
        }
    }

    /// The width of a line that is about one pixel wide, in leaves (the unit of the picture); at least 1.
    pub(crate) fn line_width(&self) -> u64
        ensures { result ≡ spec.line_width_of self.now }
    {
        (self.width / WIDTH).max(1)
    }

    /// The height in pixels of the part of the face that is shown; 0 if the frame has no width.
    pub(crate) fn pixel_height(&self) -> u64
        ensures { result ≡ spec.pixel_height_of self.now }
    {
        let high = self.height.saturating_mul(WIDTH);
        high.checked_div(self.width).unwrap_or(0)
    }

    /// How many leaves the coordinate `j` lies below the upper edge; 0 if it is above that.
    pub(crate) fn depth_of(&self, j: u64) -> u64
        ensures { result ≡ spec.depth_below_top self.now j }
    {
        self.j.saturating_add(self.height).saturating_sub(j)
    }
}

// The side of a square of this level (0 to 30), in leaves.
fn side_of(level: u8) -> u64
    ensures power_of_two { result ≡ 2 ^ (30 - level) }
    ensures positive { 0 < result }
{
    1 << LEAF_LEVEL.saturating_sub(level)
}

// The side of the grid's squares, in leaves: the power of two at which about `SQUARES` squares lie along
// `length` leaves, but at least `side`, the side of a square of the rectangle's level.
fn grid_step(length: u64, side: u64) -> u64
    requires { 0 < side }
    ensures step { IsStep length side result }
    ensures positive { 0 < result }
{
    (length / SQUARES).next_power_of_two().max(side)
}

// The greatest multiple of `step` that is at most `number`.
#[tactic(auto, using(crate::proofs::PictureLemmas::floored))]
fn round_down(number: u64, step: u64) -> u64
    requires { 0 < step }
    ensures { result ≡ rounded_down number step }
{
    number.saturating_sub(number % step)
}

// The coordinates that are shown along one axis: the least one, and how many they are. They are `least` to
// `greatest` with `margin` leaves on both sides, widened to whole squares of the grid (`step` leaves) and cut
// at the edge of the face.
fn visible_range(least: u32, greatest: u32, margin: u64, step: u64) -> (u64, u64)
    requires { 0 < step }
    ensures from { result.0 ≡ shown_from least margin step }
    ensures count { result.1 ≡ shown_to greatest margin step - result.0 }
{
    let from = round_down(u64::from(least).saturating_sub(margin), step);
    let last = u64::from(greatest).saturating_add(margin);
    let to = round_down(last, step)
        .saturating_add(step)
        .min(u64::from(FACE_SIDE));
    (from, to.saturating_sub(from))
}

impl GridSquare {
    /// The centre of the square, as its `x` and its `y`, in whole leaves, rounded down.
    pub(crate) fn middle(self) -> (u64, u64)
        ensures x { result.0 ≡ spec.middle_x self }
        ensures y { result.1 ≡ spec.middle_y self }
    {
        let half = self.side / 2;
        (self.x.saturating_add(half), self.y.saturating_add(half))
    }
}
