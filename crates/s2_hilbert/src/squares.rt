//! Squares of leaves, in the order of the curve. The curve has an orientation, 0 to 3, in each square: with
//! the swap bit 1 `i` and `j` are exchanged, with the invert bit 2 both are reversed.

ghost use Rattle.std.specs.Prelude.{◌≡◌, ◌↔◌, ℕ, ◌+◌, ◌-◌, ◌*◌, ◌/◌, ◌^◌, ◌<◌, ◌≤◌};
ghost use Rattle.std.specs.Int.{IsInRange};
ghost use Rattle.s2_hilbert.specs.{Grid.GridLeaf, Grid.IsLeaf, Grid.IsSquare, Grid.LiesInSquare, Grid.grid_square, Curve.position_of, Curve.first_position, Curve.last_position};
ghost use Rattle.s2_hilbert.specs.Grid as grid;
ghost use Rattle.s2_hilbert.specs.Curve as curve;

use crate::four_levels::place_on_face;
use crate::levels::{FACE_LEAVES, LEAF_LEVEL};
use crate::quadrants::{quadrant_at, turned};
use std::marker::Model;

/// A square of leaves: its face, its level from 0 for a whole face to 30 for a leaf, its coordinates (`a`
/// along `i`, `b` along `j`) in the grid of the squares of that level, and the orientation of the curve in it
/// (swap bit 1, invert bit 2), which the other four determine.
#[derive(Clone, Copy, Debug, PartialEq, Eq, Hash)]
pub struct Square {
    pub face: u8,
    pub level: u8,
    pub a: u32,
    pub b: u32,
    pub turn: u8,
}

impl Model for Square {
    ghost use Rattle.std.specs.Prelude.{◌≡◌};
    ghost use Rattle.s2_hilbert.specs.{Grid.GridSquare, Grid.IsSquare, Grid.grid_square, Curve.turn_of};

    ghost Value = { GridSquare };

    ghost view = { λ square. grid_square square.face square.level square.a square.b };

    ghost invariant = { λ square. IsSquare (grid_square square.face square.level square.a square.b)
        × (square.turn ≡ turn_of (grid_square square.face square.level square.a square.b)) };

    ghost inverse = { λ square. record {
      face = square.face;
      level = square.level;
      a = square.a;
      b = square.b;
      turn = turn_of square;
    } };
}

impl Square {
    /// The square of level 0: the whole of `face`, 0 to 5.
    pub fn of_face(face: u8) -> Square
        requires { face < 6 }
        ensures { result ≡ grid_square face 0 0 0 }
    {
        Square {
            face,
            level: 0,
            a: 0,
            b: 0,
            turn: face % 2,
        }
    }

    /// The quarter of this square that the curve visits at place `k`, 0 to 3. It is one level down, so this
    /// square must not be a leaf.
    // Long: five numbers of a square, and which of its parent's leaves it has.
    pub fn child(&self, k: u8) -> Square
        requires k { k < 4 }
        requires level { self.now.level < 30 }
        ensures face { result.face ≡ self.now.face }
        ensures level { result.level ≡ self.now.level + 1 }
        ensures a { result.a / 2 ≡ self.now.a }
        ensures b { result.b / 2 ≡ self.now.b }
        ensures square { IsSquare result }

        // The children, in curve order, divide the positions of their parent into quarters.
        ensures first { first_position result
            ≡ first_position self.now + k * curve.leaf_count result.level }
        ensures leaves { (leaf : GridLeaf) → IsLeaf leaf → LiesInSquare leaf result
            ↔ (LiesInSquare leaf self.now
            × ((position_of leaf - first_position self.now) / curve.leaf_count result.level ≡ k)) }
    {
        let quadrant = quadrant_at(self.turn, k);
        Square {
            face: self.face,
            level: self.level + 1,
            a: 2 * self.a + u32::from(quadrant / 2),
            b: 2 * self.b + u32::from(quadrant % 2),
            turn: turned(self.turn, k),
        }
    }

    /// The position of the square's first leaf, counted from 0 along the curve over all faces.
    pub fn first(&self) -> u64
        ensures value { result ≡ first_position self.now }
        ensures leaves { (leaf : GridLeaf) → IsLeaf leaf → LiesInSquare leaf self.now
            ↔ IsInRange result (last_position self.now) (position_of leaf) }
        ensures below { result < 6 * 2 ^ 60 }
        ensures square { IsSquare self.now }
    {
        let place = place_of_square(self.level, self.face % 2, self.a, self.b);
        u64::from(self.face) * FACE_LEAVES + place * leaf_count(self.level)
    }

    /// The position of the square's last leaf, counted as for `first`.
    pub fn last(&self) -> u64
        ensures value { result ≡ last_position self.now }
        ensures leaves { (leaf : GridLeaf) → IsLeaf leaf → LiesInSquare leaf self.now
            ↔ IsInRange (first_position self.now) result (position_of leaf) }
        ensures below { result < 6 * 2 ^ 60 }
    {
        self.first() + (leaf_count(self.level) - 1)
    }

    /// The least and the greatest coordinate `i` of the square's leaves.
    pub fn i_span(&self) -> (u32, u32)
        ensures span { (i : ℕ) → (i / grid.side_of self.now.level ≡ self.now.a)
            ↔ IsInRange result.0 result.1 i }
        ensures below { result.1 < 2 ^ 30 }
    {
        span(self.level, self.a)
    }

    /// The least and the greatest coordinate `j` of the square's leaves.
    pub fn j_span(&self) -> (u32, u32)
        ensures span { (j : ℕ) → (j / grid.side_of self.now.level ≡ self.now.b)
            ↔ IsInRange result.0 result.1 j }
        ensures below { result.1 < 2 ^ 30 }
    {
        span(self.level, self.b)
    }
}

// The place of the square (`a`, `b`) of `level` along the curve through a face, counted from 0 among the
// squares of that level. It is the place of any of the square's leaves, divided by how many leaves the square
// has. `turn` is the orientation of the curve in the face.
fn place_of_square(level: u8, turn: u8, a: u32, b: u32) -> u64
    requires level { level ≤ grid.leaf_level }
    requires turn { turn < 4 }
    requires a { a < 2 ^ level }
    requires b { b < 2 ^ level }
    ensures value { result ≡ curve.place level turn a b }
    ensures below { result < 4 ^ level }
{
    let side = side_of(level);
    place_on_face(turn, a * side, b * side) / leaf_count(level)
}

// How many leaves a square of `level`, 0 to 30, has: four times as many on each level up.
fn leaf_count(level: u8) -> u64
    requires { level ≤ grid.leaf_level }
    ensures { result ≡ curve.leaf_count level }
{
    1 << (2 * (LEAF_LEVEL - level))
}

/// How many leaves a square of `level`, 0 to 30, has along a side.
pub fn side_of(level: u8) -> u32
    requires { level ≤ 30 }
    ensures value { result ≡ grid.side_of level }
    ensures some { 0 < result }
{
    1 << (LEAF_LEVEL - level)
}

// The least and the greatest leaf coordinate in the squares of `level` whose coordinate in the grid of that
// level is `coordinate`, along either axis.
fn span(level: u8, coordinate: u32) -> (u32, u32)
    requires level { level ≤ grid.leaf_level }
    requires coordinate { coordinate < 2 ^ level }
    ensures span { (n : ℕ) → (n / grid.side_of level ≡ coordinate) ↔ IsInRange result.0 result.1 n }
    ensures below { result.1 < grid.side_of 0 }
{
    let side = side_of(level);
    let least = coordinate * side;
    (least, least + (side - 1))
}
