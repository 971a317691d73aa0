//! Leaf cells and their positions on the curve. The curve has an orientation, 0 to 3, in each face: with the
//! swap bit 1 `i` and `j` are exchanged, with the invert bit 2 both are reversed.

ghost use Rattle.std.specs.Prelude.{◌≡◌, ◌*◌, ◌^◌, ◌<◌};
ghost use Rattle.std.specs.Option.{SomeIff};
ghost use Rattle.s2_hilbert.specs.{Grid.GridLeaf, Grid.IsLeaf, Grid.grid_leaf, Grid.face_count, Grid.side_of, Curve.position_of, Curve.grid_leaf_at};

use crate::four_levels::{place_on_face, point_on_face};
use crate::levels::{FACE_LEAVES, LEAF_LEVEL};
use std::marker::Model;

/// How many faces there are.
pub const FACES: u8 = 6;

/// How many leaves a face has along each side.
pub const FACE_SIDE: u32 = 1 << LEAF_LEVEL;

// Does nothing. Its contract proves that the constants are those of the definitions in `specs/`.
fn has_the_limits()
    ensures faces { FACES ≡ face_count }
    ensures side { FACE_SIDE ≡ side_of 0 }
{}

/// A leaf cell: its face, 0 to 5, and its coordinates in the grid of that face, 0 to `2^30 - 1`.
#[derive(Clone, Copy, Debug, PartialEq, Eq, Hash)]
pub struct Leaf {
    pub face: u8,
    pub i: u32,
    pub j: u32,
}

impl Model for Leaf {
    ghost use Rattle.s2_hilbert.specs.Grid.{GridLeaf, IsLeaf, grid_leaf};

    ghost Value = { GridLeaf };

    ghost view = { λ leaf. grid_leaf leaf.face leaf.i leaf.j };

    ghost invariant = { λ leaf. IsLeaf (grid_leaf leaf.face leaf.i leaf.j) };

    ghost inverse = { λ leaf. record { face = leaf.face; i = leaf.i; j = leaf.j } };
}

impl Leaf {
    /// The leaf at (`i`, `j`) of `face`; `None` if the face is above 5 or a coordinate above `2^30 - 1`.
    pub fn try_new(face: u8, i: u32, j: u32) -> Option<Leaf>
        ensures { SomeIff result (IsLeaf (grid_leaf face i j)) (grid_leaf face i j) }
    {
        if face < FACES && i < FACE_SIDE && j < FACE_SIDE {
            Some(Leaf { face, i, j })
        } else {
            None
        }
    }
}

/// The position of a leaf among the leaves of all faces, counted from 0 along the curve. In odd faces the
/// curve begins with the orientation 1, in even ones with 0.
pub fn position(leaf: Leaf) -> u64
    ensures value { result ≡ position_of leaf }
    ensures below { result < 6 * 2 ^ 60 }
    ensures leaf { IsLeaf leaf }
{
    let along = place_on_face(leaf.face % 2, leaf.i, leaf.j);
    u64::from(leaf.face) * FACE_LEAVES + along
}

/// The leaf at `position` along the curve, counted from 0 over all faces: the inverse of the function
/// `position`.
pub fn leaf_at(position: u64) -> Leaf
    requires { position < 6 * 2 ^ 60 }
    ensures value { result ≡ grid_leaf_at position }
    ensures leaf { IsLeaf result }
    ensures inverse { position_of result ≡ position }
    ensures only { (leaf : GridLeaf) → IsLeaf leaf → position_of leaf ≡ position → leaf ≡ result }
{
    let face = (position / FACE_LEAVES) as u8;
    let (i, j) = point_on_face(face % 2, position % FACE_LEAVES);
    Leaf { face, i, j }
}
