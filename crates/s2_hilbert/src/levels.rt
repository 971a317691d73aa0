//! The levels of squares on a face, and the quadrant of a leaf at one of them.

ghost use Rattle.std.specs.Prelude.{◌≡◌, ◌<◌};
ghost use Rattle.s2_hilbert.specs.Grid as grid;
ghost use Rattle.s2_hilbert.specs.Curve as curve;

/// The level of a leaf.
pub const LEAF_LEVEL: u8 = 30;

/// How many leaves a face has.
pub const FACE_LEAVES: u64 = 1 << 60;

// Does nothing. Its contract proves that the constants are those of the definitions in `specs/`.
fn has_the_limits()
    ensures level { LEAF_LEVEL ≡ grid.leaf_level }
    ensures leaves { FACE_LEAVES ≡ curve.leaf_count 0 }
{}

/// The quadrant, 0 to 3, that the leaf (`i`, `j`) has in its square of `2^(bit + 1)` leaves along each side:
/// 2 in the upper half along `i`, plus 1 in the upper half along `j`. A `bit` of 29 gives the quadrant in the
/// whole face.
pub fn quadrant_of(bit: u8, i: u32, j: u32) -> u8
    requires { bit < grid.leaf_level }
    ensures value { result ≡ curve.quadrant_of bit i j }
    ensures below { result < 4 }
{
    (2 * (i >> bit & 1) + (j >> bit & 1)) as u8
}
