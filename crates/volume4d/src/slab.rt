//! Slabs: leaves that follow each other along the S2 curve, with altitudes and times. The position of a leaf
//! is its number along the curve over all six faces, counted from 0.

ghost use Rattle.std.specs.Prelude.{◌<◌, ◌*◌, ◌^◌};

/// The points with a leaf at a position `first..=last` along the S2 curve, an altitude `lower <= a < upper`
/// and a Unix second `start <= t < end`. A slab has no points if one of these ranges is empty.
#[derive(Clone, Copy, Debug, PartialEq, Eq)]
pub struct Slab {
    /// The position of the first leaf among all leaves along the curve, below `6 * 2^60`.
    pub first: u64,
    /// The position of the last leaf, below `6 * 2^60`.
    pub last: u64,
    /// The lowest altitude, in decimetres above the WGS84 ellipsoid.
    pub lower: i32,
    /// The upper bound of the altitudes, which does not belong to them, in the same unit.
    pub upper: i32,
    /// The first Unix second.
    pub start: i64,
    /// The Unix second after the last.
    pub end: i64,
    pub ghost first_is_leaf: { first < 6 * 2 ^ 60 },
    pub ghost last_is_leaf: { last < 6 * 2 ^ 60 },
}

/// A slab that belongs to a stored plan, with that plan's priority.
#[derive(Clone, Copy, Debug, PartialEq, Eq)]
pub struct Held {
    /// The points that the plan holds.
    pub slab: Slab,
    /// The plan's priority; of two plans the one with the higher priority goes first
    /// (ASTM F3548-21).
    pub priority: u32,
}
