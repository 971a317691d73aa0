//! The table of quadrants of the curve (S2's `kPosToIJ` and `kPosToOrientation`). A quadrant is 2 in the
//! upper half of a square along `i`, plus 1 in the upper half along `j`. A place, 0 to 3, says as which of
//! the four the curve visits a quadrant. An orientation, 0 to 3, has a swap bit 1 (`i` and `j` are exchanged)
//! and an invert bit 2 (both are reversed).

ghost use Rattle.std.specs.Prelude.{◌≡◌, ◌<◌};
ghost use Rattle.s2_hilbert.specs.Curve as curve;

// For each orientation, the four quadrants in curve order.
const QUADRANTS: [[u8; 4]; 4] = [[0, 1, 3, 2], [0, 2, 3, 1], [3, 2, 0, 1], [3, 1, 0, 2]];

// For each place along the curve, the bits of the orientation that flip in the quadrant there.
const CHANGES: [u8; 4] = [1, 0, 0, 3];

/// One level down to a quadrant: its place along the curve, and the orientation (`turn`) in it.
pub struct CurveStep {
    pub place: u8,
    pub turn: u8,
}

// `steps![p t, ..]` is an array of steps, each given by its place and its turn.
macro_rules! steps {
    ($($place:literal $turn:literal),*) => {
        [$(CurveStep { place: $place, turn: $turn }),*]
    };
}

// For each orientation, the steps to the quadrants 0 to 3.
static STEPS: [[CurveStep; 4]; 4] = [
    steps![0 1, 1 0, 3 3, 2 0],
    steps![0 0, 3 2, 1 1, 2 1],
    steps![2 2, 3 1, 1 2, 0 3],
    steps![2 3, 1 3, 3 0, 0 2],
];

// Does nothing. Its contract proves that the constants are the tables of the definitions in `specs/`.
fn has_the_tables()
    ensures quadrants { QUADRANTS ≡ curve.table_of_quadrants }
    ensures changes { CHANGES ≡ curve.changes_of_turn }
{}

/// The quadrant that the curve visits at `place`, 0 to 3, in a square where it has the orientation `turn`.
#[tactic(auto, unfolding(crate::specs::Curve::quadrant_at))]
pub fn quadrant_at(turn: u8, place: u8) -> u8
    requires turn { turn < 4 }
    requires place { place < 4 }
    ensures value { result ≡ curve.quadrant_at turn place }
    ensures below { result < 4 }
{
    QUADRANTS[turn as usize][place as usize]
}

/// The place along the curve of `quadrant`, 0 to 3, in a square where the curve has the orientation `turn`,
/// and the orientation in that quadrant.
#[tactic(auto, unfolding(crate::specs::Curve::place_of, crate::specs::Curve::turned))]
pub fn step_to(turn: u8, quadrant: u8) -> &'static CurveStep
    requires turn { turn < 4 }
    requires quadrant { quadrant < 4 }
    ensures place { result.now.place ≡ curve.place_of turn quadrant }
    ensures turn { result.now.turn ≡ curve.turned turn result.now.place }
    ensures place_below { result.now.place < 4 }
    ensures turn_below { result.now.turn < 4 }
{
    &STEPS[turn as usize][quadrant as usize]
}

/// The orientation of the curve in the quadrant that it visits at `place`, 0 to 3, in a square where it has
/// the orientation `turn`.
#[tactic(auto, unfolding(crate::specs::Curve::turned))]
pub fn turned(turn: u8, place: u8) -> u8
    requires turn { turn < 4 }
    requires place { place < 4 }
    ensures value { result ≡ curve.turned turn place }
    ensures below { result < 4 }
{
    turn ^ CHANGES[place as usize]
}
