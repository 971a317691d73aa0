//! Laws of the definitions. Each is the contract of a function that does nothing. A caller makes the law
//! known to the prover by calling the function.

ghost use Rattle.std.specs.Prelude.{◌≡◌, ◌↔◌, ℕ, ◌*◌, ◌/◌, ◌^◌, ◌<◌, ◌≤◌};
ghost use Rattle.std.specs.Int.{IsInRange};
ghost use Rattle.s2_hilbert.specs.Grid.{GridLeaf, IsLeaf, GridSquare, IsSquare, LiesInSquare, ShareSquare};
ghost use Rattle.s2_hilbert.specs.Curve.{position_of, grid_leaf_at, leaf_count, first_position, last_position};

/// Each position has one leaf, and each leaf one position.
pub fn positions_are_leaves()
    ensures leaf { (position : ℕ) → position < 6 * 2 ^ 60 → IsLeaf (grid_leaf_at position) }
    ensures position { (position : ℕ) → position < 6 * 2 ^ 60
        → position_of (grid_leaf_at position) ≡ position }
    ensures below { (leaf : GridLeaf) → IsLeaf leaf → position_of leaf < 6 * 2 ^ 60 }
    ensures inverse { (leaf : GridLeaf) → IsLeaf leaf → grid_leaf_at (position_of leaf) ≡ leaf }
{}

/// A leaf lies in a square if and only if its position is from the first to the last one of the square, both
/// included (`range`). If one leaf lies in a square, another one does if and only if both lie in one square
/// of that level (`share`).
pub fn squares_are_ranges()
    ensures range { (leaf : GridLeaf) (square : GridSquare) → IsLeaf leaf → IsSquare square →
        LiesInSquare leaf square
        ↔ IsInRange (first_position square) (last_position square) (position_of leaf) }
    ensures share { (one other : GridLeaf) (square : GridSquare) → LiesInSquare one square →
        LiesInSquare other square ↔ ShareSquare square.level one other }
{}

/// Two leaves lie in one square of a level if and only if their positions, divided by the number of
/// leaves of such a square, are equal.
pub fn squares_are_quotients()
    ensures { (level : ℕ) (one other : GridLeaf) → level ≤ 30 → IsLeaf one → IsLeaf other →
        ShareSquare level one other
        ↔ (position_of one / leaf_count level ≡ position_of other / leaf_count level) }
{}
