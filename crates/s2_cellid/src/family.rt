//! The cells of leaves and squares, and the cells above and below a cell (its parents and children).

ghost use Rattle.std.specs.Prelude.{◌≡◌, ◌↔◌, ◌+◌, ◌-◌, ◌/◌, ◌<◌, ◌≤◌, IsTrue};
ghost use Rattle.s2_hilbert.specs.{Grid.GridLeaf, Grid.IsLeaf, Grid.LiesInSquare, Grid.ShareSquare, Grid.leaf_level, Curve.position_of, Curve.leaf_count};
ghost use Rattle.s2_cellid.specs.Cell.{IsCellId, level_of, first_leaf, leaf_id, cell_has_leaf, square_id, parent_id, child_id};

use crate::CellId;
use s2_hilbert::{Leaf, Square, position};

impl CellId {
    /// The cell of level 30 with the one leaf `leaf`.
    pub fn of_leaf(leaf: Leaf) -> CellId
        ensures value { result ≡ leaf_id leaf }
        ensures valid { IsCellId result }
        ensures level { level_of result ≡ 30 }
        ensures leaves { (other : GridLeaf) → IsLeaf other →
            IsTrue (cell_has_leaf result other) ↔ (other ≡ leaf) }
    {
        let id = 2 * position(leaf) + 1;
        CellId { id }
    }

    /// The cell with exactly the leaves of `square`, at the same level.
    pub fn of_square(square: &Square) -> CellId
        ensures value { result ≡ square_id square.now }
        ensures valid { IsCellId result }
        ensures level { level_of result ≡ square.now.level }
        ensures leaves { (leaf : GridLeaf) → IsLeaf leaf →
            IsTrue (cell_has_leaf result leaf) ↔ LiesInSquare leaf square.now }
    {
        let id = 2 * square.first() + lowest_bit_for(square.level);
        CellId { id }
    }

    /// The cell of `level`, at most this cell's own, that contains this one. At this cell's own level it is
    /// this cell itself.
    pub fn parent(&self, level: u8) -> CellId
        requires { level ≤ level_of self.now }
        ensures value { result ≡ parent_id level self.now }
        ensures valid { IsCellId result }
        ensures level { level_of result ≡ level }

        // Its leaves are exactly those of the square of `level` round any leaf of this cell.
        ensures leaves { (inner leaf : GridLeaf) → IsLeaf inner → IsLeaf leaf →
            IsTrue (cell_has_leaf self.now inner) →
            IsTrue (cell_has_leaf result leaf) ↔ ShareSquare level inner leaf }
    {
        let lowest_bit = lowest_bit_for(level);
        let above = !(2 * lowest_bit - 1);
        let id = (self.id & above) + lowest_bit;
        CellId { id }
    }

    /// The quarter of this cell that the curve visits at place `k`, 0 to 3. It is one level down, so this
    /// cell must not be a leaf.
    pub fn child(&self, k: u8) -> CellId
        requires k { k < 4 }
        requires level { level_of self.now < 30 }
        ensures value { result ≡ child_id k self.now }
        ensures valid { IsCellId result }
        ensures level { level_of result ≡ level_of self.now + 1 }

        // It has the leaves of this cell that are in quarter `k` of the cell's positions.
        ensures leaves { (leaf : GridLeaf) → IsLeaf leaf → IsTrue (cell_has_leaf result leaf)
            ↔ (IsTrue (cell_has_leaf self.now leaf)
            × ((position_of leaf - first_leaf self.now) / leaf_count (level_of result) ≡ k)) }
    {
        let lowest_bit = self.lowest_bit();
        let id = self.id - lowest_bit + (2 * u64::from(k) + 1) * (lowest_bit / 4);
        CellId { id }
    }
}

// Powers of two, each by its exponent.
macro_rules! powers {
    ($($exponent:literal)*) => { [$(1 << $exponent),*] };
}

// The lowest set bit of the ids of each level. A look-up is faster than a shift by a variable number.
static LOWEST_BITS: [u64; 31] = powers![
    60 58 56 54 52 50 48 46 44 42 40 38 36 34 32 30
    28 26 24 22 20 18 16 14 12 10 8 6 4 2 0
];

// The lowest set bit of an id of `level` (S2's `lsb_for_level`), as a number. It is also how many leaves such
// a cell has.
fn lowest_bit_for(level: u8) -> u64
    requires { level ≤ leaf_level }
    ensures { result ≡ leaf_count level }
{
    LOWEST_BITS[level as usize]
}
