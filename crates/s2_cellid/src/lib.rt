//! Cells of the S2 geometry library (class S2CellId): their 64-bit ids, the leaves that they have, and their
//! tokens. S2 projects the earth onto the six faces of a cube. A face is a cell of level 0, a cell has four
//! children one level down, and a leaf is a cell of level 30.
//!
//! An id has, from its highest bit down: three bits for the face, two bits for each level below it (which of
//! the four children, in the order of S2's curve), one bit 1, and zeros.
#![tactic(auto)]

ghost use Rattle.std.specs.Prelude.{◌≡◌, ◌↔◌, ◌≤◌, ◌<◌, ◌+◌, ◌*◌, ◌^◌, ℕ, IsTrue};
ghost use Rattle.std.specs.{Int.IsInRange, Option.SomeIff};
ghost use Rattle.s2_hilbert.specs.Grid.{GridLeaf, IsLeaf, ShareSquare, leaf_level};
ghost use Rattle.s2_cellid.specs.Cell.{IsCellId, face_of, level_of, lowest_bit, first_leaf_id, last_leaf_id, leaf_id_at, first_leaf, last_leaf, cell_has, cell_has_leaf};

mod family;
mod tokens;

use s2_hilbert::{FACES, LEAF_LEVEL};
use std::marker::Model;
pub use tokens::{Token, TokenFault};

// The place in an id of the lowest of the three bits of the face.
const FACE_PLACE: u32 = 61;

// Does nothing. Its contract proves that the constant is that of the definition: two bits for each level and
// one more.
fn has_the_limit()
    ensures { FACE_PLACE ≡ 2 * leaf_level + 1 }
{}

/// A cell, by its valid 64-bit id. Cells are ordered by their ids as unsigned numbers.
#[derive(Clone, Copy, Debug, PartialEq, Eq, PartialOrd, Ord, Hash)]
pub struct CellId {
    id: u64,
}

impl Model for CellId {
    ghost use Rattle.std.specs.Prelude.{ℕ};
    ghost use Rattle.s2_cellid.specs.Cell.{IsCellId};

    ghost Value = { ℕ };

    ghost view = { λ cell. cell.id };

    ghost invariant = { λ cell. IsCellId cell.id };

    ghost inverse = { λ id. record { id = id } };
}

impl CellId {
    /// The cell with this id, or `None` if the id is not valid (S2's `is_valid`). An id is valid if its face
    /// is 0 to 5 and its lowest set bit is at an even place, 0 to 60.
    pub fn from_raw(id: u64) -> Option<CellId>
        ensures { SomeIff result (IsCellId id) id }
    {
        let lowest_place = id.trailing_zeros();
        if face_of(id) < FACES && lowest_place % 2 == 0 && lowest_place < FACE_PLACE {
            Some(CellId { id })
        } else {
            None
        }
    }

    /// The cell's id, which is always valid.
    pub fn raw(&self) -> u64
        ensures value { result ≡ self.now }
        ensures valid { IsCellId self.now }
    {
        self.id
    }

    /// The face of the cube on which the cell lies, 0 to 5.
    pub fn face(&self) -> u8
        ensures value { result ≡ face_of self.now }
        ensures below { result < 6 }
        ensures leaves { (leaf : GridLeaf) → IsLeaf leaf →
            IsTrue (cell_has_leaf self.now leaf) → leaf.face ≡ result }
    {
        face_of(self.id)
    }

    /// The level, from 0 for a whole face to 30 for a leaf.
    pub fn level(&self) -> u8
        ensures value { result ≡ level_of self.now }
        ensures at_most { result ≤ 30 }

        // The cell's leaves are exactly those of the square of this level round any of them.
        ensures leaves { (inner leaf : GridLeaf) → IsLeaf inner → IsLeaf leaf →
            IsTrue (cell_has_leaf self.now inner) →
            IsTrue (cell_has_leaf self.now leaf) ↔ ShareSquare result inner leaf }
    {
        LEAF_LEVEL - (self.id.trailing_zeros() / 2) as u8
    }

    /// The position of the cell's first leaf: its number among all leaves, counted from 0 in the order of
    /// their ids. The id of the leaf at a position is `2 * position + 1`. The id of the cell's first leaf is
    /// S2's `range_min`.
    pub fn first(&self) -> u64
        ensures value { result ≡ first_leaf self.now }
        ensures leaf { leaf_id_at result ≡ first_leaf_id self.now }
        ensures positions { (p : ℕ) → IsTrue (cell_has self.now p)
            ↔ IsInRange (first_leaf self.now) (last_leaf self.now) p }
        ensures below { result < 6 * 2 ^ 60 }
    {
        self.first_leaf_id() / 2
    }

    /// The position of the cell's last leaf, counted as for `first`. The id of that leaf is S2's `range_max`.
    pub fn last(&self) -> u64
        ensures value { result ≡ last_leaf self.now }
        ensures leaf { leaf_id_at result ≡ last_leaf_id self.now }
        ensures positions { (p : ℕ) → IsTrue (cell_has self.now p)
            ↔ IsInRange (first_leaf self.now) (last_leaf self.now) p }
        ensures order { first_leaf self.now ≤ result }
        ensures below { result < 6 * 2 ^ 60 }
    {
        self.last_leaf_id() / 2
    }

    /// Whether each leaf of the other cell is a leaf of this one; a cell contains itself. This is so exactly
    /// if the other cell's id is in the range of the ids of this cell's leaves.
    pub fn contains(&self, other: &CellId) -> bool
        ensures range { IsTrue result
            ↔ IsInRange (first_leaf_id self.now) (last_leaf_id self.now) other.now }
        ensures positions { IsTrue result
            ↔ ((p : ℕ) → IsTrue (cell_has other.now p) → IsTrue (cell_has self.now p)) }
        ensures leaves { IsTrue result ↔ ((leaf : GridLeaf) → IsLeaf leaf →
            IsTrue (cell_has_leaf other.now leaf) → IsTrue (cell_has_leaf self.now leaf)) }
    {
        self.first_leaf_id() <= other.id && other.id <= self.last_leaf_id()
    }

    /// Whether some leaf belongs to both cells: whether the ranges of their leaves' ids overlap.
    pub fn intersects(&self, other: &CellId) -> bool
        ensures positions { IsTrue result
            ↔ ((p : ℕ) × (IsTrue (cell_has self.now p) × IsTrue (cell_has other.now p))) }
        ensures leaves { IsTrue result ↔ ((leaf : GridLeaf) × (IsLeaf leaf
            × IsTrue (cell_has_leaf self.now leaf) × IsTrue (cell_has_leaf other.now leaf))) }
    {
        self.first_leaf_id() <= other.last_leaf_id() && other.first_leaf_id() <= self.last_leaf_id()
    }

    // The lowest set bit of the id (S2's `lsb`), as a number: `2^place`.
    fn lowest_bit(&self) -> u64
        ensures { result ≡ lowest_bit self.now }
    {
        1 << self.id.trailing_zeros()
    }

    // The least id of the cell's leaves (S2's `range_min`). The ids of these go from `lowest_bit - 1` below
    // the cell's own to as much above.
    #[tactic(auto, using(crate::proofs::lemmas::Block::ends_of))]
    fn first_leaf_id(&self) -> u64
        ensures value { result ≡ first_leaf_id self.now }
        ensures valid { IsCellId self.now }
    {
        self.id - (self.lowest_bit() - 1)
    }

    // The greatest id of the cell's leaves (S2's `range_max`): as much above the cell's own id as the least
    // is below.
    #[tactic(auto, using(crate::proofs::lemmas::Block::ends_of))]
    fn last_leaf_id(&self) -> u64
        ensures value { result ≡ last_leaf_id self.now }
        ensures valid { IsCellId self.now }
    {
        self.id + (self.lowest_bit() - 1)
    }
}

// The face in an id, its top three bits: 0 to 7, of which 6 and 7 are not valid.
fn face_of(id: u64) -> u8
    ensures { result ≡ face_of id }
{
    (id >> FACE_PLACE) as u8
}
