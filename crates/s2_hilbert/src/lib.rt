//! The Hilbert curve of the S2 geometry library. S2 projects the earth onto the six faces of a cube, 0 to 5.
//! Each face is a grid of `2^30` by `2^30` leaf cells with the coordinates `i` and `j`. The curve visits all
//! leaves, face after face. The position of a leaf is its number along the curve, counted from 0.
//!
//! A square is a face (level 0), one of its quarters (level 1), and so on down to a leaf (level 30). The
//! curve runs through it in one of four orientations (`turn`, 0 to 3). Bit 1 (swap) exchanges `i` and `j`,
//! bit 2 (invert) reverses both.
#![tactic(auto)]

mod four_levels;
pub mod laws;
mod leaves;
mod levels;
mod quadrants;
mod squares;
mod tables;

pub use leaves::{FACE_SIDE, FACES, Leaf, leaf_at, position};
pub use levels::LEAF_LEVEL;
pub use squares::{Square, side_of};
