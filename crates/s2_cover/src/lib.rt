//! Covers of sets of leaves by cells of the S2 geometry library: of a list of cells, which gives its normal
//! form, and of a rectangle of leaves.
//!
//! A leaf is a cell of level 30, the smallest. Its position is its number among the leaves of all six faces,
//! counted from 0 along S2's curve. A cell has the leaves of one range of positions. A cover is a list of
//! cells that has just the leaves of a set. It is canonical if its cells ascend, no cell lies inside another,
//! and no four are the children of one. Its leaves are reported as ranges of positions, too.
#![tactic(auto)]

mod covers;
pub mod laws;
mod rect;
mod sight;
mod spans;
mod walk;

pub use covers::{Cover, normalise};
pub use rect::{Rect, RectFault};
pub use spans::{Ranges, Span};
pub use walk::{CoverFault, cover};
