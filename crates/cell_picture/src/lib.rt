//! Pictures of covers, as SVG. A cover is a list of S2 cells that has the leaves (the smallest cells) of a
//! rectangle on a face of S2's cube. A face is a grid of leaves with the coordinates `i` and `j`, each 0 to
//! `2^30 - 1`. S2's curve visits all leaves, and gives cells their order.
#![tactic(auto)]

mod frame;
mod picture;

pub use picture::picture_of;
